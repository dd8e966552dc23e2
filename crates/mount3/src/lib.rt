//! The MOUNT protocol, version 3 (RFC 1813, appendix I), which gives a client its first handle.
//!
//! It promises that [`answer_mount`] adds exactly the body that the protocol has for a call, and that
//! arguments are refused exactly where they do not spell what the procedure takes, with the first
//! fault. It stands on `xdr` for items, and on `xdr_grammar` for what is spelled how.
//!
//! ```
//! let exports = Exports { fsid };
//! match answer_mount(MNT, b"\0\0\0\x01/\0\0\0", &exports, &mut out) {
//!     Ok(()) => {} // `out` gained 0, the root's handle and two flavors
//!     Err(MountFault::Garbage(fault)) => refuse(fault),
//!     Err(MountFault::NoMemory) => starve(),
//! }
//! ```
#![tactic(auto)]

mod answering;
mod laws;
mod procedures;

pub use answering::{Exports, MountFault, answer_mount};
pub use laws::mount_is_lawful;
pub use procedures::{DUMP, EXPORT, MNT, NULL, UMNT, UMNTALL};
