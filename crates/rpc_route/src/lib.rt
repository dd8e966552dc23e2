//! What to do with a record: it is no call, it is answered without the tree, or it needs the tree.
//!
//! It promises that [`route`] is exactly the immediate reply of the record, by the first check that fits, and
//! that the buffer gains the whole record of the reply or nothing. Where the tree was needed, [`seal`] adds the
//! record of the reply; [`seal_bare`] and [`seal_system`] do so into room that was reserved, with no memory.
//! It stands on `rpc_msg` for heads, credentials and reply records, on `nfs3_args` for calls, on `nfs3_res` for
//! results, and on `mount3` for the other program.
//!
//! ```
//! match route(record, &exports, &mut out)? {
//!     Routed::Ready => {} // `out` gained the whole record of the reply
//!     Routed::Nfs { xid, who, call } => {
//!         let reply = tree.answer(&who, &call)?;
//!         seal(xid, &reply, &mut out)?;
//!     }
//! }
//! ```
#![tactic(auto)]

mod routed;
mod routing;
mod seals;

pub use routed::{RouteFault, Routed};
pub use routing::{LONGEST_IMMEDIATE, route};
pub use seals::{ACCEPTED_HEAD, LONGEST_BARE, seal, seal_bare, seal_system};
