//! Two-phase commit over any way to the stores: commands that are tried again, transactions that anyone can finish, and
//! the commit of a transaction of one store or of several.
//!
//! It promises that what a caller is told agrees with what the pass's own entries gained: that a commit took effect, that
//! it is settled that it did not and what was in the way, or that it is not known and why; that a transaction is finished
//! as it was decided, whoever's it is; and that a command which is tried again acts at most once. It asks only what the
//! pass's own entries allow, and stands on `page_types` alone.
//!
//! ```text
//! match two_phase::commit(alloc, &mut port, tid, &parts, Some(entry)) {
//!     Commit::Done => Ok(reply),
//!     Commit::Crossed(cross) => Err(cross.into()),
//!     Commit::Fault(fault) => Err(fault.into()),
//! }
//! ```
#![tactic(auto)]

mod closing;
mod commits;
mod crossing;
mod endings;
mod laws;
mod parts;
mod prepares;
mod tries;

pub use closing::Commit;
pub use commits::commit;
pub use crossing::met;
pub use endings::{decide, finish, resolve_all};
pub use laws::{acts_once, commits_are_complete};
pub use parts::Part;
pub use prepares::{Preparation, prepare_all};
pub use tries::retry;
