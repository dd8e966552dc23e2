//! The tree that a history of calls leads to: its entries, replayed on the plain tree.
//!
//! It promises that a legal list of entries, replayed from the tree that it begins at, gives the tree that it leads
//! to; and of any list the tree after each of its calls that succeeded, in order. An entry is legal where it was
//! answered as the answer table has it, or where a call that would have succeeded was answered that there is no
//! room, and changed nothing.
//! It stands on `plain_tree` for the tree, on `fs_rules` for the answer table, and on `nfs3_types` for entries.
//!
//! ```text
//! let first = Plain::new(alloc, fsid, verifier, begin)?;
//! let last = replay(alloc, first, &entries)?;
//! ```
#![tactic(auto)]

mod replaying;

pub use replaying::{are_in_lanes, replay};
