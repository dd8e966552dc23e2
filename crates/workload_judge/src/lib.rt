//! The judge of the workload: its calls on the plain tree.
//!
//! It promises that a game played for some calls gives the counts of nodes and bytes of the stated tree: the first
//! one, after each call of the workload in order, each made by the replies of the answer table to those before.
//! It stands on `workload` for the calls, on `plain_tree` for the tree, and on `fs_rules` for the answer table.
//!
//! ```text
//! let counts = play(alloc, 1, 4)?;
//! assert!(counts.nodes == 3 && counts.bytes == 0);
//! ```
#![tactic(auto)]

mod counts;
mod game;

pub use counts::Counts;
pub use game::play;
