//! The plain tree: the one-thread file tree that the service is measured against.
//!
//! It promises that each call is answered as the answer table has it, and leaves the tree that the table has
//! after it; where memory runs out, the tree is as it was. It counts the nodes of the live tree, and the bytes of
//! its files.
//! It stands on `fs_rules` for the table and the rules, on `plain_nodes` for its nodes, and on `file_content` for
//! what files hold.
//!
//! ```
//! let mut tree = Plain::new(alloc, fsid, verifier, now)?;
//! let reply = tree.answer(alloc, &cred, &CallOver::GetAttr(root), now, 0)?;
//! assert!(reply.status == Status::Ok);
//! assert!(tree.node_count() == 1);
//! ```
#![tactic(auto)]

mod answer;
mod checks;
mod counts;
mod creating;
mod fault;
mod linking;
mod listed;
mod listing;
mod looking;
mod making;
mod object;
mod plain;
mod reading;
mod removing;
mod renaming;
mod setting;
mod snapshot;
mod snapshots;
mod snapshotting;
mod start;
mod telling;
mod writing;

pub use plain::Plain;
