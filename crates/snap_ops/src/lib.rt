//! Snapshots, over pairs: which are kept, what the directory `.snapshot` has, and how one is taken and dropped.
//!
//! It promises of each call what it does to every tree that may lie below: a read tells what the tree has ([`kept`],
//! [`snapshots`], [`snapshot_times`]), an edit is one word of the table of answers ([`add_snap`], [`drop_snap`]), and a call
//! that gives up says why. A snapshot is taken and dropped by a few records, whatever the size of the tree: the view by its
//! number shows what was live. It stands on `inode_ops` for single records and on `fs_shows` for what pairs show as a tree.
#![tactic(auto)]

mod dropping;
mod listing;
mod reading;
mod taking;

pub use dropping::drop_snap;
pub use listing::{first_behind, snapshots};
pub use reading::{kept, snapshot_times};
pub use taking::add_snap;
