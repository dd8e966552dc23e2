//! The procedures on names, as transactions over records: LOOKUP, REMOVE, LINK and RMDIR.
//!
//! It promises of each, whatever it reads: it ends as its row of the answer table says, on every sound tree that may lie below,
//! and the tree that lies below then is the row's; or it gives up, and why (`Performs`). It stands on `procs_object` for what
//! handles lead to, on `dir_ops`, `snap_ops` and `inode_ops` for reads and edits of records, and on `fs_rules` for the table.
#![tactic(auto)]

mod checks;
mod dropping;
mod editing;
mod emptying;
mod finding;
mod linking;
mod looking;
mod removing;
mod ways;

pub use dropping::rmdir;
pub use linking::link;
pub use looking::lookup;
pub use removing::remove;
