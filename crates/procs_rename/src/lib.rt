//! RENAME, as a transaction over records.
//!
//! It promises, whatever it reads: it ends as its row of the answer table says, on every sound tree that may lie below, and the
//! tree that lies below then is the row's; or it gives up, and why (`Performs`). So it is of the way up from a directory alone
//! ([`climb`]), and of the edits of a move ([`move_node`]). It stands on `procs_object` for what handles lead to, on `inode_ops`
//! and `dir_ops` for reads and edits of records, on `fs_shows` for what they show, and on `fs_rules` for the table.
#![tactic(auto)]

mod climbing;
mod moving;
mod planning;
mod renaming;
mod seeing;

pub use climbing::climb;
pub use moving::move_node;
pub use renaming::rename;
