//! MKDIR, as a transaction over records: outside of `.snapshot` a directory is made, and in `.snapshot` a snapshot is taken.
//!
//! It promises, whatever it reads: it ends as its row of the answer table says, on every sound tree that may lie below, and the
//! tree that lies below then is the row's; or it gives up, and why (`Performs`). Taking a snapshot puts three records, whatever
//! the size of the tree. It stands on `procs_making` for MKDIR outside of `.snapshot`, on `snap_ops` for snapshots as records, on
//! `procs_object` for what handles lead to, and on `fs_rules` for the table and its rules.
#![tactic(auto)]

mod checks;
mod taking;
mod telling;

pub use taking::mkdir;
