//! READDIR and READDIRPLUS, as transactions over records, of directories of the live tree and of snapshots, and of the directory of
//! snapshots.
//!
//! It promises of each, whatever it reads: it ends as its row of the answer table says, on every sound tree that may lie below,
//! which stays; or it gives up, and why (`Performs`). A directory's entries are read one by one, by rising cookie, while they
//! fit. It stands on `procs_object` for what handles and numbers lead to, on `dir_ops` and `snap_ops` for reads of names, on `fs_shows`
//! for what they show as a tree, and on `fs_rules` for the table and its rules.
#![tactic(auto)]

mod entries;
mod fitting;
mod paging;
mod telling;

pub use telling::{read_dir, read_dir_plus};
