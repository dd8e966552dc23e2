//! CREATE, as a transaction over records: with a size or without one, of a name that is there or not.
//!
//! It promises, whatever it reads: it ends as its row of the answer table says, on every sound tree that may lie below, and the
//! tree that lies below then is the row's; or it gives up, and why. Where a file that is there is cut, a sweep of it may have to
//! come first (`PerformsOrWaits`). A new file shows zeros up to its size: its inode says the size, and no extent stands behind it.
//! It stands on `procs_making` for new nodes, on `procs_bytes` for sizes, on `procs_object` for what numbers lead to, and on
//! `fs_rules` for the table and its rules.
#![tactic(auto)]

mod files;
mod making;
mod taking;

pub use files::create;
