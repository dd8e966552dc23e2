//! The procedures on the bytes of files, as transactions over records: READ, WRITE, COMMIT and SETATTR; and what CREATE
//! does to a file that is there, where it gives a size.
//!
//! It promises of each, whatever it reads: it ends as its row of the answer table says, on every sound tree that may lie below,
//! and the tree that lies below then is the row's; or it gives up, and why (`Performs`). Where a file is cut, a sweep of it may
//! have to come first, and only where its stale extents stand in the way (`PerformsOrWaits`). It stands on `file_ops` for the
//! bytes of files, on `procs_object` for what handles lead to, and on `fs_rules` for the table and its rules.
#![tactic(auto)]

mod checks;
mod reading;
mod resizing;
mod stop;
mod writing;

pub use reading::{commit, read};
pub use resizing::{give_size, lacks_cuts, set_attr};
pub use stop::Stop;
pub use writing::{may_fill, write};
