//! The procedures on one object, as transactions over records: GETATTR, SETATTR without a size, ACCESS, READLINK, FSSTAT, FSINFO
//! and PATHCONF, on the live tree, on snapshots and on the directory of them.
//!
//! It promises of each, whatever it reads: it ends as its row of the answer table says, on every sound tree that may lie below,
//! and the tree that lies below then is the row's; or it gives up, and why (`Performs`). It stands on `inode_ops` for reads and
//! edits of records, on `snap_ops` for snapshots, on `fs_shows` for what they show as a tree, and on `fs_rules` for the table and
//! its rules.
#![tactic(auto)]

mod naming;
mod object;
mod setting;
mod snapshot;
mod telling;

pub use naming::{above, beside, find_directory, need_place_for};
pub use object::{Begun, Found, find_child, find_object, find_place, look, says_snapshots, see};
pub use setting::set_attr;
pub use telling::{access, fs_info, fs_stat, get_attr, path_conf, read_link};
