//! The bytes of whole files, as edits and reads of every tree that may lie below.
//!
//! It promises that a range is read as the answer table has it, cut at the file's end ([`read_at`]); that a write is the table's
//! word for it, with the file's size and times ([`write_at`]); and that a size that is set is the table's too, or that a sweep
//! of the file has to come first ([`set_size`]). Each fault has its cause. It stands on `extent_ops` for blocks, on `inode_ops`
//! for inodes, and on `fs_shows` for what they show as a tree.
#![tactic(auto)]

mod reading;
mod sizing;
mod writing;

pub use reading::read_at;
pub use sizing::set_size;
pub use writing::write_at;
