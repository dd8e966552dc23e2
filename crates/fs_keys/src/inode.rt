//! Inodes, as the tree keeps them.

use fs_rules::Inode as Kept;
use nfs3_types::Text;

/// An inode but for a link's target. What is kept of a file counts its cuts: a block counts for the file where its stamp
/// is that count, or its index is below the floor.
#[derive(Clone, Copy, Debug, PartialEq, Eq)]
pub struct Head {
    /// What is kept of the file.
    pub kept: Kept,
    /// The number of bytes of a file, or of a link's target.
    pub size: u64,
    /// The index below which blocks count that were written before the last cut.
    pub floor: u64,
}

/// An inode.
#[derive(Debug, Drop)]
pub struct Inode {
    /// All but a link's target.
    pub head: Head,
    /// The path that a symbolic link leads to, of at most 1,023 bytes.
    pub target: Text,
}
