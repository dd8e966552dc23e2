//! The times of a file.

use nfs3_types::Moment;

/// The times of a file (RFC 1813, section 2.6, fattr3).
#[derive(Clone, Copy, Debug, PartialEq, Eq)]
pub struct Times {
    /// When it was last read.
    pub atime: Moment,
    /// When its content was last changed.
    pub mtime: Moment,
    /// When its attributes were last changed.
    pub ctime: Moment,
}
