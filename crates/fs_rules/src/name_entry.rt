//! Names in directories.

use nfs3_types::Text;

/// A name in a directory.
#[derive(Debug, Drop)]
pub struct NameEntry {
    /// What a reading of the directory goes on behind (RFC 1813, section 3.3.16, cookie3).
    pub cookie: u64,
    /// The name.
    pub name: Text,
    /// The number of the file that it names; in the directory `.snapshot` that of the snapshot.
    pub fileid: u64,
}
