//! What the values of records say.

use pair_types::Name;

/// The first record: the epoch, the file system and its verifier.
#[derive(Clone, Copy, Debug, PartialEq, Eq)]
pub struct First {
    /// The number of the next snapshot: what is written now is born in it.
    pub epoch: u64,
    /// The number of the file system.
    pub fsid: u64,
    /// What tells a client that nothing was lost that it wrote.
    pub verifier: [u8; 8],
}

/// Where a name of a directory leads.
#[derive(Clone, Copy, Debug, PartialEq, Eq)]
pub struct NameRow {
    /// The cookie of the entry.
    pub cookie: u64,
    /// The file.
    pub fileid: u64,
}

/// Which entry of a directory has a cookie.
#[derive(Debug, Drop)]
pub struct CookieRow {
    /// The file.
    pub fileid: u64,
    /// The name, of at most 255 bytes.
    pub name: Name,
}

/// Where a block of a file lies.
#[derive(Clone, Copy, Debug, PartialEq, Eq)]
pub struct Extent {
    /// The number of its slot, in the store that the file and the block's index tell.
    pub number: u64,
    /// How often the file had been cut when the block was written.
    pub stamp: u64,
}
