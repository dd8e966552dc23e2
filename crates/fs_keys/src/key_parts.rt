//! What keys say.

/// What a key says, a variant for each row of the table of keys, over texts of type `B`.
#[derive(Debug, Drop)]
pub enum KeyParts<B> {
    /// Row 1: the epoch, the file system's number and its verifier.
    First,
    /// Row 2: the next number that a lane gives to a new file.
    Lane(u8),
    /// Row 3: the name of the snapshot of this number.
    Snapshot(u64),
    /// Row 4: the inode of this number.
    Inode(u64),
    /// Row 5: the cookie and the number of what a directory has under a name.
    Name {
        /// The directory's number.
        directory: u64,
        /// The name, of at most 255 bytes.
        name: B,
    },
    /// Row 6: the number and the name of what a directory has at a cookie.
    Cookie {
        /// The directory's number.
        directory: u64,
        /// The cookie.
        cookie: u64,
    },
    /// Row 7: where a block of a file lies.
    Extent {
        /// The file's number.
        file: u64,
        /// The index of the block in the file.
        index: u64,
    },
    /// Row 8: the file of this number may have stale blocks.
    Stale(u64),
    /// Row 9: the times of `.snapshot`.
    Times,
}
