//! The service's limits.

/// The most bytes of one READ or WRITE.
pub const MOST_TRANSFER: u32 = 32768;

/// The most bytes of the result of a READDIR or READDIRPLUS.
pub const MOST_LISTING: u32 = 32768;

/// What FSINFO tells of READ and WRITE.
pub const TOLD_TRANSFER: u32 = 32768;

/// What FSINFO tells of READDIR.
pub const TOLD_LISTING: u32 = 32768;

/// The greatest size of a file in bytes.
pub const MOST_SIZE: u64 = 1 << 40;

/// The longest name in bytes.
pub const LONGEST_NAME: usize = 255;

/// The longest path of a symbolic link in bytes.
pub const LONGEST_TARGET: usize = 1023;

/// The most links: names of a file; of a directory its subdirectories and two.
pub const MOST_LINKS: u32 = 32000;

/// The deepest directory into which a directory is moved, where the root has level 0.
pub const DEEPEST: u32 = 1024;

/// The most snapshots.
pub const MOST_SNAPSHOTS: usize = 1024;

/// The epoch at which no snapshot is taken any more.
pub const LAST_EPOCH: u64 = (1 << 32) - 1;

/// What file numbers and cookies stay below, and what the number of cuts of a file stays below.
pub const MOST_NUMBERS: u64 = 1 << 62;
