//! The limits of a record.

/// The most bytes that the content of a record may have, without its heads.
pub const MOST_BYTES: usize = 65_536;

/// The most fragments that a record may have, empty ones counted.
pub const MOST_FRAGMENTS: usize = 64;
