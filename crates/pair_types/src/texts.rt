//! The texts of records: one type, by three limits.

use nfs3_types::Text;

/// The longest key of a record, in bytes.
pub const KEY_LIMIT: usize = 264;

/// The longest name of a file or of a snapshot, in bytes.
pub const NAME_LIMIT: usize = 255;

/// The longest value of a record, in bytes.
pub const VALUE_LIMIT: usize = 1200;

/// What a record is found by, together with its birth: at most [`KEY_LIMIT`] bytes where it goes into
/// a page.
pub type Key = Text;

/// What a file or a snapshot is called, in any encoding or none: at most [`NAME_LIMIT`] bytes where
/// it goes into a directory.
pub type Name = Text;

/// What a record carries: at most [`VALUE_LIMIT`] bytes where it goes into a page.
pub type Value = Text;
