//! What is wrong with a stream.

use thiserror::Error;

/// Why a stream is refused. It is told at a head, and nothing behind that head is read.
#[derive(Clone, Copy, Debug, PartialEq, Eq, Error)]
pub enum RecordFault {
    /// The lengths of a record's fragments add up to more than [`MOST_BYTES`](crate::MOST_BYTES).
    #[error("a record is too long")]
    TooLong,
    /// A record has more than [`MOST_FRAGMENTS`](crate::MOST_FRAGMENTS) fragments.
    #[error("a record has too many fragments")]
    TooManyFragments,
}
