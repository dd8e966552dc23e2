//! Why words gave no command.

use thiserror::Error;

/// Why words gave no command.
#[derive(Clone, Copy, Debug, PartialEq, Eq, Error)]
pub enum WordsFault {
    /// The words are no command.
    #[error("the words are no command")]
    Usage = 1,
    /// Memory ran out.
    #[error("no memory")]
    NoMemory = 2,
}
