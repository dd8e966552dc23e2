//! What is wrong with a text.

use thiserror::Error;

/// Why a text spells no value: the first fault in the order of reading.
#[derive(Clone, Copy, Debug, PartialEq, Eq, Error)]
pub enum XdrFault {
    /// An item passes the end of the text.
    #[error("the text is too short")]
    Short,
    /// A length passes its limit.
    #[error("a length passes its limit")]
    TooLong,
    /// A boolean is neither 0 nor 1.
    #[error("a boolean is neither 0 nor 1")]
    BadBool,
    /// An enumeration has no such number.
    #[error("an enumeration has no such number")]
    BadEnum,
    /// Bytes stand behind the last item.
    #[error("bytes stand behind the last item")]
    Trailing,
}
