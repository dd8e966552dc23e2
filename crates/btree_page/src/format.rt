//! Why a text is no page.

use thiserror::Error;

/// Why a text is no page.
#[derive(Clone, Copy, Debug, PartialEq, Eq, Error)]
pub enum PageFormat {
    /// The offset of the first field that does not read.
    #[error("malformed at byte {0}")]
    Malformed(usize),
}
