//! What an edit makes of a page.

use pair_types::{Key, Page};

/// What an edit makes of a page, after it wrote what lies below it.
#[derive(Drop)]
pub(crate) enum Edited {
    /// The record does not stand there, and nothing changed.
    Missing,
    /// The page stays as it is.
    Below,
    /// The page becomes this one.
    Page(Page),
    /// The page becomes the left one, and has no room for the rest.
    Two {
        /// The first part.
        left: Page,
        /// The least key of the second part.
        key: Key,
        /// The least birth at that key.
        birth: u64,
        /// The second part.
        right: Page,
    },
}
