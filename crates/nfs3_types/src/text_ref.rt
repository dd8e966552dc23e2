//! Lent strings of bytes.

ghost use Rattle.std.specs.Prelude.{◌≡◌};

use std::marker::Model;

/// A string of bytes that is lent: a contract sees it as the list of its bytes, as it sees a
/// [`Text`](crate::Text).
#[derive(Debug, Drop)]
pub struct TextRef<'a> {
    bytes: &'a [u8],
}

impl<'a> Model for TextRef<'a> {
    ghost use Rattle.std.specs.Prelude.{List, ℕ};

    ghost Value = { List ℕ };

    ghost view = { λ text. text.bytes.now };
}

impl<'a> TextRef<'a> {
    /// These bytes, where they stand.
    pub fn new(bytes: &'a [u8]) -> TextRef<'a>
        ensures { result ≡ bytes.now }
    {
        TextRef { bytes }
    }

    /// The bytes, for as long as they are lent.
    pub fn as_slice(&self) -> &'a [u8]
        ensures { result.now ≡ self.now }
    {
        self.bytes
    }
}
