//! A place in a text of bytes that is read from front to back.
//!
//! It promises that each part is the text's own bytes at the place, with no copy and no memory, that
//! the place moves past each part, and that nothing moves where too few bytes are left.
//! It stands on no other crate.
//!
//! ```
//! let mut cursor = Cursor::new(text);
//! let mark = cursor.part(4)?;
//! let content = cursor.part(cursor.left())?;
//! assert_eq!(cursor.place(), text.len());
//! assert_eq!(cursor.part(1), None);
//! ```
#![tactic(auto)]

ghost use Rattle.std.specs.Prelude.{◌≡◌, ◌+◌, ◌-◌, ◌<◌, ◌≤◌, ◌↔◌, length, take, drop, IsNone, IfSome, OnSome, IfNone};

use std::marker::Model;

/// A text and a place in it. A contract sees both, as a `Position`.
#[derive(Debug, Drop)]
pub struct Cursor<'a> {
    text: &'a [u8],
    place: usize,
}

impl<'a> Model for Cursor<'a> {
    ghost use Rattle.std.specs.Prelude.{◌≤◌, length};
    ghost use Rattle.cursor.specs.Position.{Position};

    ghost Value = { Position };

    ghost view = { λ cursor. record { text = cursor.text.now; place = cursor.place } };

    ghost invariant = { λ cursor. cursor.place ≤ length cursor.text.now };
}

impl<'a> Cursor<'a> {
    /// The beginning of the text.
    pub fn new(text: &'a [u8]) -> Cursor<'a>
        ensures { result ≡ record { text = text.now; place = 0 } }
    {
        Cursor { text, place: 0 }
    }

    /// The next `n` bytes, as a part of the text, and moves past them. `None` exactly where fewer
    /// are left, and then nothing moves.
    pub fn part(&mut self, n: usize) -> Option<&'a [u8]>
        ensures part { IfSome result (λ part. part.now ≡ take n (drop self.old.place self.old.text)) }
        ensures moves { OnSome result (self.new ≡ record self.old { place = self.old.place + n }) }
        ensures none { IsNone result ↔ (length self.old.text - self.old.place < n) }
        ensures stays { IfNone result (self.new ≡ self.old) }
    {
        if self.text.len() - self.place < n {
            return None;
        }
        let start = self.place;
        self.place += n;
        Some(&self.text[start..start + n])
    }

    /// How many bytes are left.
    pub fn left(&self) -> usize
        ensures left { result ≡ length self.now.text - self.now.place }
        ensures within { self.now.place ≤ length self.now.text }
    {
        self.text.len() - self.place
    }

    /// The place: how many bytes of the text lie before it.
    pub fn place(&self) -> usize
        ensures place { result ≡ self.now.place }
        ensures within { self.now.place ≤ length self.now.text }
    {
        self.place
    }
}
