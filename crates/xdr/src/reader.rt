//! Reading items from the front of a text.

ghost use Rattle.std.specs.Prelude.{◌≡◌, ◌<◌, ◌≤◌, ◌↔◌, ◌⊎◌, ◌+◌, length, take, drop, Err, IsSome, IfSome, OnSome, IsNone};
ghost use Rattle.std.specs.Prelude.{IfNone, IfOk, IfErr, IsErr, OnErr, OnOk, IsOk};
ghost use Rattle.xdr_grammar.specs.Items.{word, hyper, truth, pick, fixed, opaque};
ghost use Rattle.xdr_grammar.specs.Items.{padding as padding_of};
ghost use Rattle.xdr_grammar.specs.Reading.{Gives};
ghost use Rattle.xdr.specs.Words.{FrontWord};

use crate::pad::padding;
use byteorder::{BigEndian, ByteOrder};
use cursor::Cursor;
use std::marker::Model;
use xdr_grammar::XdrFault;

/// A reader of the items of a text. A contract sees the bytes that are left.
#[derive(Debug, Drop)]
pub struct Reader<'a> {
    text: &'a [u8],
    cursor: Cursor<'a>,
}

impl<'a> Model for Reader<'a> {
    ghost use Rattle.std.specs.Prelude.{◌≡◌, List, ℕ, drop};

    ghost Value = { List ℕ };

    ghost view = { λ reader. drop reader.cursor.place reader.text.now };

    ghost invariant = { λ reader. reader.cursor.text ≡ reader.text.now };
}

impl<'a> Reader<'a> {
    /// A reader of the whole text.
    pub fn new(text: &'a [u8]) -> Reader<'a>
        ensures { result ≡ text.now }
    {
        Reader {
            text,
            cursor: Cursor::new(text),
        }
    }

    /// The bytes that are left, as a part of the text.
    pub fn rest(&self) -> &'a [u8]
        ensures { result.now ≡ self.now }
    {
        &self.text[self.cursor.place()..]
    }

    /// The next `n` bytes, and moves past them. `None` where fewer are left, and then nothing moves.
    fn part(&mut self, n: usize) -> Option<&'a [u8]>
        ensures part { IfSome result (λ part. part.now ≡ take n self.old) }
        ensures moves { OnSome result (self.new ≡ drop n self.old) }
        ensures some { IsSome result ↔ (n ≤ length self.old) }
        ensures none { IsNone result ↔ (length self.old < n) }
        ensures stays { IfNone result (self.new ≡ self.old) }
    {
        self.cursor.part(n)
    }

    /// The next word.
    #[tactic(auto, unfolding(xdr_grammar::specs::Items::word))]
    pub fn word(&mut self) -> Result<u32, XdrFault>
        ensures gives { Gives word (λ n. n) self.old self.new result }
        ensures short { IsErr result ↔ (length self.old < 4) }
        ensures only_short { IfErr result (λ fault. fault ≡ XdrFault.Short) }
        ensures takes { OnOk result (length self.old ≡ length self.new + 4) }
        ensures stays { OnErr result (self.new ≡ self.old) }
    {
        match self.part(4) {
            Some(part) => Ok(BigEndian::read_u32(part)),
            None => Err(XdrFault::Short),
        }
    }

    /// The next hyper.
    #[tactic(auto, unfolding(xdr_grammar::specs::Items::hyper))]
    pub fn hyper(&mut self) -> Result<u64, XdrFault>
        ensures gives { Gives hyper (λ n. n) self.old self.new result }
        ensures short { IsErr result ↔ (length self.old < 8) }
        ensures only_short { IfErr result (λ fault. fault ≡ XdrFault.Short) }
        ensures takes { OnOk result (length self.old ≡ length self.new + 8) }
        ensures stays { OnErr result (self.new ≡ self.old) }
    {
        match self.part(8) {
            Some(part) => Ok(BigEndian::read_u64(part)),
            None => Err(XdrFault::Short),
        }
    }

    /// The next boolean: the word 0 or 1.
    #[tactic(auto, unfolding(xdr_grammar::specs::Items::truth))]
    pub fn truth(&mut self) -> Result<bool, XdrFault>
        ensures gives { Gives truth (λ b. b) self.old self.new result }
        ensures short { (result ≡ Err XdrFault.Short) ↔ (length self.old < 4) }
        ensures bad_bool { (result ≡ Err XdrFault.BadBool) ↔ FrontWord (λ n _. 1 < n) self.old }
        ensures takes { OnOk result (length self.old ≡ length self.new + 4) }
        ensures stays { OnErr result (self.new ≡ self.old) }
    {
        let mut ahead = Reader::new(self.rest());
        let n = ahead.word()?;
        if n > 1 {
            return Err(XdrFault::BadBool);
        }
        *self = ahead;
        Ok(n == 1)
    }

    /// The next enumeration, whose numbers are those from `low` to `high`.
    #[tactic(auto, unfolding(xdr_grammar::specs::Items::pick))]
    pub fn pick(&mut self, low: u32, high: u32) -> Result<u32, XdrFault>
        ensures gives { Gives (pick low high) (λ n. n) self.old self.new result }
        ensures short { (result ≡ Err XdrFault.Short) ↔ (length self.old < 4) }
        ensures bad_enum { (result ≡ Err XdrFault.BadEnum)
            ↔ FrontWord (λ n _. (n < low) ⊎ (high < n)) self.old }
        ensures at_least { IfOk result (λ n. low ≤ n) }
        ensures at_most { IfOk result (λ n. n ≤ high) }
        ensures takes { OnOk result (length self.old ≡ length self.new + 4) }
        ensures stays { OnErr result (self.new ≡ self.old) }
    {
        let mut ahead = Reader::new(self.rest());
        let n = ahead.word()?;
        if n < low || high < n {
            return Err(XdrFault::BadEnum);
        }
        *self = ahead;
        Ok(n)
    }

    /// The next `n` bytes of fixed-length opaque data, as a part of the text. Their padding is left
    /// out, whatever it is.
    #[tactic(auto, unfolding(xdr_grammar::specs::Items::fixed))]
    pub fn fixed(&mut self, n: u32) -> Result<&'a [u8], XdrFault>
        ensures gives { Gives (fixed n) (λ part. part.now) self.old self.new result }
        ensures short { IsErr result ↔ (length self.old < n + padding_of n) }
        ensures only_short { IfErr result (λ fault. fault ≡ XdrFault.Short) }
        ensures len { IfOk result (λ part. length part.now ≡ n) }
        ensures takes { OnOk result (length self.old ≡ length self.new + (n + padding_of n)) }
        ensures stays { OnErr result (self.new ≡ self.old) }
    {
        let n = n as usize;
        match self.part(n + padding(n)) {
            Some(part) => Ok(&part[..n]),
            None => Err(XdrFault::Short),
        }
    }

    /// The next variable-length opaque data, of at most `max` bytes, as a part of the text.
    #[tactic(auto, unfolding(xdr_grammar::specs::Items::opaque))]
    pub fn opaque(&mut self, max: u32) -> Result<&'a [u8], XdrFault>
        ensures gives { Gives (opaque max) (λ part. part.now) self.old self.new result }
        ensures too_long { (result ≡ Err XdrFault.TooLong) ↔ FrontWord (λ n _. max < n) self.old }
        // The length word is missing, or the content or its padding behind a length that is allowed.
        ensures short { (result ≡ Err XdrFault.Short)
            ↔ ((length self.old < 4)
            ⊎ FrontWord (λ n rest. (n ≤ max) × (length rest < n + padding_of n)) self.old) }
        ensures len { IfOk result (λ part. length part.now ≤ max) }
        ensures takes { IfOk result (λ part.
            length self.old
            ≡ length self.new + (4 + (length part.now + padding_of (length part.now)))) }
        ensures stays { OnErr result (self.new ≡ self.old) }
    {
        let mut ahead = Reader::new(self.rest());
        let n = ahead.word()?;
        if n > max {
            return Err(XdrFault::TooLong);
        }
        let part = ahead.fixed(n)?;
        *self = ahead;
        Ok(part)
    }

    /// The end: nothing may be left.
    pub fn end(&self) -> Result<(), XdrFault>
        ensures trailing { (result ≡ Err XdrFault.Trailing) ↔ (0 < length self.now) }
        ensures ok { IsOk result ↔ (length self.now ≡ 0) }
    {
        if self.cursor.left() == 0 {
            Ok(())
        } else {
            Err(XdrFault::Trailing)
        }
    }
}
