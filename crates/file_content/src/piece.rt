//! A piece of a content.

ghost use Rattle.std.specs.Prelude.{◌≡◌, ◌==◌, ◌+◌, ◌^◌, ◌<◌, ◌++◌, length, take, drop, IfOk, OnOk};
ghost use Rattle.file_content.specs.Content.{zeros};

use nfs3_types::NoMemory;
use std::alloc::Global;
use std::marker::Model;

/// Zeros that take no memory, and the bytes behind them. A contract sees it as the list of both.
#[derive(Debug, Drop)]
pub struct Piece {
    hole: u64,
    bytes: Vec<u8>,
}

impl Model for Piece {
    ghost use Rattle.std.specs.Prelude.{List, ℕ, ◌+◌, ◌<◌, ◌^◌, ◌++◌, length};
    ghost use Rattle.file_content.specs.Content.{zeros};

    ghost Value = { List ℕ };

    ghost view = { λ piece. zeros piece.hole ++ piece.bytes.items };

    ghost invariant = { λ piece. piece.hole + length piece.bytes.items < 2 ^ 64 };
}

impl Piece {
    /// This many zeros, and these bytes behind them.
    pub fn new(hole: u64, bytes: Vec<u8>) -> Piece
        requires { hole + length bytes.items < 2 ^ 64 }
        ensures { result ≡ zeros hole ++ bytes.items }
    {
        Piece { hole, bytes }
    }

    /// How many bytes there are.
    pub fn len(&self) -> u64
        ensures { result ≡ length self.now }
    {
        self.hole + self.bytes.len() as u64
    }

    /// Whether there is no byte.
    pub fn is_empty(&self) -> bool
        ensures { result ≡ (length self.now == 0) }
    {
        self.len() == 0
    }

    /// Keeps the bytes before a place.
    pub fn cut(&mut self, at: u64)
        ensures { self.new ≡ take at self.old }
    {
        self.bytes.truncate(at.saturating_sub(self.hole) as usize);
        self.hole = self.hole.min(at);
    }

    /// The bytes before a place, or `NoMemory`.
    pub fn front(&self, alloc: Global, at: u64) -> Result<Piece, NoMemory>
        ensures { IfOk result (λ piece. piece ≡ take at self.now) }
    {
        let kept = start(&self.bytes, at.saturating_sub(self.hole) as usize);
        Ok(Piece {
            hole: self.hole.min(at),
            bytes: Vec::from_slice(alloc, kept)?,
        })
    }

    /// The bytes from a place on, or `NoMemory`.
    pub fn back(&self, alloc: Global, at: u64) -> Result<Piece, NoMemory>
        ensures { IfOk result (λ piece. piece ≡ drop at self.now) }
    {
        let kept = rest(&self.bytes, at.saturating_sub(self.hole) as usize);
        Ok(Piece {
            hole: self.hole.saturating_sub(at),
            bytes: Vec::from_slice(alloc, kept)?,
        })
    }

    /// An equal piece, or `NoMemory`.
    pub fn copy(&self, alloc: Global) -> Result<Piece, NoMemory>
        ensures { IfOk result (λ piece. piece ≡ self.now) }
    {
        Ok(Piece {
            hole: self.hole,
            bytes: Vec::from_slice(alloc, &self.bytes)?,
        })
    }

    /// Puts up to `count` bytes from a place on behind `out`, or answers `NoMemory`.
    pub fn read(&self, out: &mut Vec<u8>, at: u64, count: usize) -> Result<(), NoMemory>
        requires { length out.old.items + count < 2 ^ 64 }
        ensures { OnOk result (out.new.items ≡ out.old.items ++ take count (drop at self.now)) }
    {
        let zeros = count.min(self.hole.saturating_sub(at) as usize);
        put_zeros(out, zeros)?;
        let rest = rest(&self.bytes, at.saturating_sub(self.hole) as usize);
        out.extend_from_slice(start(rest, count - zeros))?;
        Ok(())
    }
}

/// The bytes before a place.
fn start(bytes: &[u8], at: usize) -> &[u8]
    ensures { result.now ≡ take at bytes.now }
{
    &bytes[..at.min(bytes.len())]
}

/// The bytes from a place on.
fn rest(bytes: &[u8], at: usize) -> &[u8]
    ensures { result.now ≡ drop at bytes.now }
{
    &bytes[at.min(bytes.len())..]
}

/// Puts zeros behind bytes, or answers `NoMemory`.
fn put_zeros(out: &mut Vec<u8>, count: usize) -> Result<(), NoMemory>
    requires { length out.old.items + count < 2 ^ 64 }
    ensures { OnOk result (out.new.items ≡ out.old.items ++ zeros count) }
{
    out.resize(out.len() + count, 0)?;
    Ok(())
}
