//! What a file holds.

ghost use Rattle.std.specs.Prelude.{◌≡◌, ◌==◌, ◌+◌, ◌^◌, ◌<◌, [], length, take, drop, IfOk, OnOk, OnErr};
ghost use Rattle.file_content.specs.Content.{zeros, resized, written};

use crate::piece::Piece;
use crate::pieces;
use nfs3_types::{NoMemory, Text};
use std::alloc::Global;
use std::marker::Model;

/// The content of a file: a contract sees it as the list of its bytes. It is kept as pieces that were
/// written, each with the zeros before it, so that what was never written takes no memory.
#[derive(Debug, Drop)]
pub struct Content {
    size: u64,
    /// What was written up to the last byte that was; zeros lie behind it.
    pieces: Vec<Piece>,
}

impl Model for Content {
    ghost use Rattle.std.specs.Prelude.{List, ℕ, ◌≤◌, length};
    ghost use Rattle.std.specs.List.{concat};
    ghost use Rattle.file_content.specs.Content.{resized};

    ghost Value = { List ℕ };

    ghost view = { λ content. resized content.size (concat content.pieces.items) };

    ghost invariant = { λ content. length (concat content.pieces.items) ≤ content.size };
}

impl Content {
    /// The empty content. It takes no memory.
    pub fn new(alloc: Global) -> Content
        ensures { result ≡ [] }
    {
        Content {
            size: 0,
            pieces: Vec::new(alloc),
        }
    }

    /// A content of this many zeros. It takes no memory.
    pub fn zeros(alloc: Global, size: u64) -> Content
        ensures { result ≡ zeros size }
    {
        Content {
            size,
            pieces: Vec::new(alloc),
        }
    }

    /// How many bytes there are.
    pub fn len(&self) -> u64
        ensures { result ≡ length self.now }
    {
        self.size
    }

    /// Whether there is no byte.
    pub fn is_empty(&self) -> bool
        ensures { result ≡ (length self.now == 0) }
    {
        self.size == 0
    }

    /// Up to `count` bytes from an offset on, fewer where the content ends, or `NoMemory`. It takes
    /// memory for the bytes that it gives.
    pub fn read(&self, alloc: Global, offset: u64, count: usize) -> Result<Text, NoMemory>
        ensures { IfOk result (λ bytes. bytes ≡ take count (drop offset self.now)) }
    {
        let count = count.min(self.size.saturating_sub(offset) as usize);
        let mut bytes = pieces::read(alloc, &self.pieces, offset, count)?;
        bytes.resize(count, 0)?;
        Ok(Text::from_vec(bytes))
    }

    /// Writes bytes from an offset on, and fills up with zeros to there; or answers `NoMemory`, and
    /// leaves the content as it was.
    pub fn write(&mut self, alloc: Global, offset: u64, bytes: &[u8]) -> Result<(), NoMemory>
        requires { offset + length bytes.now < 2 ^ 64 }
        ensures ok { OnOk result (self.new ≡ written offset bytes.now self.old) }
        ensures err { OnErr result (self.new ≡ self.old) }
    {
        pieces::write(alloc, &mut self.pieces, offset, bytes)?;
        self.size = self.size.max(offset + bytes.len() as u64);
        Ok(())
    }

    /// Gives the content a size in bytes: it is cut, or filled up with zeros. It takes no memory.
    pub fn resize(&mut self, size: u64)
        ensures { self.new ≡ resized size self.old }
    {
        pieces::cut(&mut self.pieces, size);
        self.size = size;
    }

    /// An equal content, or `NoMemory`.
    pub fn copy(&self, alloc: Global) -> Result<Content, NoMemory>
        ensures { IfOk result (λ content. content ≡ self.now) }
    {
        Ok(Content {
            size: self.size,
            pieces: pieces::copy(alloc, &self.pieces)?,
        })
    }
}
