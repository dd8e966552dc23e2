//! Pieces, one behind another.

ghost use Rattle.std.specs.Prelude.{◌≡◌, ◌+◌, ◌^◌, ◌<◌, ◌≤◌, ◌++◌, length, take, drop, IfOk, OnOk, OnErr};
ghost use Rattle.std.specs.List.{concat, splice};
ghost use Rattle.file_content.specs.Content.{zeros, resized, written};
ghost use Rattle.file_content.specs.Pieces.{IsPlace};

use crate::piece::Piece;
use nfs3_types::NoMemory;
use std::alloc::Global;

/// Where an offset lies: so many bytes into the piece of this index, or behind the last piece.
#[derive(Clone, Copy)]
struct Place {
    index: usize,
    rest: u64,
}

/// The place of an offset.
fn place_of(pieces: &[Piece], offset: u64) -> Place
    ensures { IsPlace pieces.now offset result }
{
    let mut rest = offset;
    for (index, piece) in pieces.iter().enumerate() {
        let len = piece.len();
        if rest < len {
            return Place { index, rest };
        }
        rest -= len;
    }
    Place {
        index: pieces.len(),
        rest,
    }
}

/// Whole pieces before or behind an offset, told by an index, and the part beside them of a piece
/// that the offset cuts.
#[derive(Drop)]
struct Edge {
    index: usize,
    part: Piece,
}

/// What lies before an offset, filled up with zeros to there, or `NoMemory`.
fn before(alloc: Global, pieces: &[Piece], offset: u64) -> Result<Edge, NoMemory>
    ensures within { IfOk result (λ edge. edge.index ≤ length pieces.now) }
    ensures all { IfOk result (λ edge. concat (take edge.index pieces.now) ++ edge.part ≡ resized offset (concat pieces.now)) }
{
    let place = place_of(pieces, offset);
    if place.index == pieces.len() {
        let part = Piece::new(place.rest, Vec::new(alloc));
        return Ok(Edge {
            index: place.index,
            part,
        });
    }
    let part = pieces[place.index].front(alloc, place.rest)?;
    Ok(Edge {
        index: place.index,
        part,
    })
}

/// What lies from an offset on, or `NoMemory`.
fn behind(alloc: Global, pieces: &[Piece], offset: u64) -> Result<Edge, NoMemory>
    ensures within { IfOk result (λ edge. edge.index ≤ length pieces.now) }
    ensures all { IfOk result (λ edge. edge.part ++ concat (drop edge.index pieces.now) ≡ drop offset (concat pieces.now)) }
{
    let place = place_of(pieces, offset);
    if place.index == pieces.len() {
        let part = Piece::new(0, Vec::new(alloc));
        return Ok(Edge {
            index: place.index,
            part,
        });
    }
    let part = pieces[place.index].back(alloc, place.rest)?;
    Ok(Edge {
        index: place.index + 1,
        part,
    })
}

/// Puts a piece behind others, unless it is empty.
fn put(pieces: &mut Vec<Piece>, piece: Piece) -> Result<(), NoMemory>
    ensures { OnOk result (concat pieces.new.items ≡ concat pieces.old.items ++ piece) }
{
    if !piece.is_empty() {
        pieces.push(piece)?;
    }
    Ok(())
}

/// What stands in place of the pieces that a write cuts, or `NoMemory`.
fn between(alloc: Global, front: Piece, bytes: &[u8], back: Piece) -> Result<Vec<Piece>, NoMemory>
    ensures { IfOk result (λ pieces. concat pieces.items ≡ front ++ (bytes.now ++ back)) }
{
    let mut pieces = Vec::with_capacity(alloc, 3)?;
    put(&mut pieces, front)?;
    put(&mut pieces, Piece::new(0, Vec::from_slice(alloc, bytes)?))?;
    put(&mut pieces, back)?;
    Ok(pieces)
}

/// Lets other pieces stand in place of those from an index up to another, or answers `NoMemory` and
/// leaves the pieces as they were.
fn replace(
    pieces: &mut Vec<Piece>,
    from: usize,
    to: usize,
    others: Vec<Piece>,
) -> Result<(), NoMemory>
    requires { (from ≤ to) × (to ≤ length pieces.old.items) }
    ensures ok { OnOk result (pieces.new.items ≡ splice pieces.old.items from to others.items) }
    ensures err { OnErr result (pieces.new.items ≡ pieces.old.items) }
{
    pieces.splice(from..to, others)?;
    Ok(())
}

/// Writes bytes at an offset, or answers `NoMemory` and leaves the pieces as they were.
pub fn write(
    alloc: Global,
    pieces: &mut Vec<Piece>,
    offset: u64,
    bytes: &[u8],
) -> Result<(), NoMemory>
    requires { offset + length bytes.now < 2 ^ 64 }
    ensures ok { OnOk result (concat pieces.new.items ≡ written offset bytes.now (concat pieces.old.items)) }
    ensures err { OnErr result (pieces.new.items ≡ pieces.old.items) }
{
    let front = before(alloc, pieces, offset)?;
    let from = front.index;
    let end = front.part.len() + bytes.len() as u64;
    let back = behind(alloc, &pieces[from..], end)?;
    let to = from + back.index;
    let others = between(alloc, front.part, bytes, back.part)?;
    replace(pieces, from, to, others)?;
    Ok(())
}

/// Keeps what lies before an offset.
pub fn cut(pieces: &mut Vec<Piece>, offset: u64)
    ensures { concat pieces.new.items ≡ take offset (concat pieces.old.items) }
{
    let place = place_of(pieces, offset);
    if place.index < pieces.len() {
        pieces.truncate(place.index + 1);
        pieces[place.index].cut(place.rest);
    }
}

/// Up to `count` bytes from an offset on, or `NoMemory`.
pub fn read(alloc: Global, pieces: &[Piece], offset: u64, count: usize) -> Result<Vec<u8>, NoMemory>
    ensures { IfOk result (λ bytes. bytes.items ≡ take count (drop offset (concat pieces.now))) }
{
    let mut bytes = Vec::with_capacity(alloc, count)?;
    let mut skip = offset;
    for piece in pieces {
        let room = count - bytes.len();
        piece.read(&mut bytes, skip, room)?;
        skip = skip.saturating_sub(piece.len());
    }
    Ok(bytes)
}

/// Equal pieces, or `NoMemory`.
pub fn copy(alloc: Global, pieces: &[Piece]) -> Result<Vec<Piece>, NoMemory>
    ensures { IfOk result (λ copies. copies.items ≡ pieces.now) }
{
    let mut copies = Vec::with_capacity(alloc, pieces.len())?;
    for piece in pieces {
        copies.push(piece.copy(alloc)?)?;
    }
    Ok(copies)
}
