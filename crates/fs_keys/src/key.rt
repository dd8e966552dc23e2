//! Keys, as bytes.

ghost use Rattle.std.specs.Prelude.{◌≡◌, ◌==◌, ◌&&◌, nat_le, ◌∷◌, ◌++◌, length, drop, IfOk};
ghost use Rattle.byteorder.specs.Endian.{big_bytes};
ghost use Rattle.fs_keys.specs.Keys.{HasBounds};
ghost use Rattle.fs_keys.specs.Keys.{key_of as bytes_of, parts_of as parts_in, only, said, rows, first_number, second_number};

use crate::key_parts::KeyParts;
use byteorder::{BigEndian, ByteOrder};
use nfs3_types::{NoMemory, TextRef};
use pair_types::Key;
use std::alloc::Global;

/// A row's number, a number behind it, and more bytes.
fn row_of(alloc: Global, row: u8, number: u64, more: &[u8]) -> Result<Vec<u8>, NoMemory>
    ensures { IfOk result (λ key. key.items ≡ row ∷ (big_bytes 8 number ++ more.now)) }
{
    let mut key = Vec::with_capacity(alloc, 9 + more.len())?;
    key.push(row)?;
    key.extend_from_slice(&number.to_be_bytes())?;
    key.extend_from_slice(more)?;
    Ok(key)
}

/// The key of these parts.
pub fn key_of(alloc: Global, parts: &KeyParts<TextRef<'_>>) -> Result<Key, NoMemory>
    requires { HasBounds parts.now }
    ensures { IfOk result (λ key. key ≡ bytes_of parts.now) }
{
    let key = match parts {
        KeyParts::First => Vec::from_slice(alloc, &[1])?,
        KeyParts::Lane(lane) => Vec::from_slice(alloc, &[2, *lane])?,
        KeyParts::Snapshot(number) => row_of(alloc, 3, *number, &[])?,
        KeyParts::Inode(id) => row_of(alloc, 4, *id, &[])?,
        KeyParts::Name { directory, name } => row_of(alloc, 5, *directory, name.as_slice())?,
        KeyParts::Cookie { directory, cookie } => {
            row_of(alloc, 6, *directory, &cookie.to_be_bytes())?
        }
        KeyParts::Extent { file, index } => row_of(alloc, 7, *file, &index.to_be_bytes())?,
        KeyParts::Stale(file) => row_of(alloc, 8, *file, &[])?,
        KeyParts::Times => Vec::from_slice(alloc, &[9])?,
    };
    Ok(Key::from_vec(key))
}

/// The number behind a row's number, where there is exactly one.
fn one_number(rest: &[u8]) -> Option<u64>
    ensures { result ≡ only (length rest.now == 8) (first_number rest.now) }
{
    if rest.len() != 8 {
        return None;
    }
    Some(BigEndian::read_u64(&rest[..8]))
}

/// The two numbers behind a row's number, where there are exactly two.
fn two_numbers(rest: &[u8]) -> Option<(u64, u64)>
    ensures { result ≡ only (length rest.now == 16) (first_number rest.now, second_number rest.now) }
{
    if rest.len() != 16 {
        return None;
    }
    Some((
        BigEndian::read_u64(&rest[..8]),
        BigEndian::read_u64(&rest[8..]),
    ))
}

/// The number and the name behind a row's number, where the name has at most 255 bytes.
fn number_and_name(rest: &[u8]) -> Option<(u64, TextRef<'_>)>
    ensures { result ≡ only (nat_le 8 (length rest.now) && nat_le (length rest.now) 263)
        (first_number rest.now, drop 8 rest.now) }
{
    if rest.len() < 8 || rest.len() > 263 {
        return None;
    }
    let name = TextRef::new(&rest[8..]);
    Some((BigEndian::read_u64(&rest[..8]), name))
}

/// What the key of a row says, from the bytes behind the row's number.
fn parts_behind(row: u8, rest: &[u8]) -> Option<KeyParts<TextRef<'_>>>
    ensures { result ≡ said row (rows rest.now) }
{
    match row {
        1 if rest.is_empty() => Some(KeyParts::First),
        2 if rest.len() == 1 => Some(KeyParts::Lane(rest[0])),
        3 => Some(KeyParts::Snapshot(one_number(rest)?)),
        4 => Some(KeyParts::Inode(one_number(rest)?)),
        5 => {
            let (directory, name) = number_and_name(rest)?;
            Some(KeyParts::Name { directory, name })
        }
        6 => {
            let (directory, cookie) = two_numbers(rest)?;
            Some(KeyParts::Cookie { directory, cookie })
        }
        7 => {
            let (file, index) = two_numbers(rest)?;
            Some(KeyParts::Extent { file, index })
        }
        8 => Some(KeyParts::Stale(one_number(rest)?)),
        9 if rest.is_empty() => Some(KeyParts::Times),
        _ => None,
    }
}

/// What a key says: `None` exactly outside of the table of keys. A name is lent. It takes no memory.
pub fn parts_of(key: &[u8]) -> Option<KeyParts<TextRef<'_>>>
    ensures { result ≡ parts_in key.now }
{
    match key {
        [] => None,
        [row, rest @ ..] => parts_behind(*row, rest),
    }
}
