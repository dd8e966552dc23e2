//! Scans of a list of records.

ghost use Rattle.std.specs.Prelude.{◌≡◌, ◌≤◌, ◌<◌, ◌&&◌, length, IfOk, IfSome};
ghost use Rattle.std.specs.Str.{bytes_eq};
ghost use Rattle.pairs.specs.Lives.{Life, sees, seen, born, is_spent, life_of, lives_of};
ghost use Rattle.pairs.specs.Versions.{epoch_in, epoch_key};
ghost use Rattle.pairs.specs.declared.at.At.TheVariants.{Live};
ghost use Rattle.pairs.specs.Found.{Follows};
ghost use Rattle.mem_pairs.specs.Scans.{FirstOf, IsLess, Least, Steps, Tell, is_behind, is_from};

use crate::row::Row;
use nfs3_types::NoMemory;
use pair_types::{Key, Value};
use pairs::At;
use std::alloc::Global;

/// The key at which the epoch lies.
const EPOCH_KEY: [u8; 1] = [1];

/// Where the first record of a key lies that a view sees.
pub(crate) fn first_seen(rows: &[Row], key: &[u8], at: At) -> Option<usize>
    ensures first { FirstOf (sees at) key.now rows.now result }
    ensures within { IfSome result (λ place. place < length rows.now) }
{
    for (i, row) in rows.iter().enumerate() {
        if row.is_of(key) && row.is_seen(at) {
            return Some(i);
        }
    }
    None
}

/// The value of a key in a view.
pub(crate) fn get(
    alloc: Global,
    rows: &[Row],
    key: &[u8],
    at: At,
) -> Result<Option<Value>, NoMemory>
    ensures ok { IfOk result (λ found. seen at (lives_of rows.now key.now) ≡ found) }
    ensures few { IfOk result (λ found. IfSome found (λ value. length value ≤ 1200)) }
{
    let Some(place) = first_seen(rows, key, at) else {
        return Ok(None);
    };
    let row = &rows[place];
    let value = Value::from_slice(alloc, row.value())?;
    Ok(Some(value))
}

/// The birth of the live value of a key.
pub(crate) fn birth(rows: &[Row], key: &[u8]) -> Option<u64>
    ensures { born (lives_of rows.now key.now) ≡ result }
{
    let Some(place) = first_seen(rows, key, At::Live) else {
        return None;
    };
    let row = &rows[place];
    Some(row.birth())
}

/// The epoch with which a value begins: its first eight bytes, and 0 where it is shorter.
fn first_number(bytes: &[u8]) -> u64
    ensures { result ≡ epoch_in (Some bytes.now) }
{
    if bytes.len() < 8 {
        return 0;
    }
    u64::from_be_bytes([
        bytes[0], bytes[1], bytes[2], bytes[3], bytes[4], bytes[5], bytes[6], bytes[7],
    ])
}

/// The epoch.
pub(crate) fn epoch(rows: &[Row]) -> u64
    ensures { epoch_in (seen Live (lives_of rows.now epoch_key)) ≡ result }
{
    let Some(place) = first_seen(rows, &EPOCH_KEY, At::Live) else {
        return 0;
    };
    let row = &rows[place];
    first_number(row.value())
}

/// Whether a record has a lesser key than the least one so far.
fn is_less(rows: &[Row], i: usize, best: Option<usize>) -> bool
    requires within { i < length rows.now }
    requires best { IfSome best (λ j. j < length rows.now) }
    ensures { IsLess rows.now i best result }
{
    let Some(j) = best else {
        return true;
    };
    let row = &rows[i];
    let least = &rows[j];
    row.key().cmp(least.key()).is_lt()
}

/// The least of the records so far and the next one, if it passes.
fn lesser(rows: &[Row], i: usize, passes: bool, best: Option<usize>) -> Option<usize>
    requires within { i < length rows.now }
    requires best { IfSome best (λ j. j < length rows.now) }
    ensures { Steps rows.now i passes best result }
{
    if passes && is_less(rows, i, best) {
        return Some(i);
    }
    best
}

/// Whether a record has a key behind one, and a view sees it.
fn is_next(row: &Row, after: &[u8], at: At) -> bool
    ensures { result ≡ (is_behind after.now row.now.key && sees at (life_of row.now)) }
{
    after.cmp(row.key()).is_lt() && row.is_seen(at)
}

/// Whether a record has a key from one on, is dead, and is seen by none of these numbers.
fn is_due(row: &Row, kept: &[u64], from: &[u8]) -> bool
    ensures { result ≡ (is_from from.now row.now.key && is_spent kept.now (life_of row.now)) }
{
    from.cmp(row.key()).is_le() && row.is_spent(kept)
}

/// Where the first record lies that a view sees, of the least key behind one that has such a record.
fn next_place(rows: &[Row], after: &[u8], at: At) -> Option<usize>
    ensures least { Least (sees at) (is_behind after.now) rows.now result }
    ensures within { IfSome result (λ place. place < length rows.now) }
{
    let mut best = None;
    for (i, row) in rows.iter().enumerate() {
        best = lesser(rows, i, is_next(row, after, at), best);
    }
    best
}

/// The first key behind one that a view has, with its value.
pub(crate) fn next(
    alloc: Global,
    rows: &[Row],
    after: &[u8],
    at: At,
) -> Result<Option<(Key, Value)>, NoMemory>
    ensures ok { IfOk result (λ found. Tell rows.now (Follows at after.now found)) }
    ensures few { IfOk result (λ found. IfSome found (λ pair. (length pair.0 ≤ 264) × (length pair.1 ≤ 1200))) }
{
    let Some(place) = next_place(rows, after, at) else {
        return Ok(None);
    };
    let row = &rows[place];
    let key = Key::from_slice(alloc, row.key())?;
    let value = Value::from_slice(alloc, row.value())?;
    Ok(Some((key, value)))
}

/// Where the first record lies that is dead and that none of these numbers sees, of the least key from one on that has
/// such a record.
pub(crate) fn spent_place(rows: &[Row], kept: &[u64], from: &[u8]) -> Option<usize>
    ensures least { Least (is_spent kept.now) (is_from from.now) rows.now result }
    ensures within { IfSome result (λ place. place < length rows.now) }
{
    let mut best = None;
    for (i, row) in rows.iter().enumerate() {
        best = lesser(rows, i, is_due(row, kept, from), best);
    }
    best
}
