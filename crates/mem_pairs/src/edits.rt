//! Edits of a list of records.

ghost use Rattle.std.specs.Prelude.{◌≡◌, ◌≤◌, ◌<◌, List, ℕ, length, is_some, OnOk};
ghost use Rattle.pair_types.specs.declared.quad.Quad.{Quad};
ghost use Rattle.pairs.specs.declared.at.At.TheVariants.{Live};
ghost use Rattle.pairs.specs.Lives.{sees, born, put_life, del_life, lives_of};
ghost use Rattle.mem_pairs.specs.Scans.{IsFirstOf, Edits, Changes};
ghost use Rattle.mem_pairs.specs.Purging.{Purges};

use crate::row::Row;
use crate::scans::{first_seen, spent_place};
use nfs3_types::NoMemory;
use pair_types::{Quad, Value};
use pairs::At;
use std::alloc::Global;

/// The record at a place is seen no more from an epoch on.
fn end_at(rows: &mut Vec<Row>, place: usize, epoch: u64)
    requires { place < length rows.old.items }
    ensures { Changes place (λ row. record row { death = epoch }) rows.old.items rows.new.items }
{
    let row = &mut rows[place];
    row.end(epoch);
}

/// The record at a place carries another value.
fn replace_at(rows: &mut Vec<Row>, place: usize, value: Value)
    requires within { place < length rows.old.items }
    requires few { length value ≤ 1200 }
    ensures { Changes place (λ row. record row { value = value }) rows.old.items rows.new.items }
{
    let row = &mut rows[place];
    row.replace(value);
}

/// A value is put at a key, whose live record lies at a place: a record that was born in the epoch carries it from now
/// on, an older one ends, and one of the value comes right behind it.
fn put_at(
    alloc: Global,
    rows: &mut Vec<Row>,
    place: usize,
    epoch: u64,
    key: &[u8],
    value: &[u8],
) -> Result<(), NoMemory>
    requires first { IsFirstOf (sees Live) key.now rows.old.items place }
    requires within { place < length rows.old.items }
    requires key { length key.now ≤ 264 }
    requires value { length value.now ≤ 1200 }
    ensures { OnOk result (Edits key.now (put_life epoch value.now) rows.old.items rows.new.items) }
{
    let live = &rows[place];
    let is_new = live.birth() == epoch;
    if is_new {
        let value = Value::from_slice(alloc, value)?;
        replace_at(rows, place, value);
        return Ok(());
    }
    let next = Row::born(alloc, epoch, key, value)?;
    rows.insert(place + 1, next)?;
    end_at(rows, place, epoch);
    Ok(())
}

/// A value is put at a key, as of an epoch.
pub(crate) fn put(
    alloc: Global,
    rows: &mut Vec<Row>,
    epoch: u64,
    key: &[u8],
    value: &[u8],
) -> Result<(), NoMemory>
    requires key { length key.now ≤ 264 }
    requires value { length value.now ≤ 1200 }
    ensures { OnOk result (Edits key.now (put_life epoch value.now) rows.old.items rows.new.items) }
{
    if let Some(place) = first_seen(rows, key, At::Live) {
        return put_at(alloc, rows, place, epoch, key, value);
    }
    let row = Row::born(alloc, epoch, key, value)?;
    rows.push(row)?;
    Ok(())
}

/// The value of a key ends, as of an epoch, whose live record lies at a place: one that was born in the epoch goes.
fn del_at(rows: &mut Vec<Row>, place: usize, epoch: u64)
    requires { place < length rows.old.items }
    ensures { (key : List ℕ) → IsFirstOf (sees Live) key rows.old.items place
        → Edits key (del_life epoch) rows.old.items rows.new.items }
{
    let row = &rows[place];
    if row.birth() == epoch {
        rows.remove(place);
        return;
    }
    end_at(rows, place, epoch);
}

/// The value of a key ends, as of an epoch: whether there was one.
pub(crate) fn del(rows: &mut Vec<Row>, epoch: u64, key: &[u8]) -> bool
    ensures edits { Edits key.now (del_life epoch) rows.old.items rows.new.items }
    ensures was { is_some (born (lives_of rows.old.items key.now)) ≡ result }
{
    let Some(place) = first_seen(rows, key, At::Live) else {
        return false;
    };
    del_at(rows, place, epoch);
    true
}

/// Takes away the first record, of keys from one on, that is dead and that none of these numbers sees.
pub(crate) fn purge(rows: &mut Vec<Row>, kept: &[u64], from: &[u8]) -> Option<Quad>
    ensures { Purges kept.now from.now result rows.old.items rows.new.items }
{
    let Some(place) = spent_place(rows, kept, from) else {
        return None;
    };
    let row = rows.remove(place);
    Some(row.into_quad())
}
