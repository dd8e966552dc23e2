//! The entries of the directory `.snapshot`.

ghost use Rattle.std.specs.Prelude.{◌≡◌, ◌<◌, ◌+◌, ◌^◌, ◌++◌, ◌∷◌, [], map, OnOk, IfOk, IfErr, IfSome};
ghost use Rattle.fs_rules.specs.Places.{snapshot_entry};
ghost use Rattle.fs_rules.specs.Sound.{IsSound};
ghost use Rattle.pairs.specs.Told.{Goes};
ghost use Rattle.fs_keys.specs.declared.key_parts.KeyParts.TheVariants.{Snapshot};
ghost use Rattle.fs_keys.specs.Keys.{key_of as bytes_of};
ghost use Rattle.fs_shows.specs.Steps.{Reads, GivesUpOn};
ghost use Rattle.dir_ops.specs.Listing.{next_entry};
ghost use Rattle.snap_ops.specs.Listing.{number_of, number_at as number_in_key, SaysNext, NextFault};

use fs_keys::{KeyParts, key_of, parts_of};
use fs_rules::NameEntry;
use fs_rules::limits::{LONGEST_NAME, MOST_SNAPSHOTS};
use nfs3_types::{ListOf, NoMemory, Text, TextRef};
use pair_types::{Key, PairFault, Value};
use pairs::{At, Pairs};
use std::alloc::Global;

/// The number that a key says, if it is a snapshot's.
fn own_number(parts: &KeyParts<TextRef<'_>>) -> Option<u64>
    ensures { result ≡ number_of parts.now }
{
    match parts {
        KeyParts::Snapshot(number) => Some(*number),
        _ => None,
    }
}

/// The number of a key that is a snapshot's.
fn number_at(key: &[u8]) -> Option<u64>
    ensures is { result ≡ number_in_key key.now }
    ensures key { IfSome result (λ number. key.now ≡ bytes_of (Snapshot number)) }
    ensures fits { IfSome result (λ number. number < 2 ^ 64) }
{
    match parts_of(key) {
        Some(parts) => own_number(&parts),
        None => None,
    }
}

/// The entry that a record says, if it is a snapshot's.
fn entry_said(alloc: Global, key: &Key, value: &Value) -> Result<Option<NameEntry>, PairFault>
    ensures ok { IfOk result (SaysNext key.now value.now) }
    ensures fault { IfErr result (NextFault key.now value.now) }
{
    let number = match number_at(key.as_slice()) {
        Some(number) => number,
        None => return Ok(None),
    };
    let cookie = match number.checked_add(2) {
        Some(cookie) => cookie,
        None => return Err(PairFault::Odd),
    };
    let name = value.as_slice();
    if name.len() > LONGEST_NAME {
        return Err(PairFault::Odd);
    }
    match Text::from_slice(alloc, name) {
        Ok(name) => Ok(Some(NameEntry {
            cookie,
            name,
            fileid: number,
        })),
        Err(fault) => Err(PairFault::from(fault)),
    }
}

/// The first snapshot behind a number.
pub fn first_behind<P: Pairs>(
    alloc: Global,
    pairs: &mut P,
    number: u64,
) -> Result<Option<NameEntry>, PairFault>
    ensures goes { Goes P.told pairs.old pairs.new 0 }
    ensures ok { IfOk result (λ found. Reads P.told pairs.old pairs.new IsSound
        (λ t. next_entry (number + 2) (map snapshot_entry t.snapshots) ≡ found)) }
    ensures fault { IfErr result (GivesUpOn P.told pairs.old pairs.new IsSound) }
{
    let after = match key_of(alloc, &KeyParts::Snapshot(number)) {
        Ok(after) => after,
        Err(fault) => return Err(PairFault::from(fault)),
    };
    let found = match pairs.next_at(after.as_slice(), At::Live) {
        Ok(found) => found,
        Err(fault) => return Err(fault),
    };
    match found {
        Some(pair) => entry_said(alloc, &pair.0, &pair.1),
        None => Ok(None),
    }
}

/// One entry more.
fn push_entry(entries: &mut Vec<NameEntry>, e: NameEntry) -> Result<(), NoMemory>
    ensures { OnOk result (entries.new.items ≡ entries.old.items ++ e ∷ []) }
{
    entries.push(e)?;
    Ok(())
}

/// The entries of the directory `.snapshot`, by rising number. It takes memory for no more than the most snapshots.
#[tactic(none)]
pub fn snapshots<P: Pairs>(alloc: Global, pairs: &mut P) -> Result<ListOf<NameEntry>, PairFault>
    ensures goes { Goes P.told pairs.old pairs.new 0 }
    ensures ok { IfOk result (λ entries. Reads P.told pairs.old pairs.new IsSound
        (λ t. map snapshot_entry t.snapshots ≡ entries)) }
    ensures fault { IfErr result (GivesUpOn P.told pairs.old pairs.new IsSound) }
{
    let mut told = Vec::new(alloc);
    let mut last = 0;
    'entries: loop {
        let next = match first_behind(alloc, pairs, last) {
            Ok(next) => next,
            Err(fault) => return Err(fault),
        };
        let e = match next {
            Some(e) => e,
            None => return Ok(ListOf::from_vec(told)),
        };
        if told.len() >= MOST_SNAPSHOTS {
            return Err(PairFault::Odd);
        }
        last = e.fileid;
        match push_entry(&mut told, e) {
            Ok(()) => {}
            Err(fault) => return Err(PairFault::from(fault)),
        }
    }
}
