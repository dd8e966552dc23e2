//! Rows of records with a common front and a number, one after another.

ghost use Rattle.std.specs.Prelude.{◌≡◌, ◌≢◌, ◌<◌, ◌≤◌, ◌^◌, ◌∷◌, ◌++◌, ⊤, ℕ, List, [], length, IfOk, OnOk, IfErr, IfSome, None};
ghost use Rattle.std.specs.Prelude.{true, false};
ghost use Rattle.byteorder.specs.Endian.{big_bytes};
ghost use Rattle.pairs.specs.Versions.{HasLives};
ghost use Rattle.fs_rules.specs.Sound.{IsSound};
ghost use Rattle.pairs.specs.Told.{Goes, Tells, GivesUp};
ghost use Rattle.fs_shows.specs.Steps.{Reads, GivesUpOn};
ghost use Rattle.sweeper.specs.Rows.{extent_front, numbered, tail, HasNumbers, NextIn};
ghost use Rattle.sweeper.specs.Knowing.{AreKept};

use byteorder::{BigEndian, ByteOrder};
use fs_rules::limits::MOST_SNAPSHOTS;
use nfs3_types::NoMemory;
use pair_types::{PairFault, Value};
use pairs::{At, Pairs};
use std::alloc::Global;

/// What all keys of a file's extents begin with.
pub(crate) fn extent_front(alloc: Global, file: u64) -> Result<Vec<u8>, NoMemory>
    ensures { IfOk result (λ front. front.items ≡ extent_front file) }
{
    let mut front = Vec::with_capacity(alloc, 9)?;
    front.push(7)?;
    front.extend_from_slice(&file.to_be_bytes())?;
    Ok(front)
}

/// The key behind which those lie that come after a number, or all.
fn behind(alloc: Global, front: &[u8], after: Option<u64>) -> Result<Vec<u8>, NoMemory>
    ensures { IfOk result (λ key. key.items ≡ front.now ++ tail after) }
{
    let mut key = Vec::from_slice(alloc, front)?;
    match after {
        Some(number) => key.extend_from_slice(&number.to_be_bytes())?,
        None => {}
    }
    Ok(key)
}

/// Whether a text begins with this front.
fn begins(front: &[u8], key: &[u8]) -> bool
    ensures some { result ≡ true → (rest : List ℕ) × (key.now ≡ front.now ++ rest) }
    ensures none { result ≡ false → (rest : List ℕ) → key.now ≢ front.now ++ rest }
{
    key.starts_with(front)
}

/// The number of a key that has this front and a number behind it.
fn number_in(front: &[u8], key: &[u8]) -> Option<u64>
    ensures some { IfSome result (λ n. key.now ≡ numbered front.now n) }
    ensures fits { IfSome result (λ n. n < 2 ^ 64) }
    ensures none { result ≡ None → (rest : List ℕ) → key.now ≡ front.now ++ rest → length rest ≢ 8 }
{
    if key.len() != front.len() + 8 {
        return None;
    }
    if !begins(front, key) {
        return None;
    }
    Some(BigEndian::read_u64(&key[front.len()..]))
}

/// The first number behind one, or of all, that the live view has behind a front, with its value.
#[tactic(none)]
pub(crate) fn next_in<P: Pairs>(
    alloc: Global,
    pairs: &mut P,
    front: &[u8],
    after: Option<u64>,
) -> Result<Option<(u64, Value)>, PairFault>
    ensures goes { Goes P.told pairs.old pairs.new 0 }
    ensures ok { IfOk result (λ found. Tells P.told pairs.old pairs.new
        (λ v. HasNumbers front.now v → NextIn front.now after found v)) }
    ensures fault { IfErr result (GivesUp P.told pairs.old pairs.new HasLives) }
{
    let key = match behind(alloc, front, after) {
        Ok(key) => key,
        Err(lack) => return Err(PairFault::from(lack)),
    };
    let found = match pairs.next_at(key.as_slice(), At::Live) {
        Ok(found) => found,
        Err(fault) => return Err(fault),
    };
    let pair = match found {
        Some(pair) => pair,
        None => return Ok(None),
    };
    match number_in(front, pair.0.as_slice()) {
        Some(number) => Ok(Some((number, pair.1))),
        None => Ok(None),
    }
}

/// One number more.
fn push_number(kept: &mut Vec<u64>, number: u64) -> Result<(), NoMemory>
    ensures { OnOk result (kept.new.items ≡ kept.old.items ++ number ∷ []) }
{
    kept.push(number)?;
    Ok(())
}

/// The numbers of the snapshots that are kept. It takes memory for no more than the most snapshots: no sound tree has more.
#[tactic(none)]
pub(crate) fn kept_numbers<P: Pairs>(alloc: Global, pairs: &mut P) -> Result<Vec<u64>, PairFault>
    ensures goes { Goes P.told pairs.old pairs.new 0 }
    ensures ok { IfOk result (λ kept. Reads P.told pairs.old pairs.new (λ t. ⊤) (AreKept kept.items)) }
    ensures fault { IfErr result (GivesUpOn P.told pairs.old pairs.new IsSound) }
{
    let mut kept = Vec::new(alloc);
    let mut after = None;
    'numbers: loop {
        let found = match next_in(alloc, pairs, &[3], after) {
            Ok(found) => found,
            Err(fault) => return Err(fault),
        };
        let number = match found {
            Some(pair) => pair.0,
            None => return Ok(kept),
        };
        if kept.len() >= MOST_SNAPSHOTS {
            return Err(PairFault::Odd);
        }
        after = Some(number);
        match push_number(&mut kept, number) {
            Ok(()) => {}
            Err(lack) => return Err(PairFault::from(lack)),
        }
    }
}
