//! Files that are cut.

ghost use Rattle.std.specs.Prelude.{◌≡◌, ◌≤◌, [], IfOk, OnOk, IfErr, is_some, length};
ghost use Rattle.pairs.specs.Versions.{HasLives, with_put};
ghost use Rattle.pairs.specs.Told.{Goes, Tells, Moves, GivesUp, PutGivesUp};
ghost use Rattle.pairs.specs.declared.at.At.TheVariants.{Live};
ghost use Rattle.fs_keys.specs.declared.key_parts.KeyParts.TheVariants.{Stale as StaleKey};
ghost use Rattle.fs_shows.specs.Extents.{row};
ghost use Rattle.extent_ops.specs.Marking.{as_marks};
ghost use Rattle.extent_ops.specs.Steps.{HasBlocks, Makes};
ghost use Rattle.extent_ops.specs.Cuts.{stale_key, floor_of, Sweeps, Trims, CutsOrWaits};

use crate::loading::load_block;
use crate::marks::Marks;
use crate::placing::set_block;
use fs_keys::{KeyParts, key_of};
use nfs3_types::NoMemory;
use pair_types::{Key, PairFault};
use pairs::{At, Blocks, Pairs};
use std::alloc::Global;

/// The key of the record that marks a file as one that may have stale extents.
fn stale_key(alloc: Global, file: u64) -> Result<Key, NoMemory>
    ensures is { IfOk result (λ key. key ≡ stale_key file) }
    ensures short { IfOk result (λ key. length key ≤ 264) }
{
    match key_of(alloc, &KeyParts::Stale(file)) {
        Ok(key) => Ok(key),
        Err(lack) => Err(lack),
    }
}

/// Whether a live file is marked so.
fn is_stale<P: Pairs>(alloc: Global, pairs: &mut P, file: u64) -> Result<bool, PairFault>
    ensures goes { Goes P.told pairs.old pairs.new 0 }
    ensures ok { IfOk result (λ stale. Tells P.told pairs.old pairs.new (λ v. is_some (row v Live (StaleKey file)) ≡ stale)) }
    ensures fault { IfErr result (GivesUp P.told pairs.old pairs.new HasLives) }
{
    let key = match stale_key(alloc, file) {
        Ok(key) => key,
        Err(lack) => return Err(PairFault::from(lack)),
    };
    match pairs.get_at(key.as_slice(), At::Live) {
        Ok(found) => Ok(found.is_some()),
        Err(fault) => Err(fault),
    }
}

/// Marks a live file so.
fn mark_stale<P: Pairs>(alloc: Global, pairs: &mut P, file: u64) -> Result<(), PairFault>
    ensures goes { Goes P.told pairs.old pairs.new 1 }
    ensures ok { OnOk result (Moves P.told pairs.old pairs.new HasLives (with_put (stale_key file) [])) }
    ensures fault { IfErr result (PutGivesUp P.told pairs.old pairs.new HasLives) }
{
    let key = match stale_key(alloc, file) {
        Ok(key) => key,
        Err(lack) => return Err(PairFault::from(lack)),
    };
    match pairs.put(key.as_slice(), &[]) {
        Ok(()) => Ok(()),
        Err(fault) => Err(fault),
    }
}

/// In how many blocks bytes lie below a size.
fn floor_of(size: u64) -> u64
    ensures { result ≡ floor_of size }
{
    if size % 8192 == 0 {
        size / 8192
    } else {
        size / 8192 + 1
    }
}

/// Whether a sweep of the file is to come before a cut.
fn needs_sweep<P: Pairs>(
    alloc: Global,
    pairs: &mut P,
    file: u64,
    marks: Marks,
    size: u64,
) -> Result<bool, PairFault>
    ensures goes { Goes P.told pairs.old pairs.new 0 }
    ensures ok { IfOk result (λ first. Tells P.told pairs.old pairs.new (Sweeps file (as_marks marks) size first)) }
    ensures fault { IfErr result (GivesUp P.told pairs.old pairs.new HasLives) }
{
    if floor_of(size) <= marks.floor {
        return Ok(false);
    }
    match is_stale(alloc, pairs, file) {
        Ok(stale) => Ok(stale),
        Err(fault) => Err(fault),
    }
}

/// Ends the last block below the new floor at the size, if it has bytes behind it.
fn trim<P: Blocks>(
    alloc: Global,
    pairs: &mut P,
    file: u64,
    marks: Marks,
    size: u64,
) -> Result<(), PairFault>
    ensures goes { Goes P.told pairs.old pairs.new 1 }
    ensures ok { OnOk result (Makes P.told pairs.old pairs.new HasBlocks (Trims file (as_marks marks) size)) }
    ensures fault { IfErr result (PutGivesUp P.told pairs.old pairs.new HasBlocks) }
{
    let from = (size % 8192) as usize;
    if from == 0 {
        return Ok(());
    }
    let index = size / 8192;
    let loaded = match load_block(alloc, pairs, At::Live, file, marks, index) {
        Ok(loaded) => loaded,
        Err(fault) => return Err(fault),
    };
    if loaded.count <= from {
        return Ok(());
    }
    match set_block(
        alloc,
        pairs,
        file,
        marks,
        index,
        loaded.slot,
        &loaded.bytes[..from],
    ) {
        Ok(()) => Ok(()),
        Err(fault) => Err(fault),
    }
}

/// Cuts a live file to a size, with its marks; the caller then saves the inode with the marks behind the cut: a stamp that is
/// one more, and the size in blocks as floor. These show the bytes below the size and zeros from there on, also when the file
/// grows again. It costs the same whatever the size: one block is read at most, and two records are put.
///
/// `false`, and nothing is written, where stale extents may remain and the floor would rise: a sweep of the file comes first.
pub fn cut<P: Blocks>(
    alloc: Global,
    pairs: &mut P,
    file: u64,
    marks: Marks,
    size: u64,
) -> Result<bool, PairFault>
    ensures goes { Goes P.told pairs.old pairs.new 2 }
    ensures ok { IfOk result (CutsOrWaits P.told pairs.old pairs.new file (as_marks marks) size) }
    ensures fault { IfErr result (PutGivesUp P.told pairs.old pairs.new HasBlocks) }
{
    let first = match needs_sweep(alloc, pairs, file, marks, size) {
        Ok(first) => first,
        Err(fault) => return Err(fault),
    };
    if first {
        return Ok(false);
    }
    match trim(alloc, pairs, file, marks, size) {
        Ok(()) => {}
        Err(fault) => return Err(fault),
    }
    match mark_stale(alloc, pairs, file) {
        Ok(()) => Ok(true),
        Err(fault) => Err(fault),
    }
}
