//! One block of a live file, written where it lies or into a new place.

ghost use Rattle.std.specs.Prelude.{◌≡◌, ◌≢◌, ◌<◌, ◌≤◌, ◌+◌, ◌%◌, ◌/◌, length, true, false, Some, IfOk, OnOk, IfErr};
ghost use Rattle.pairs.specs.Versions.{HasLives, epoch, epoch_in};
ghost use Rattle.pairs.specs.Told.{Goes, Tells, GivesUp, PutGivesUp};
ghost use Rattle.extent_ops.specs.Marking.{as_marks};
ghost use Rattle.extent_ops.specs.Steps.{HasBlocks, Makes};
ghost use Rattle.extent_ops.specs.Blocks.{extent_key, extent_value, BornNow, LiesAt, PlacesNew, SetsBlock, IsPatched};
ghost use Rattle.extent_ops.specs.Ranges.{Writes};

use crate::loading::{BLOCK_SIZE, extent_key, find_block, load_block};
use crate::marks::Marks;
use fs_keys::Extent;
use nfs3_types::NoMemory;
use pair_types::{PairFault, Slot, Value};
use pairs::{At, Blocks, Pairs};
use std::alloc::Global;

/// The key at which the epoch lies.
const EPOCH_KEY: [u8; 1] = [1];

/// The epoch with which a value begins: its first eight bytes, and 0 where it is shorter.
fn epoch_of(bytes: &[u8]) -> u64
    ensures { result ≡ epoch_in (Some bytes.now) }
{
    if bytes.len() < 8 {
        return 0;
    }
    u64::from_be_bytes([
        bytes[0], bytes[1], bytes[2], bytes[3], bytes[4], bytes[5], bytes[6], bytes[7],
    ])
}

/// The epoch that a value tells, if there is one.
fn number_in(found: Option<Value>) -> u64
    ensures { result ≡ epoch_in found }
{
    match found {
        Some(value) => epoch_of(value.as_slice()),
        None => 0,
    }
}

/// The epoch.
fn epoch<P: Pairs>(pairs: &mut P) -> Result<u64, PairFault>
    ensures goes { Goes P.told pairs.old pairs.new 0 }
    ensures ok { IfOk result (λ now. Tells P.told pairs.old pairs.new (λ v. epoch v ≡ now)) }
    ensures fault { IfErr result (GivesUp P.told pairs.old pairs.new HasLives) }
{
    match pairs.get_at(&EPOCH_KEY, At::Live) {
        Ok(found) => Ok(number_in(found)),
        Err(fault) => Err(fault),
    }
}

/// Whether a birth is that of this epoch.
fn is_birth(found: Option<u64>, now: u64) -> bool
    ensures is { result ≡ true → found ≡ Some now }
    ensures not { result ≡ false → found ≢ Some now }
{
    match found {
        Some(birth) => birth == now,
        None => false,
    }
}

/// Whether the live extent at an index of a file was born in the epoch.
fn is_born_now<P: Pairs>(
    alloc: Global,
    pairs: &mut P,
    file: u64,
    index: u64,
) -> Result<bool, PairFault>
    ensures goes { Goes P.told pairs.old pairs.new 0 }
    ensures ok { IfOk result (λ now. Tells P.told pairs.old pairs.new
        (λ v. (now ≡ true → BornNow file index v) × (now ≡ false → BornNow file index v → ⊥))) }
    ensures fault { IfErr result (GivesUp P.told pairs.old pairs.new HasLives) }
{
    let key = match extent_key(alloc, file, index) {
        Ok(key) => key,
        Err(lack) => return Err(PairFault::from(lack)),
    };
    let found = match pairs.born(key.as_slice()) {
        Ok(found) => found,
        Err(fault) => return Err(fault),
    };
    match epoch(pairs) {
        Ok(now) => Ok(is_birth(found, now)),
        Err(fault) => Err(fault),
    }
}

/// The value of an extent's record.
fn extent_value(alloc: Global, extent: Extent) -> Result<Value, NoMemory>
    ensures is { IfOk result (λ value. value ≡ extent_value extent) }
    ensures short { IfOk result (λ value. length value ≤ 1200) }
{
    match fs_keys::extent_value(alloc, extent) {
        Ok(value) => Ok(value),
        Err(lack) => Err(lack),
    }
}

/// A new block at an index of a live file, and the extent that names it.
fn place_new<P: Blocks>(
    alloc: Global,
    pairs: &mut P,
    file: u64,
    marks: Marks,
    index: u64,
    block: &[u8],
) -> Result<(), PairFault>
    requires { length block.now ≤ 8192 }
    ensures goes { Goes P.told pairs.old pairs.new 1 }
    ensures ok { OnOk result (Makes P.told pairs.old pairs.new HasLives (PlacesNew file (as_marks marks) index block.now)) }
    ensures fault { IfErr result (PutGivesUp P.told pairs.old pairs.new HasLives) }
{
    let key = match extent_key(alloc, file, index) {
        Ok(key) => key,
        Err(lack) => return Err(PairFault::from(lack)),
    };
    let slot = match pairs.fresh_block(file, index) {
        Ok(slot) => slot,
        Err(fault) => return Err(fault),
    };
    let number = slot.number;
    let extent = Extent {
        number,
        stamp: marks.stamp,
    };
    let value = match extent_value(alloc, extent) {
        Ok(value) => value,
        Err(lack) => return Err(PairFault::from(lack)),
    };
    match pairs.write_block(slot, block) {
        Ok(()) => {}
        Err(fault) => return Err(fault),
    }
    match pairs.put(key.as_slice(), value.as_slice()) {
        Ok(()) => Ok(()),
        Err(fault) => Err(fault),
    }
}

/// Writes over a block of a live file where its extent was born in the epoch, and else puts a new one into its place.
fn set_over<P: Blocks>(
    alloc: Global,
    pairs: &mut P,
    file: u64,
    marks: Marks,
    index: u64,
    slot: Slot,
    block: &[u8],
) -> Result<(), PairFault>
    requires { length block.now ≤ 8192 }
    ensures goes { Goes P.told pairs.old pairs.new 1 }
    ensures ok { OnOk result (Makes P.told pairs.old pairs.new (LiesAt file (as_marks marks) index (Some slot))
        (SetsBlock file (as_marks marks) index block.now)) }
    ensures fault { IfErr result (PutGivesUp P.told pairs.old pairs.new (LiesAt file (as_marks marks) index (Some slot))) }
{
    let now = match is_born_now(alloc, pairs, file, index) {
        Ok(now) => now,
        Err(fault) => return Err(fault),
    };
    if now {
        match pairs.write_block(slot, block) {
            Ok(()) => Ok(()),
            Err(fault) => Err(fault),
        }
    } else {
        match place_new(alloc, pairs, file, marks, index, block) {
            Ok(()) => Ok(()),
            Err(fault) => Err(fault),
        }
    }
}

/// Writes a block of a live file, which lies here or has no place yet.
pub(crate) fn set_block<P: Blocks>(
    alloc: Global,
    pairs: &mut P,
    file: u64,
    marks: Marks,
    index: u64,
    slot: Option<Slot>,
    block: &[u8],
) -> Result<(), PairFault>
    requires { length block.now ≤ 8192 }
    ensures goes { Goes P.told pairs.old pairs.new 1 }
    ensures ok { OnOk result (Makes P.told pairs.old pairs.new (LiesAt file (as_marks marks) index slot)
        (SetsBlock file (as_marks marks) index block.now)) }
    ensures fault { IfErr result (PutGivesUp P.told pairs.old pairs.new (LiesAt file (as_marks marks) index slot)) }
{
    match slot {
        Some(slot) => match set_over(alloc, pairs, file, marks, index, slot, block) {
            Ok(()) => Ok(()),
            Err(fault) => Err(fault),
        },
        None => match place_new(alloc, pairs, file, marks, index, block) {
            Ok(()) => Ok(()),
            Err(fault) => Err(fault),
        },
    }
}

/// Writes a whole block, without reading it.
fn write_whole<P: Blocks>(
    alloc: Global,
    pairs: &mut P,
    file: u64,
    marks: Marks,
    offset: u64,
    block: &[u8],
) -> Result<(), PairFault>
    requires first { offset % 8192 ≡ 0 }
    requires whole { length block.now ≡ 8192 }
    ensures goes { Goes P.told pairs.old pairs.new 1 }
    ensures ok { OnOk result (Makes P.told pairs.old pairs.new HasBlocks (Writes file (as_marks marks) offset 8192 block.now)) }
    ensures fault { IfErr result (PutGivesUp P.told pairs.old pairs.new HasBlocks) }
{
    let index = offset / 8192;
    let slot = match find_block(alloc, pairs, At::Live, file, marks, index) {
        Ok(slot) => slot,
        Err(fault) => return Err(fault),
    };
    match set_block(alloc, pairs, file, marks, index, slot, block) {
        Ok(()) => Ok(()),
        Err(fault) => Err(fault),
    }
}

/// Puts bytes into a block, over those that it has there.
fn patch(block: &mut [u8], from: usize, part: &[u8])
    requires full { length block.old ≡ 8192 }
    requires within { from + length part.now ≤ 8192 }
    ensures { IsPatched block.old from part.now block.new }
{
    block[from..from + part.len()].copy_from_slice(part);
}

/// Writes bytes that lie in one block, which is read once.
fn write_within<P: Blocks>(
    alloc: Global,
    pairs: &mut P,
    file: u64,
    marks: Marks,
    offset: u64,
    part: &[u8],
) -> Result<(), PairFault>
    requires { offset % 8192 + length part.now ≤ 8192 }
    ensures goes { Goes P.told pairs.old pairs.new 1 }
    ensures ok { OnOk result (Makes P.told pairs.old pairs.new HasBlocks
        (Writes file (as_marks marks) offset (length part.now) part.now)) }
    ensures fault { IfErr result (PutGivesUp P.told pairs.old pairs.new HasBlocks) }
{
    let index = offset / 8192;
    let from = (offset % 8192) as usize;
    let loaded = match load_block(alloc, pairs, At::Live, file, marks, index) {
        Ok(loaded) => loaded,
        Err(fault) => return Err(fault),
    };
    let mut bytes = loaded.bytes;
    patch(&mut bytes, from, part);
    let count = loaded.count.max(from + part.len());
    match set_block(
        alloc,
        pairs,
        file,
        marks,
        index,
        loaded.slot,
        &bytes[..count],
    ) {
        Ok(()) => Ok(()),
        Err(fault) => Err(fault),
    }
}

/// Writes bytes of a live file that lie in one block.
pub(crate) fn write_part<P: Blocks>(
    alloc: Global,
    pairs: &mut P,
    file: u64,
    marks: Marks,
    offset: u64,
    part: &[u8],
) -> Result<(), PairFault>
    requires { offset % 8192 + length part.now ≤ 8192 }
    ensures goes { Goes P.told pairs.old pairs.new 1 }
    ensures ok { OnOk result (Makes P.told pairs.old pairs.new HasBlocks
        (Writes file (as_marks marks) offset (length part.now) part.now)) }
    ensures fault { IfErr result (PutGivesUp P.told pairs.old pairs.new HasBlocks) }
{
    if part.len() == BLOCK_SIZE {
        match write_whole(alloc, pairs, file, marks, offset, part) {
            Ok(()) => Ok(()),
            Err(fault) => Err(fault),
        }
    } else {
        match write_within(alloc, pairs, file, marks, offset, part) {
            Ok(()) => Ok(()),
            Err(fault) => Err(fault),
        }
    }
}
