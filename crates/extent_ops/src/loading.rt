//! Blocks of a file, found and read.

ghost use Rattle.std.specs.Prelude.{◌≡◌, ◌<◌, ◌≤◌, length, replicate, option_map, option_and_then, IfOk, IfErr};
ghost use Rattle.pairs.specs.Versions.{HasLives};
ghost use Rattle.pairs.specs.Told.{Goes, Tells, GivesUp};
ghost use Rattle.fs_keys.specs.Values.{extent_in};
ghost use Rattle.fs_shows.specs.Extents.{slot_of, counted, block_slot};
ghost use Rattle.extent_ops.specs.Marking.{as_marks};
ghost use Rattle.extent_ops.specs.Blocks.{extent_key, FilledFrom, IsLoaded};

use crate::marks::Marks;
use fs_keys::{KeyParts, extent_of, key_of};
use nfs3_types::NoMemory;
use pair_types::{Key, PairFault, Slot, Value};
use pairs::{At, Blocks, store_for};
use std::alloc::Global;

/// The most bytes that a block has.
pub(crate) const BLOCK_SIZE: usize = 8192;

/// The key of the extent at an index of a file.
pub(crate) fn extent_key(alloc: Global, file: u64, index: u64) -> Result<Key, NoMemory>
    ensures is { IfOk result (λ key. key ≡ extent_key file index) }
    ensures short { IfOk result (λ key. length key ≤ 264) }
{
    match key_of(alloc, &KeyParts::Extent { file, index }) {
        Ok(key) => Ok(key),
        Err(lack) => Err(lack),
    }
}

/// Where the block lies that the value of an extent's record names, if the extent counts.
fn slot_in(stores: u32, file: u64, marks: Marks, index: u64, found: Option<Value>) -> Option<Slot>
    requires { 0 < stores }
    ensures { result ≡ option_map (slot_of stores file index)
        (counted (as_marks marks) index (option_and_then extent_in found)) }
{
    let value = found?;
    let extent = extent_of(value.as_slice())?;
    if index < marks.floor || extent.stamp == marks.stamp {
        let store = store_for(file, index, stores);
        return Some(Slot {
            store,
            number: extent.number,
        });
    }
    None
}

/// Where the block lies that a view shows at an index of a file.
pub(crate) fn find_block<P: Blocks>(
    alloc: Global,
    pairs: &mut P,
    at: At,
    file: u64,
    marks: Marks,
    index: u64,
) -> Result<Option<Slot>, PairFault>
    ensures goes { Goes P.told pairs.old pairs.new 0 }
    ensures ok { IfOk result (λ found. Tells P.told pairs.old pairs.new
        (λ v. block_slot v at file (as_marks marks) index ≡ found)) }
    ensures fault { IfErr result (GivesUp P.told pairs.old pairs.new HasLives) }
{
    let key = match extent_key(alloc, file, index) {
        Ok(key) => key,
        Err(lack) => return Err(PairFault::from(lack)),
    };
    let found = match pairs.get_at(key.as_slice(), at) {
        Ok(found) => found,
        Err(fault) => return Err(fault),
    };
    let stores = pairs.stores();
    Ok(slot_in(stores, file, marks, index, found))
}

/// Puts the first bytes of a block into a room, if there is a block, and answers how many they are.
fn fill_from<P: Blocks>(
    pairs: &mut P,
    slot: Option<Slot>,
    room: &mut [u8],
) -> Result<usize, PairFault>
    ensures goes { Goes P.told pairs.old pairs.new 0 }
    ensures within { IfOk result (λ n. n ≤ length room.new) }
    ensures ok { IfOk result (λ n. Tells P.told pairs.old pairs.new (FilledFrom slot room.old room.new n)) }
    ensures fault { IfErr result (GivesUp P.told pairs.old pairs.new HasLives) }
{
    match slot {
        None => Ok(0),
        Some(s) => match pairs.read_block(s, room) {
            Ok(n) => Ok(n),
            Err(fault) => Err(fault),
        },
    }
}

/// A room of zeros, for one block.
fn empty_room(alloc: Global) -> Result<Vec<u8>, NoMemory>
    ensures { IfOk result (λ room. room.items ≡ replicate 8192 0) }
{
    Ok(vec![in alloc; 0u8; BLOCK_SIZE]?)
}

/// A block that was read.
#[derive(Drop)]
pub(crate) struct Loaded {
    /// Where it lies, if there is one.
    pub(crate) slot: Option<Slot>,
    /// Its bytes, and zeros behind them.
    pub(crate) bytes: Vec<u8>,
    /// How many bytes it has.
    pub(crate) count: usize,
}

/// The block that a view shows at an index of a file.
pub(crate) fn load_block<P: Blocks>(
    alloc: Global,
    pairs: &mut P,
    at: At,
    file: u64,
    marks: Marks,
    index: u64,
) -> Result<Loaded, PairFault>
    ensures goes { Goes P.told pairs.old pairs.new 0 }
    ensures full { IfOk result (λ b. length b.bytes.items ≡ 8192) }
    ensures few { IfOk result (λ b. b.count ≤ 8192) }
    ensures ok { IfOk result (λ b. Tells P.told pairs.old pairs.new
        (IsLoaded at file (as_marks marks) index b.slot b.bytes.items b.count)) }
    ensures fault { IfErr result (GivesUp P.told pairs.old pairs.new HasLives) }
{
    let mut bytes = match empty_room(alloc) {
        Ok(bytes) => bytes,
        Err(lack) => return Err(PairFault::from(lack)),
    };
    let slot = match find_block(alloc, pairs, at, file, marks, index) {
        Ok(slot) => slot,
        Err(fault) => return Err(fault),
    };
    match fill_from(pairs, slot, &mut bytes) {
        Ok(count) => Ok(Loaded { slot, bytes, count }),
        Err(fault) => Err(fault),
    }
}
