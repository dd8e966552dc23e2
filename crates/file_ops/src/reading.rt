//! Ranges of a file's bytes.

ghost use Rattle.std.specs.Prelude.{◌≡◌, ◌-◌, ◌<◌, ◌^◌, min, take, drop, length, IfOk, IfErr};
ghost use Rattle.fs_rules.specs.Places.{content_at};
ghost use Rattle.pairs.specs.Told.{Goes};
ghost use Rattle.fs_shows.specs.Views.{place_in};
ghost use Rattle.fs_shows.specs.Steps.{Reads, GivesUpOn};
ghost use Rattle.file_ops.specs.Given.{HasFile};

use extent_ops::{Marks, read};
use inode_ops::load;
use nfs3_types::{NoMemory, Text};
use pair_types::PairFault;
use pairs::{At, Blocks};
use std::alloc::Global;

/// A room of zeros for what a file of this size has of a range.
fn room_for(alloc: Global, size: u64, offset: u64, count: u32) -> Result<Vec<u8>, NoMemory>
    ensures size { size < 2 ^ 64 }
    ensures long { IfOk result (λ room. length room.items ≡ min count (size - offset)) }
{
    let there = size.saturating_sub(offset);
    let len = (count as u64).min(there) as usize;
    Ok(vec![in alloc; 0u8; len]?)
}

/// What a file of a view has of the bytes from an offset on, at most so many.
pub fn read_at<P: Blocks>(
    alloc: Global,
    pairs: &mut P,
    at: At,
    id: u64,
    offset: u64,
    count: u32,
) -> Result<Text, PairFault>
    ensures goes { Goes P.told pairs.old pairs.new 0 }
    ensures ok { IfOk result (λ text. Reads P.told pairs.old pairs.new (HasFile at id)
        (λ t. text ≡ take count (drop offset (content_at t (place_in at id))))) }
    ensures fault { IfErr result (GivesUpOn P.told pairs.old pairs.new (HasFile at id)) }
{
    let found = match load(alloc, pairs, at, id) {
        Ok(found) => found,
        Err(fault) => return Err(fault),
    };
    let inode = match found {
        Some(inode) => inode,
        None => return Err(PairFault::Odd),
    };
    let size = inode.head.size;
    let mut room = match room_for(alloc, size, offset, count) {
        Ok(room) => room,
        Err(lack) => return Err(PairFault::from(lack)),
    };
    let marks = Marks::of(&inode.head);
    match read(alloc, pairs, at, id, marks, offset, &mut room) {
        Ok(()) => Ok(Text::from_vec(room)),
        Err(fault) => Err(fault),
    }
}
