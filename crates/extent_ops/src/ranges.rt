//! Ranges of a file's bytes.

ghost use Rattle.std.specs.Prelude.{◌<◌, ◌≤◌, ◌+◌, ◌%◌, ◌^◌, length, OnOk, IfErr};
ghost use Rattle.pairs.specs.Versions.{HasLives};
ghost use Rattle.pairs.specs.Told.{Goes, Tells, GivesUp, PutGivesUp};
ghost use Rattle.extent_ops.specs.Marking.{as_marks};
ghost use Rattle.extent_ops.specs.Steps.{HasBlocks, Makes};
ghost use Rattle.extent_ops.specs.Ranges.{ReadsBytes, Writes, blocks_in};

use crate::loading::load_block;
use crate::marks::Marks;
use crate::placing::write_part;
use pair_types::PairFault;
use pairs::{At, Blocks};
use std::alloc::Global;

/// Reads bytes that lie in one block.
fn read_part<P: Blocks>(
    alloc: Global,
    pairs: &mut P,
    at: At,
    file: u64,
    marks: Marks,
    offset: u64,
    room: &mut [u8],
) -> Result<(), PairFault>
    requires { offset % 8192 + length room.old ≤ 8192 }
    ensures goes { Goes P.told pairs.old pairs.new 0 }
    ensures ok { OnOk result (Tells P.told pairs.old pairs.new
        (ReadsBytes at file (as_marks marks) offset (length room.old) room.new)) }
    ensures fault { IfErr result (GivesUp P.told pairs.old pairs.new HasLives) }
{
    let loaded = match load_block(alloc, pairs, at, file, marks, offset / 8192) {
        Ok(loaded) => loaded,
        Err(fault) => return Err(fault),
    };
    let from = (offset % 8192) as usize;
    let bytes = loaded.bytes.as_slice();
    room.copy_from_slice(&bytes[from..from + room.len()]);
    Ok(())
}

/// Reads the bytes of a file that a view shows from an offset on, as many as there is room for: zeros where it has no block,
/// and behind the bytes of a shorter one. Only blocks of this range are read. After a fault the room may have any bytes.
pub fn read<P: Blocks>(
    alloc: Global,
    pairs: &mut P,
    at: At,
    file: u64,
    marks: Marks,
    offset: u64,
    room: &mut [u8],
) -> Result<(), PairFault>
    requires { offset + length room.old ≤ 2 ^ 64 }
    ensures goes { Goes P.told pairs.old pairs.new 0 }
    ensures ok { OnOk result (Tells P.told pairs.old pairs.new
        (ReadsBytes at file (as_marks marks) offset (length room.new) room.new)) }
    ensures fault { IfErr result (GivesUp P.told pairs.old pairs.new HasLives) }
{
    let mut done = 0;
    while done < room.len() {
        let place = offset + done as u64;
        let len = (8192 - (place % 8192) as usize).min(room.len() - done);
        let part = &mut room[done..done + len];
        match read_part(alloc, pairs, at, file, marks, place, part) {
            Ok(()) => done += len,
            Err(fault) => return Err(fault),
        }
    }
    Ok(())
}

/// Writes bytes of a live file from an offset on, with the file's marks. A block of which a part is written is read once, a
/// whole one is not. An extent that was born in the epoch and counts is written where it lies; any other gets a new block,
/// in the store where it belongs, and the file's stamp. The inode stays: its size is the caller's to save.
pub fn write<P: Blocks>(
    alloc: Global,
    pairs: &mut P,
    file: u64,
    marks: Marks,
    offset: u64,
    content: &[u8],
) -> Result<(), PairFault>
    requires { offset + length content.now ≤ 2 ^ 64 }
    ensures goes { Goes P.told pairs.old pairs.new (blocks_in offset (length content.now)) }
    ensures ok { OnOk result (Makes P.told pairs.old pairs.new HasBlocks
        (Writes file (as_marks marks) offset (length content.now) content.now)) }
    ensures fault { IfErr result (PutGivesUp P.told pairs.old pairs.new HasBlocks) }
{
    let mut done = 0;
    while done < content.len() {
        let place = offset + done as u64;
        let from = (place % 8192) as usize;
        let len = (8192 - from).min(content.len() - done);
        let part = &content[done..done + len];
        match write_part(alloc, pairs, file, marks, place, part) {
            Ok(()) => done += len,
            Err(fault) => return Err(fault),
        }
    }
    Ok(())
}
