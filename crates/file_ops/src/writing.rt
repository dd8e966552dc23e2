//! Bytes that are written into a live file.

ghost use Rattle.std.specs.Prelude.{◌≡◌, ◌+◌, ◌<◌, ◌^◌, length, OnOk, IfErr};
ghost use Rattle.fs_rules.specs.Edits.{edit_node, write_at as written_at};
ghost use Rattle.pairs.specs.Told.{Goes};
ghost use Rattle.extent_ops.specs.Ranges.{blocks_in};
ghost use Rattle.fs_shows.specs.Steps.{Edits, EditGivesUp};
ghost use Rattle.file_ops.specs.Given.{MayFill};
ghost use Rattle.file_ops.specs.Heads.{filled};

use extent_ops::{Marks, write};
use fs_keys::{Head, Inode};
use fs_rules::Inode as Kept;
use inode_ops::{load_live, save};
use nfs3_types::Moment;
use pair_types::PairFault;
use pairs::Blocks;
use std::alloc::Global;

/// The head of a file that was written up to this end.
fn filled(head: &Head, end: u64, now: Moment) -> Head
    ensures { result ≡ filled end now head.now }
{
    let kept = Kept {
        mtime: now,
        ctime: now,
        ..head.kept
    };
    Head {
        kept,
        size: head.size.max(end),
        floor: head.floor,
    }
}

/// Bytes are written into a live file at an offset, with zeros before them where the file was shorter. A write of no bytes
/// changes nothing.
pub fn write_at<P: Blocks>(
    alloc: Global,
    pairs: &mut P,
    id: u64,
    offset: u64,
    content: &[u8],
    now: Moment,
) -> Result<(), PairFault>
    requires { offset + length content.now < 2 ^ 64 }
    ensures goes { Goes P.told pairs.old pairs.new (blocks_in offset (length content.now) + 1) }
    ensures ok { OnOk result (Edits P.told pairs.old pairs.new (MayFill id) (edit_node id (written_at offset content.now now))) }
    ensures fault { IfErr result (EditGivesUp P.told pairs.old pairs.new (MayFill id)) }
{
    if content.is_empty() {
        return Ok(());
    }
    let inode = match load_live(alloc, pairs, id) {
        Ok(inode) => inode,
        Err(fault) => return Err(fault),
    };
    let marks = Marks::of(&inode.head);
    match write(alloc, pairs, id, marks, offset, content) {
        Ok(()) => {}
        Err(fault) => return Err(fault),
    }
    let head = filled(&inode.head, offset + content.len() as u64, now);
    let after = Inode {
        head,
        target: inode.target,
    };
    save(alloc, pairs, id, &after)
}
