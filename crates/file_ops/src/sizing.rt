//! The size of a live file, as it is set.

ghost use Rattle.std.specs.Prelude.{◌≡◌, ◌+◌, ◌<◌, ◌≤◌, ◌^◌, IfOk, IfErr, IfSome, IfNone};
ghost use Rattle.pairs.specs.Told.{Goes};
ghost use Rattle.fs_shows.specs.Steps.{EditGivesUp};
ghost use Rattle.file_ops.specs.Given.{MaySize};
ghost use Rattle.file_ops.specs.Heads.{cut as cut_to};
ghost use Rattle.file_ops.specs.Sizes.{SizesOrWaits};

use extent_ops::{Marks, cut};
use fs_keys::{Head, Inode};
use fs_rules::Inode as Kept;
use inode_ops::{load_live, save};
use pair_types::PairFault;
use pairs::Blocks;
use std::alloc::Global;

/// The head of a file that is cut to a size; `None` where its number of cuts would not fit.
fn cut_head(head: &Head, size: u64) -> Option<Head>
    ensures some { IfSome result (λ after. after ≡ cut_to size head.now) }
    ensures none { IfNone result (2 ^ 64 ≤ head.now.kept.cuts + 1) }
{
    let kept = Kept {
        cuts: head.kept.cuts.checked_add(1)?,
        ..head.kept
    };
    let whole = size / 8192;
    let floor = if size % 8192 == 0 { whole } else { whole + 1 };
    Some(Head { kept, size, floor })
}

/// A live file gets a size: it is cut, or filled up with zeros. `false`, and nothing is changed, where it would be cut and a
/// sweep of its stale extents has to come first.
pub fn set_size<P: Blocks>(
    alloc: Global,
    pairs: &mut P,
    id: u64,
    size: u64,
) -> Result<bool, PairFault>
    ensures goes { Goes P.told pairs.old pairs.new 3 }
    ensures ok { IfOk result (SizesOrWaits P.told pairs.old pairs.new id size) }
    ensures fault { IfErr result (EditGivesUp P.told pairs.old pairs.new (MaySize id)) }
{
    let inode = match load_live(alloc, pairs, id) {
        Ok(inode) => inode,
        Err(fault) => return Err(fault),
    };
    if inode.head.size <= size {
        let head = Head { size, ..inode.head };
        let target = inode.target;
        match save(alloc, pairs, id, &Inode { head, target }) {
            Ok(()) => Ok(true),
            Err(fault) => Err(fault),
        }
    } else {
        let head = match cut_head(&inode.head, size) {
            Some(head) => head,
            None => return Err(PairFault::Odd),
        };
        let marks = Marks::of(&inode.head);
        let is_cut = match cut(alloc, pairs, id, marks, size) {
            Ok(is_cut) => is_cut,
            Err(fault) => return Err(fault),
        };
        if is_cut {
            let target = inode.target;
            match save(alloc, pairs, id, &Inode { head, target }) {
                Ok(()) => Ok(true),
                Err(fault) => Err(fault),
            }
        } else {
            Ok(false)
        }
    }
}
