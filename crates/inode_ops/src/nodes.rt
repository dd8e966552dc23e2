//! Nodes that are made, and nodes that go.

ghost use Rattle.std.specs.Prelude.{◌≤◌, length, OnOk, IfErr};
ghost use Rattle.fs_rules.specs.Edits.{add_node, drop_node};
ghost use Rattle.fs_rules.specs.Limits.{longest_target};
ghost use Rattle.fs_rules.specs.Removing.{lose_name as without_name};
ghost use Rattle.fs_rules.specs.Tree.{Node};
ghost use Rattle.pairs.specs.Told.{Goes};
ghost use Rattle.fs_shows.specs.Files.{IsNew, IsUngiven, MayGo};
ghost use Rattle.fs_shows.specs.Steps.{Edits, EditGivesUp};
ghost use Rattle.inode_ops.specs.Losing.{MayLose};

use crate::change::Change;
use crate::edits::revise;
use crate::inodes::{load_live, save};
use crate::rows::{del_row, put_row};
use fs_keys::{Inode, KeyParts};
use nfs3_types::Moment;
use pair_types::PairFault;
use pairs::Pairs;
use std::alloc::Global;

/// A new node, whose number was not given yet: it is to be given behind this.
pub fn make<P: Pairs>(alloc: Global, pairs: &mut P, id: u64, inode: &Inode) -> Result<(), PairFault>
    requires { length inode.now.target ≤ longest_target }
    ensures goes { Goes P.told pairs.old pairs.new 1 }
    ensures ok { OnOk result ((n : Node) → IsNew inode.now n → Edits P.told pairs.old pairs.new (IsUngiven id) (add_node id n)) }
    ensures fault { IfErr result (EditGivesUp P.told pairs.old pairs.new (IsUngiven id)) }
{
    save(alloc, pairs, id, inode)
}

/// A live node goes: its blocks are left, and its number is noted as one that has stale ones.
pub fn forget<P: Pairs>(alloc: Global, pairs: &mut P, id: u64) -> Result<(), PairFault>
    ensures goes { Goes P.told pairs.old pairs.new 1 }
    ensures ok { OnOk result (Edits P.told pairs.old pairs.new (MayGo id) (drop_node id)) }
    ensures fault { IfErr result (EditGivesUp P.told pairs.old pairs.new (MayGo id)) }
{
    match put_row(alloc, pairs, &KeyParts::Stale(id), &[]) {
        Ok(()) => {}
        Err(fault) => return Err(fault),
    }
    del_row(alloc, pairs, &KeyParts::Inode(id))
}

/// A live file loses one of its names, and goes with its last.
pub fn lose_name<P: Pairs>(
    alloc: Global,
    pairs: &mut P,
    id: u64,
    now: Moment,
) -> Result<(), PairFault>
    ensures goes { Goes P.told pairs.old pairs.new 1 }
    ensures ok { OnOk result (Edits P.told pairs.old pairs.new (MayLose id) (without_name now id)) }
    ensures fault { IfErr result (EditGivesUp P.told pairs.old pairs.new (MayLose id)) }
{
    let inode = match load_live(alloc, pairs, id) {
        Ok(inode) => inode,
        Err(fault) => return Err(fault),
    };
    if inode.head.kept.nlink > 1 {
        revise(alloc, pairs, id, &Change::Unlink(now))
    } else {
        forget(alloc, pairs, id)
    }
}
