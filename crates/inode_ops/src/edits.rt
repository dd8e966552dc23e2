//! Edits of what is kept of a live file beside its content and its names: each loads the inode, changes it and saves it.

ghost use Rattle.std.specs.Prelude.{OnOk, IfErr};
ghost use Rattle.fs_rules.specs.Edits.{edit_node, touch as touched, set_ctime as with_ctime, add_link as with_link};
ghost use Rattle.fs_rules.specs.Edits.{drop_link as without_link, set_parent, set_attributes};
ghost use Rattle.pairs.specs.Told.{Goes};
ghost use Rattle.fs_shows.specs.Views.{IsThere};
ghost use Rattle.fs_shows.specs.Steps.{Edits, EditGivesUp};
ghost use Rattle.inode_ops.specs.Changes.{edited_by, Allows, HasLinkLeft};

use crate::change::{Change, changed};
use crate::inodes::{load_live, save};
use fs_keys::{Head, Inode};
use nfs3_types::{Fattr, Moment};
use pair_types::PairFault;
use pairs::Pairs;
use std::alloc::Global;

/// A live file is changed.
pub(crate) fn revise<P: Pairs>(
    alloc: Global,
    pairs: &mut P,
    id: u64,
    change: &Change,
) -> Result<(), PairFault>
    ensures goes { Goes P.told pairs.old pairs.new 1 }
    ensures ok { OnOk result (Edits P.told pairs.old pairs.new (Allows id change.now) (edit_node id (edited_by change.now))) }
    ensures fault { IfErr result (EditGivesUp P.told pairs.old pairs.new (Allows id change.now)) }
{
    let inode = match load_live(alloc, pairs, id) {
        Ok(inode) => inode,
        Err(fault) => return Err(fault),
    };
    let kept = match changed(change, inode.head.kept) {
        Some(kept) => kept,
        None => return Err(PairFault::Odd),
    };
    let head = Head { kept, ..inode.head };
    let after = Inode {
        head,
        target: inode.target,
    };
    save(alloc, pairs, id, &after)
}

/// The content or the names of a live node are others now.
pub fn touch<P: Pairs>(alloc: Global, pairs: &mut P, id: u64, now: Moment) -> Result<(), PairFault>
    ensures goes { Goes P.told pairs.old pairs.new 1 }
    ensures ok { OnOk result (Edits P.told pairs.old pairs.new (IsThere id) (edit_node id (touched now))) }
    ensures fault { IfErr result (EditGivesUp P.told pairs.old pairs.new (IsThere id)) }
{
    revise(alloc, pairs, id, &Change::Touch(now))
}

/// The attributes of a live node are others now.
pub fn set_ctime<P: Pairs>(
    alloc: Global,
    pairs: &mut P,
    id: u64,
    now: Moment,
) -> Result<(), PairFault>
    ensures goes { Goes P.told pairs.old pairs.new 1 }
    ensures ok { OnOk result (Edits P.told pairs.old pairs.new (IsThere id) (edit_node id (with_ctime now))) }
    ensures fault { IfErr result (EditGivesUp P.told pairs.old pairs.new (IsThere id)) }
{
    revise(alloc, pairs, id, &Change::SetCtime(now))
}

/// A live directory has a subdirectory more.
pub fn add_link<P: Pairs>(alloc: Global, pairs: &mut P, id: u64) -> Result<(), PairFault>
    ensures goes { Goes P.told pairs.old pairs.new 1 }
    ensures ok { OnOk result (Edits P.told pairs.old pairs.new (HasLinkLeft id) (edit_node id with_link)) }
    ensures fault { IfErr result (EditGivesUp P.told pairs.old pairs.new (HasLinkLeft id)) }
{
    revise(alloc, pairs, id, &Change::AddLink)
}

/// A live directory has a subdirectory less.
pub fn drop_link<P: Pairs>(alloc: Global, pairs: &mut P, id: u64) -> Result<(), PairFault>
    ensures goes { Goes P.told pairs.old pairs.new 1 }
    ensures ok { OnOk result (Edits P.told pairs.old pairs.new (IsThere id) (edit_node id without_link)) }
    ensures fault { IfErr result (EditGivesUp P.told pairs.old pairs.new (IsThere id)) }
{
    revise(alloc, pairs, id, &Change::DropLink)
}

/// A live file has a name more.
pub fn link<P: Pairs>(alloc: Global, pairs: &mut P, id: u64, now: Moment) -> Result<(), PairFault>
    ensures goes { Goes P.told pairs.old pairs.new 1 }
    ensures ok { OnOk result (Edits P.told pairs.old pairs.new (HasLinkLeft id)
        (edit_node id (λ n. with_ctime now (with_link n)))) }
    ensures fault { IfErr result (EditGivesUp P.told pairs.old pairs.new (HasLinkLeft id)) }
{
    revise(alloc, pairs, id, &Change::Link(now))
}

/// A live directory stands in another one.
pub fn move_to<P: Pairs>(
    alloc: Global,
    pairs: &mut P,
    id: u64,
    parent: u64,
    now: Moment,
) -> Result<(), PairFault>
    ensures goes { Goes P.told pairs.old pairs.new 1 }
    ensures ok { OnOk result (Edits P.told pairs.old pairs.new (IsThere id)
        (edit_node id (λ n. with_ctime now (set_parent parent n)))) }
    ensures fault { IfErr result (EditGivesUp P.told pairs.old pairs.new (IsThere id)) }
{
    revise(alloc, pairs, id, &Change::MoveTo(parent, now))
}

/// The attributes of a live node are set, but for a size.
pub fn describe<P: Pairs>(
    alloc: Global,
    pairs: &mut P,
    id: u64,
    attributes: &Fattr,
) -> Result<(), PairFault>
    ensures goes { Goes P.told pairs.old pairs.new 1 }
    ensures ok { OnOk result (Edits P.told pairs.old pairs.new (IsThere id) (edit_node id (set_attributes attributes.now))) }
    ensures fault { IfErr result (EditGivesUp P.told pairs.old pairs.new (IsThere id)) }
{
    revise(alloc, pairs, id, &Change::Describe(*attributes))
}
