//! A node moves: the edits of RENAME, in the order of the table.

ghost use Rattle.std.specs.Prelude.{◌≤◌, length, OnOk, IfErr};
ghost use Rattle.fs_rules.specs.Edits.{edit_node};
ghost use Rattle.fs_rules.specs.Limits.{longest_name};
ghost use Rattle.fs_rules.specs.Removing.{remove_file as file_removed, drop_directory as directory_removed};
ghost use Rattle.fs_rules.specs.Renaming as table;
ghost use Rattle.pairs.specs.Told.{Goes};
ghost use Rattle.fs_shows.specs.Steps.{Edits, EditGivesUp};
ghost use Rattle.fs_shows.specs.Views.{IsThere};
ghost use Rattle.procs_rename.specs.Moving.{CanTakeOut, CanReplace, CanRelink, CanRename, CanClear, CanMove, cleared, renamed};

use dir_ops::{add, drop_directory, drop_name};
use fs_rules::{RenamePlan, Replaced};
use inode_ops::{add_link, drop_link, forget, lose_name, move_to, set_ctime};
use nfs3_types::{FileType, Moment, RenameArgs, Text};
use pair_types::PairFault;
use pairs::Pairs;
use std::alloc::Global;

/// A file loses a name, as by REMOVE.
fn remove_file<P: Pairs>(
    alloc: Global,
    pairs: &mut P,
    directory: u64,
    name: &[u8],
    fileid: u64,
    now: Moment,
) -> Result<(), PairFault>
    requires { length name.now ≤ longest_name }
    ensures goes { Goes P.told pairs.old pairs.new 2 }
    ensures ok { OnOk result (Edits P.told pairs.old pairs.new (CanTakeOut directory name.now fileid)
        (file_removed now directory name.now fileid)) }
    ensures fault { IfErr result (EditGivesUp P.told pairs.old pairs.new (CanTakeOut directory name.now fileid)) }
{
    match lose_name(alloc, pairs, fileid, now) {
        Ok(()) => {}
        Err(fault) => return Err(fault),
    }
    drop_name(alloc, pairs, directory, name, now)
}

/// A directory goes, as by RMDIR.
fn remove_directory<P: Pairs>(
    alloc: Global,
    pairs: &mut P,
    directory: u64,
    name: &[u8],
    fileid: u64,
    now: Moment,
) -> Result<(), PairFault>
    requires { length name.now ≤ longest_name }
    ensures goes { Goes P.told pairs.old pairs.new 2 }
    ensures ok { OnOk result (Edits P.told pairs.old pairs.new (CanTakeOut directory name.now fileid)
        (directory_removed now directory name.now fileid)) }
    ensures fault { IfErr result (EditGivesUp P.told pairs.old pairs.new (CanTakeOut directory name.now fileid)) }
{
    match forget(alloc, pairs, fileid) {
        Ok(()) => {}
        Err(fault) => return Err(fault),
    }
    drop_directory(alloc, pairs, directory, name, now)
}

/// What has the new name goes, as by REMOVE or RMDIR.
fn replace<P: Pairs>(
    alloc: Global,
    pairs: &mut P,
    to: u64,
    name: &[u8],
    replaced: Option<Replaced>,
    now: Moment,
) -> Result<(), PairFault>
    requires { length name.now ≤ longest_name }
    ensures goes { Goes P.told pairs.old pairs.new 2 }
    ensures ok { OnOk result (Edits P.told pairs.old pairs.new (CanReplace to name.now replaced)
        (table.replace now to name.now replaced)) }
    ensures fault { IfErr result (EditGivesUp P.told pairs.old pairs.new (CanReplace to name.now replaced)) }
{
    match replaced {
        Some(r) => {
            if r.is_directory {
                remove_directory(alloc, pairs, to, name, r.fileid, now)
            } else {
                remove_file(alloc, pairs, to, name, r.fileid, now)
            }
        }
        None => Ok(()),
    }
}

/// A directory that moves leaves its parent's links and joins the other's.
fn relink<P: Pairs>(alloc: Global, pairs: &mut P, plan: &RenamePlan) -> Result<(), PairFault>
    ensures goes { Goes P.told pairs.old pairs.new 2 }
    ensures ok { OnOk result (Edits P.told pairs.old pairs.new (CanRelink plan.now) (table.relink plan.now)) }
    ensures fault { IfErr result (EditGivesUp P.told pairs.old pairs.new (CanRelink plan.now)) }
{
    if !plan.reparents {
        return Ok(());
    }
    match drop_link(alloc, pairs, plan.from) {
        Ok(()) => {}
        Err(fault) => return Err(fault),
    }
    add_link(alloc, pairs, plan.to)
}

/// What has the new name goes, and links are those of the move.
fn clear<P: Pairs>(
    alloc: Global,
    pairs: &mut P,
    plan: &RenamePlan,
    name: &[u8],
    now: Moment,
) -> Result<(), PairFault>
    requires { length name.now ≤ longest_name }
    ensures goes { Goes P.told pairs.old pairs.new 4 }
    ensures ok { OnOk result (Edits P.told pairs.old pairs.new (CanClear now name.now plan.now) (cleared now name.now plan.now)) }
    ensures fault { IfErr result (EditGivesUp P.told pairs.old pairs.new (CanClear now name.now plan.now)) }
{
    match replace(alloc, pairs, plan.to, name, plan.replaced, now) {
        Ok(()) => {}
        Err(fault) => return Err(fault),
    }
    relink(alloc, pairs, plan)
}

/// One directory loses the old name, and the other gains the new one, or it is one directory.
fn rename_entry<P: Pairs>(
    alloc: Global,
    pairs: &mut P,
    a: &RenameArgs<Text>,
    plan: &RenamePlan,
    now: Moment,
) -> Result<(), PairFault>
    requires old { length a.now.from.name ≤ longest_name }
    requires new { length a.now.to.name ≤ longest_name }
    ensures goes { Goes P.told pairs.old pairs.new 4 }
    ensures ok { OnOk result (Edits P.told pairs.old pairs.new (CanRename now a.now plan.now) (renamed now a.now plan.now)) }
    ensures fault { IfErr result (EditGivesUp P.told pairs.old pairs.new (CanRename now a.now plan.now)) }
{
    match drop_name(alloc, pairs, plan.from, a.from.name.as_slice(), now) {
        Ok(()) => {}
        Err(fault) => return Err(fault),
    }
    add(
        alloc,
        pairs,
        plan.to,
        a.to.name.as_slice(),
        FileType::Reg,
        plan.fileid,
        now,
    )
}

/// The node's attributes are others now, and a directory that moves stands in the other one.
fn renew<P: Pairs>(
    alloc: Global,
    pairs: &mut P,
    plan: &RenamePlan,
    now: Moment,
) -> Result<(), PairFault>
    ensures goes { Goes P.told pairs.old pairs.new 1 }
    ensures ok { OnOk result (Edits P.told pairs.old pairs.new (IsThere plan.now.fileid)
        (edit_node plan.now.fileid (table.renew plan.now now))) }
    ensures fault { IfErr result (EditGivesUp P.told pairs.old pairs.new (IsThere plan.now.fileid)) }
{
    if plan.reparents {
        move_to(alloc, pairs, plan.fileid, plan.to, now)
    } else {
        set_ctime(alloc, pairs, plan.fileid, now)
    }
}

/// A node moves from one name to another.
pub fn move_node<P: Pairs>(
    alloc: Global,
    pairs: &mut P,
    a: &RenameArgs<Text>,
    plan: &RenamePlan,
    now: Moment,
) -> Result<(), PairFault>
    requires old { length a.now.from.name ≤ longest_name }
    requires new { length a.now.to.name ≤ longest_name }
    ensures goes { Goes P.told pairs.old pairs.new 9 }
    ensures ok { OnOk result (Edits P.told pairs.old pairs.new (CanMove a.now plan.now) (table.move_node now a.now plan.now)) }
    ensures fault { IfErr result (EditGivesUp P.told pairs.old pairs.new (CanMove a.now plan.now)) }
{
    match clear(alloc, pairs, plan, a.to.name.as_slice(), now) {
        Ok(()) => {}
        Err(fault) => return Err(fault),
    }
    match rename_entry(alloc, pairs, a, plan, now) {
        Ok(()) => {}
        Err(fault) => return Err(fault),
    }
    renew(alloc, pairs, plan, now)
}
