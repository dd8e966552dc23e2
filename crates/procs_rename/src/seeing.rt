//! What RENAME sees: what both handles lead to, and both names.

ghost use Rattle.std.specs.Prelude.{ℕ, ◌≡◌, ◌≤◌, ◌||◌, true, length, IfOk, IfErr, IfSome, OnOk};
ghost use Rattle.fs_rules.specs.Attributes.{is_directory as is_directory_kind};
ghost use Rattle.fs_rules.specs.Checks as checks;
ghost use Rattle.fs_rules.specs.Checks.{Check};
ghost use Rattle.fs_rules.specs.Limits.{longest_name};
ghost use Rattle.fs_rules.specs.Names as names;
ghost use Rattle.fs_rules.specs.Places.{entry_at};
ghost use Rattle.fs_rules.specs.Renaming.{Renaming, rename_plan, target_at};
ghost use Rattle.fs_rules.specs.Tree.{Tree};
ghost use Rattle.fs_rules.specs.declared.place.Place.TheVariants.{Live as LivePlace};
ghost use Rattle.pairs.specs.Told.{Goes};
ghost use Rattle.fs_shows.specs.Steps.{Reads, GivesUpOn};
ghost use Rattle.procs_object.specs.Finding.{IsLed, CheckedOn};
ghost use Rattle.procs_rename.specs.Seeing.{Gathers, found_as, behind_ends, then_check, AreOpen, AreEnds, source_at, IsNamed};
ghost use Rattle.procs_rename.specs.Seeing.{IsSeen, IsOpen};

use dir_ops::look_up;
use fs_rules::checks::{
    is_dots, is_live, is_snapshots_name, may_alter, need, need_good_name, refuse_if,
};
use fs_shows::Halt;
use nfs3_types::{Cred, FileType, RenameArgs, Status, Text};
use pair_types::PairFault;
use pairs::{At, Pairs};
use procs_object::{Found, find_child, see};
use std::alloc::Global;

/// What both handles lead to.
#[derive(Drop)]
pub(crate) struct Ends {
    /// The directory of the old name.
    pub(crate) from: Found,
    /// The directory of the new name.
    pub(crate) to: Found,
}

/// What both handles lead to, and both names.
#[derive(Drop)]
pub(crate) struct Seen {
    /// The directory of the old name.
    pub(crate) from: Found,
    /// The directory of the new name.
    pub(crate) to: Found,
    /// What has the old name.
    pub(crate) source: Found,
    /// What has the new name.
    pub(crate) target: Option<Found>,
}

// ---- checks

/// Whether it is a directory.
pub(crate) fn is_directory(x: &Found) -> bool
    ensures { result ≡ is_directory_kind x.now.inode.head.kept.kind }
{
    x.inode.head.kept.kind == FileType::Dir
}

/// The checks of both directories and both names.
#[tactic(auto, unfolding(crate::specs::Seeing::behind_ends))]
fn check_ends(cred: &Cred, a: &RenameArgs<Text>, from: &Found, to: &Found) -> Result<(), Status>
    ensures check { (m n : ℕ) (rest : Check Renaming) → behind_ends cred.now a.now (found_as m from.now) (found_as n to.now) rest
        ≡ then_check result rest }
    ensures open { OnOk result (AreOpen a.now from.now to.now) }
{
    let old = a.from.name.as_slice();
    let new = a.to.name.as_slice();
    need(is_directory(from), Status::NotDir)?;
    need(is_directory(to), Status::NotDir)?;
    need(is_live(from.place), Status::Rofs)?;
    need(is_live(to.place), Status::Rofs)?;
    need_good_name(old)?;
    need_good_name(new)?;
    refuse_if(is_dots(old) || is_dots(new), Status::Inval)?;
    refuse_if(
        is_snapshots_name(from.place, old) || is_snapshots_name(to.place, new),
        Status::Acces,
    )?;
    need(may_alter(cred, &from.inode.head.kept), Status::Acces)?;
    need(may_alter(cred, &to.inode.head.kept), Status::Acces)?;
    Ok(())
}

// ---- reads

/// What both handles lead to: live directories, and own names for them.
fn find_ends<P: Pairs>(
    alloc: Global,
    pairs: &mut P,
    cred: &Cred,
    a: &RenameArgs<Text>,
) -> Result<Ends, Halt>
    ensures goes { Goes P.told pairs.old pairs.new 0 }
    ensures sees { Gathers P.told pairs.old pairs.new (AreEnds cred.now a.now) (λ t. rename_plan t cred.now a.now) result }
    ensures open { IfOk result (λ x. AreOpen a.now x.from x.to) }
{
    let from = match see(alloc, pairs, a.from.directory.as_slice()) {
        Ok(from) => from,
        Err(halt) => return Err(halt),
    };
    let to = match see(alloc, pairs, a.to.directory.as_slice()) {
        Ok(to) => to,
        Err(halt) => return Err(halt),
    };
    match check_ends(cred, a, &from, &to) {
        Ok(()) => Ok(Ends { from, to }),
        Err(status) => Err(Halt::Refused(status)),
    }
}

/// What a name of a live directory leads to: NOENT where that is nothing.
fn find_source<P: Pairs>(
    alloc: Global,
    pairs: &mut P,
    fsid: u64,
    directory: u64,
    name: &[u8],
) -> Result<Found, Halt>
    requires { length name.now ≤ longest_name }
    ensures goes { Goes P.told pairs.old pairs.new 0 }
    ensures check { CheckedOn P.told pairs.old pairs.new (λ (t : Tree). t.fsid ≡ fsid) (IsNamed directory name.now)
        (λ t. source_at t directory name.now) result }
    ensures live { IfOk result (λ x. checks.is_live x.place ≡ true) }
{
    let entry = match look_up(alloc, pairs, At::Live, directory, name) {
        Ok(entry) => entry,
        Err(fault) => return Err(Halt::Fault(fault)),
    };
    let Some(row) = entry else {
        return Err(Halt::Refused(Status::NoEnt));
    };
    let found = match find_child(alloc, pairs, fsid, row.fileid) {
        Ok(found) => found,
        Err(fault) => return Err(Halt::Fault(fault)),
    };
    match found {
        Some(source) => Ok(source),
        None => Err(Halt::Refused(Status::NoEnt)),
    }
}

/// What a name of a live directory leads to, or that this is nothing.
fn find_target<P: Pairs>(
    alloc: Global,
    pairs: &mut P,
    fsid: u64,
    directory: u64,
    name: &[u8],
) -> Result<Option<Found>, PairFault>
    requires { length name.now ≤ longest_name }
    ensures goes { Goes P.told pairs.old pairs.new 0 }
    ensures ok { IfOk result (λ found. Reads P.told pairs.old pairs.new (λ (t : Tree). t.fsid ≡ fsid)
        (λ t. IsLed t found (target_at t (entry_at t (LivePlace directory) name.now)))) }
    ensures live { IfOk result (λ found. IfSome found (λ x. checks.is_live x.place ≡ true)) }
    ensures fault { IfErr result (GivesUpOn P.told pairs.old pairs.new (λ (t : Tree). t.fsid ≡ fsid)) }
{
    let entry = match look_up(alloc, pairs, At::Live, directory, name) {
        Ok(entry) => entry,
        Err(fault) => return Err(fault),
    };
    match entry {
        Some(row) => find_child(alloc, pairs, fsid, row.fileid),
        None => Ok(None),
    }
}

/// What is found: first the directories of both names, then what has them.
pub(crate) fn find_renaming<P: Pairs>(
    alloc: Global,
    pairs: &mut P,
    cred: &Cred,
    a: &RenameArgs<Text>,
) -> Result<Seen, Halt>
    ensures goes { Goes P.told pairs.old pairs.new 0 }
    ensures sees { Gathers P.told pairs.old pairs.new (IsSeen cred.now a.now) (λ t. rename_plan t cred.now a.now) result }
    ensures open { IfOk result (IsOpen a.now) }
{
    let ends = match find_ends(alloc, pairs, cred, a) {
        Ok(ends) => ends,
        Err(halt) => return Err(halt),
    };
    let fsid = ends.from.attributes.fsid;
    let source = match find_source(
        alloc,
        pairs,
        fsid,
        ends.from.place.fileid(),
        a.from.name.as_slice(),
    ) {
        Ok(source) => source,
        Err(halt) => return Err(halt),
    };
    let target = match find_target(
        alloc,
        pairs,
        fsid,
        ends.to.place.fileid(),
        a.to.name.as_slice(),
    ) {
        Ok(target) => target,
        Err(fault) => return Err(Halt::Fault(fault)),
    };
    Ok(Seen {
        from: ends.from,
        to: ends.to,
        source,
        target,
    })
}
