//! What RENAME is going to do.

ghost use Rattle.std.specs.Prelude.{◌≡◌, true, OnOk, IfOk, IfErr, IfSome};
ghost use Rattle.fs_rules.specs.Attributes.{given};
ghost use Rattle.fs_rules.specs.Checks as checks;
ghost use Rattle.fs_rules.specs.Making as making;
ghost use Rattle.fs_rules.specs.Renaming as table;
ghost use Rattle.fs_rules.specs.Sound.{IsSound};
ghost use Rattle.pairs.specs.Told.{Goes};
ghost use Rattle.fs_shows.specs.Steps.{Reads, GivesUpOn};
ghost use Rattle.procs_object.specs.Finding.{CheckedOn};
ghost use Rattle.procs_rename.specs.Seeing.{Gathers, AreShort, renaming_by, way_for, room_behind, other_room, plan_by, IsPlanned};

use crate::climbing::climb;
use crate::seeing::{Seen, find_renaming, is_directory};
use dir_ops::is_empty;
use fs_rules::checks::refuse_if;
use fs_rules::limits::{DEEPEST, MOST_LINKS, MOST_NUMBERS};
use fs_rules::{Climb, Inode, RenamePlan, Replaced};
use fs_shows::Halt;
use nfs3_types::{Cred, Fattr, RenameArgs, Status, Text};
use pair_types::PairFault;
use pairs::Pairs;
use std::alloc::Global;

/// What RENAME is going to do, and what both directories were.
#[derive(Clone, Copy)]
pub(crate) struct Planned {
    /// What it is going to do.
    pub(crate) plan: RenamePlan,
    /// The attributes of the directory of the old name.
    pub(crate) from: Fattr,
    /// The attributes of the directory of the new name.
    pub(crate) to: Fattr,
}

// ---- decisions

/// Whether both names are the node's already.
fn is_same_node(x: &Seen) -> bool
    ensures { result ≡ table.is_same_node (renaming_by x.now) }
{
    match &x.target {
        Some(o) => o.place.fileid() == x.source.place.fileid(),
        None => false,
    }
}

/// Whether a directory gets another parent.
fn reparents(x: &Seen) -> bool
    ensures { result ≡ table.reparents (renaming_by x.now) }
{
    is_directory(&x.source) && x.from.place.fileid() != x.to.place.fileid()
}

/// Whether just one of the two is so.
fn differs(a: bool, b: bool) -> bool
    ensures { result ≡ table.differs a b }
{
    a != b
}

/// A directory is not moved too deep, and not into itself or below itself.
fn allow_move(way: Climb) -> Result<(), Status>
    ensures { result ≡ table.allow_move way }
{
    match way {
        Climb::TooDeep => Err(Status::NameTooLong),
        Climb::Found => Err(Status::Inval),
        Climb::Root => Ok(()),
    }
}

/// Whether a directory has no cookie for a further name.
#[tactic(auto, unfolding(fs_rules::specs::Limits::most_numbers))]
fn lacks_cookies(directory: &Inode) -> bool
    ensures { result ≡ making.lacks_cookies directory.now }
{
    directory.next_cookie >= MOST_NUMBERS
}

/// The checks behind the way, where it is known whether something is in the way.
#[tactic(auto, unfolding(fs_rules::specs::Limits::most_links))]
fn check_room(x: &Seen, blocked: bool) -> Result<(), Status>
    ensures { result ≡ room_behind blocked (renaming_by x.now) }
{
    let links = x.to.inode.head.kept.nlink;
    refuse_if(blocked, Status::Exist)?;
    refuse_if(
        reparents(x) && x.target.is_none() && links >= MOST_LINKS,
        Status::MLink,
    )?;
    refuse_if(lacks_cookies(&x.to.inode.head.kept), Status::NoSpc)
}

/// What has the new name, and goes.
fn replaced(x: &Seen) -> Option<Replaced>
    ensures { result ≡ (plan_by (renaming_by x.now)).replaced }
{
    match &x.target {
        Some(o) => Some(Replaced {
            fileid: o.place.fileid(),
            is_directory: is_directory(o),
        }),
        None => None,
    }
}

/// What is done.
fn plan_of(x: &Seen) -> RenamePlan
    ensures { result ≡ plan_by (renaming_by x.now) }
{
    RenamePlan {
        from: x.from.place.fileid(),
        to: x.to.place.fileid(),
        fileid: x.source.place.fileid(),
        is_same: is_same_node(x),
        reparents: reparents(x),
        replaced: replaced(x),
    }
}

// ---- reads

/// A directory that gets another parent is not moved too deep, and not into itself or below itself.
fn need_way<P: Pairs>(alloc: Global, pairs: &mut P, x: &Seen) -> Result<(), Halt>
    ensures goes { Goes P.told pairs.old pairs.new 0 }
    ensures check { CheckedOn P.told pairs.old pairs.new IsSound (λ t u v. u ≡ v) (λ t. way_for t (renaming_by x.now)) result }
{
    if !reparents(x) {
        return Ok(());
    }
    let source = x.source.place.fileid();
    let way = match climb(alloc, pairs, source, DEEPEST + 1, x.to.place.fileid()) {
        Ok(way) => way,
        Err(fault) => return Err(Halt::Fault(fault)),
    };
    match allow_move(way) {
        Ok(()) => Ok(()),
        Err(status) => Err(Halt::Refused(status)),
    }
}

/// Whether what has the new name cannot go for the source: one of the two is a directory and the other is not, or it is a
/// directory that has names.
fn is_in_the_way<P: Pairs>(alloc: Global, pairs: &mut P, x: &Seen) -> Result<bool, PairFault>
    requires { IfSome x.now.target (λ o. checks.is_live o.place ≡ true) }
    ensures goes { Goes P.told pairs.old pairs.new 0 }
    ensures ok { IfOk result (λ blocked. Reads P.told pairs.old pairs.new IsSound
        (λ t. given (renaming_by x.now).target (table.is_in_the_way t (renaming_by x.now).source) ≡ blocked)) }
    ensures fault { IfErr result (GivesUpOn P.told pairs.old pairs.new IsSound) }
{
    let o = match &x.target {
        Some(o) => o,
        None => return Ok(false),
    };
    if differs(is_directory(o), is_directory(&x.source)) {
        return Ok(true);
    }
    if !is_directory(o) {
        return Ok(false);
    }
    match is_empty(alloc, pairs, o.place.fileid()) {
        Ok(empty) => Ok(!empty),
        Err(fault) => Err(fault),
    }
}

/// What is found can be done.
fn need_room<P: Pairs>(alloc: Global, pairs: &mut P, x: &Seen) -> Result<(), Halt>
    requires { IfSome x.now.target (λ o. checks.is_live o.place ≡ true) }
    ensures goes { Goes P.told pairs.old pairs.new 0 }
    ensures check { CheckedOn P.told pairs.old pairs.new IsSound (λ t u v. u ≡ v)
        (λ t. table.need_room t (renaming_by x.now)) result }
{
    match need_way(alloc, pairs, x) {
        Ok(()) => {}
        Err(halt) => return Err(halt),
    }
    let blocked = match is_in_the_way(alloc, pairs, x) {
        Ok(blocked) => blocked,
        Err(fault) => return Err(Halt::Fault(fault)),
    };
    match check_room(x, blocked) {
        Ok(()) => Ok(()),
        Err(status) => Err(Halt::Refused(status)),
    }
}

/// What is found can be done; where both names are one node's, nothing is asked any more.
fn need_other_room<P: Pairs>(alloc: Global, pairs: &mut P, x: &Seen) -> Result<(), Halt>
    requires { IfSome x.now.target (λ o. checks.is_live o.place ≡ true) }
    ensures goes { Goes P.told pairs.old pairs.new 0 }
    ensures check { CheckedOn P.told pairs.old pairs.new IsSound (λ t u v. u ≡ v)
        (λ t. other_room t (renaming_by x.now)) result }
{
    if is_same_node(x) {
        return Ok(());
    }
    need_room(alloc, pairs, x)
}

/// What RENAME is going to do; where both names are one node's, nothing is asked any more.
pub(crate) fn make_plan<P: Pairs>(
    alloc: Global,
    pairs: &mut P,
    cred: &Cred,
    a: &RenameArgs<Text>,
) -> Result<Planned, Halt>
    ensures goes { Goes P.told pairs.old pairs.new 0 }
    ensures sees { Gathers P.told pairs.old pairs.new (IsPlanned cred.now a.now)
        (λ t. table.rename_plan t cred.now a.now) result }
    ensures short { OnOk result (AreShort a.now) }
{
    let x = match find_renaming(alloc, pairs, cred, a) {
        Ok(x) => x,
        Err(halt) => return Err(halt),
    };
    match need_other_room(alloc, pairs, &x) {
        Ok(()) => {}
        Err(halt) => return Err(halt),
    }
    Ok(Planned {
        plan: plan_of(&x),
        from: x.from.attributes,
        to: x.to.attributes,
    })
}
