//! REMOVE.

ghost use Rattle.std.specs.Prelude.{◌≡◌, ◌≤◌, length, OnOk};
ghost use Rattle.fs_rules.specs.Limits.{longest_name};
ghost use Rattle.fs_rules.specs.Removing as table;
ghost use Rattle.fs_rules.specs.Sound.{IsSound};
ghost use Rattle.pairs.specs.Told.{Goes};
ghost use Rattle.procs_object.specs.Finding.{CheckedOn};
ghost use Rattle.procs_object.specs.Performing.{Performs};
ghost use Rattle.procs_names.specs.Naming as naming;
ghost use Rattle.procs_names.specs.Naming.{IsRemoval, removal_of as removal_as, seen};

use crate::checks::need_alterable;
use crate::editing::{remove_file, touched};
use crate::finding::child;
use fs_rules::checks::{is_directory, is_dots, refuse_if};
use fs_rules::{RemovePlan, wcc_of};
use fs_shows::Halt;
use nfs3_types::{Body, Cred, DirOp, Fattr, Moment, Status, Text};
use pairs::Pairs;
use procs_object::{Found, find_directory};
use std::alloc::Global;

/// What REMOVE or RMDIR is going to do, and the attributes of its directory before.
#[derive(Clone, Copy)]
pub(crate) struct Removal {
    /// The directory, and the node whose name goes.
    pub(crate) plan: RemovePlan,
    /// The attributes of the directory.
    pub(crate) directory: Fattr,
}

/// What REMOVE asks of a directory and a name before it looks the name up.
#[tactic(auto, unfolding(crate::specs::Naming::need_removable))]
fn need_removable(cred: &Cred, d: &Found, name: &[u8]) -> Result<(), Status>
    ensures { result ≡ naming.need_removable cred.now (seen d.now) name.now }
{
    refuse_if(is_dots(name), Status::Inval)?;
    need_alterable(cred, d, name)
}

/// What is going to be removed, where these were found.
pub(crate) fn removal_of(d: &Found, o: &Found) -> Removal
    ensures { result ≡ removal_as d.now o.now }
{
    Removal {
        plan: RemovePlan {
            directory: d.place.fileid(),
            fileid: o.place.fileid(),
        },
        directory: d.attributes,
    }
}

/// What REMOVE is going to do.
#[tactic(none)]
fn find_removal<P: Pairs>(
    alloc: Global,
    pairs: &mut P,
    cred: &Cred,
    a: &DirOp<Text>,
) -> Result<Removal, Halt>
    ensures goes { Goes P.told pairs.old pairs.new 0 }
    ensures check { CheckedOn P.told pairs.old pairs.new IsSound (IsRemoval a.now.name)
        (λ t. table.remove_plan t cred.now a.now) result }
    ensures short { OnOk result (length a.now.name ≤ longest_name) }
{
    let name = a.name.as_slice();
    let d = match find_directory(alloc, pairs, a.directory.as_slice(), name) {
        Ok(d) => d,
        Err(halt) => return Err(halt),
    };
    match need_removable(cred, &d, name) {
        Ok(()) => {}
        Err(status) => return Err(Halt::Refused(status)),
    }
    let o = match child(alloc, pairs, d.attributes.fsid, d.place.fileid(), name) {
        Ok(o) => o,
        Err(halt) => return Err(halt),
    };
    if is_directory(o.inode.head.kept.kind) {
        return Err(Halt::Refused(Status::IsDir));
    }
    Ok(removal_of(&d, &o))
}

/// REMOVE.
#[tactic(none)]
pub fn remove<P: Pairs>(
    alloc: Global,
    pairs: &mut P,
    cred: &Cred,
    a: &DirOp<Text>,
    now: Moment,
) -> Result<Body, Halt>
    ensures { Performs P.told pairs.old pairs.new 2 (λ t. table.remove t cred.now a.now now) result }
{
    let r = match find_removal(alloc, pairs, cred, a) {
        Ok(r) => r,
        Err(halt) => return Err(halt),
    };
    let plan = r.plan;
    match remove_file(
        alloc,
        pairs,
        plan.directory,
        a.name.as_slice(),
        plan.fileid,
        now,
    ) {
        Ok(()) => {
            let after = touched(&r.directory, now);
            Ok(Body::Remove(wcc_of(Some(r.directory), Some(after))))
        }
        Err(fault) => Err(Halt::Fault(fault)),
    }
}
