//! RMDIR, outside of `.snapshot`.

ghost use Rattle.std.specs.Prelude.{◌≡◌, ◌≤◌, false, length, OnOk};
ghost use Rattle.fs_rules.specs.Limits.{longest_name};
ghost use Rattle.fs_rules.specs.Snapshots as table;
ghost use Rattle.fs_rules.specs.Sound.{IsSound};
ghost use Rattle.pairs.specs.Told.{Goes};
ghost use Rattle.procs_object.specs.Finding.{CheckedOn, says_snapshots};
ghost use Rattle.procs_object.specs.Performing.{Performs};
ghost use Rattle.procs_names.specs.Naming as naming;
ghost use Rattle.procs_names.specs.Naming.{IsRemoval, rmdir_plan, seen};

use crate::checks::need_alterable;
use crate::editing::{remove_directory, touched_less};
use crate::finding::child;
use crate::removing::{Removal, removal_of};
use dir_ops::is_empty;
use fs_rules::checks::{is_directory, is_dot, is_dot_dot, refuse_if};
use fs_rules::wcc_of;
use fs_shows::Halt;
use nfs3_types::{Body, Cred, DirOp, Moment, Status, Text};
use pairs::Pairs;
use procs_object::{Found, find_directory};
use std::alloc::Global;

/// What RMDIR asks of a directory and a name before it looks the name up.
#[tactic(auto, unfolding(crate::specs::Naming::need_removable_directory))]
fn need_removable(cred: &Cred, d: &Found, name: &[u8]) -> Result<(), Status>
    ensures { result ≡ naming.need_removable_directory cred.now (seen d.now) name.now }
{
    refuse_if(is_dot(name), Status::Inval)?;
    refuse_if(is_dot_dot(name), Status::Exist)?;
    need_alterable(cred, d, name)
}

/// What RMDIR is going to do.
#[tactic(none)]
fn find_emptied<P: Pairs>(
    alloc: Global,
    pairs: &mut P,
    cred: &Cred,
    a: &DirOp<Text>,
) -> Result<Removal, Halt>
    ensures goes { Goes P.told pairs.old pairs.new 0 }
    ensures check { CheckedOn P.told pairs.old pairs.new IsSound (IsRemoval a.now.name)
        (λ t. rmdir_plan t cred.now a.now) result }
    ensures short { OnOk result (length a.now.name ≤ longest_name) }
{
    let name = a.name.as_slice();
    let d = match find_directory(alloc, pairs, a.directory.as_slice(), name) {
        Ok(d) => d,
        Err(halt) => return Err(halt),
    };
    match need_removable(cred, &d, name) {
        Ok(()) => {}
        Err(status) => return Err(Halt::Refused(status)),
    }
    let o = match child(alloc, pairs, d.attributes.fsid, d.place.fileid(), name) {
        Ok(o) => o,
        Err(halt) => return Err(halt),
    };
    if !is_directory(o.inode.head.kept.kind) {
        return Err(Halt::Refused(Status::NotDir));
    }
    let empty = match is_empty(alloc, pairs, o.place.fileid()) {
        Ok(empty) => empty,
        Err(fault) => return Err(Halt::Fault(fault)),
    };
    if !empty {
        return Err(Halt::Refused(Status::NotEmpty));
    }
    Ok(removal_of(&d, &o))
}

/// RMDIR, outside of `.snapshot`.
#[tactic(none)]
pub(crate) fn remove_named<P: Pairs>(
    alloc: Global,
    pairs: &mut P,
    cred: &Cred,
    a: &DirOp<Text>,
    now: Moment,
) -> Result<Body, Halt>
    requires { says_snapshots a.now.directory ≡ false }
    ensures { Performs P.told pairs.old pairs.new 2 (λ t. table.rmdir t cred.now a.now now) result }
{
    let r = match find_emptied(alloc, pairs, cred, a) {
        Ok(r) => r,
        Err(halt) => return Err(halt),
    };
    let plan = r.plan;
    let name = a.name.as_slice();
    match remove_directory(alloc, pairs, plan.directory, name, plan.fileid, now) {
        Ok(()) => {
            let after = touched_less(&r.directory, now);
            Ok(Body::Rmdir(wcc_of(Some(r.directory), Some(after))))
        }
        Err(fault) => Err(Halt::Fault(fault)),
    }
}
