//! RMDIR, which drops a snapshot where it is called in `.snapshot`.

ghost use Rattle.std.specs.Prelude.{◌≡◌, true};
ghost use Rattle.fs_rules.specs.Snapshots as table;
ghost use Rattle.fs_rules.specs.Sound.{IsSound};
ghost use Rattle.pairs.specs.Told.{Goes};
ghost use Rattle.procs_object.specs.Finding.{CheckedOn, says_snapshots as says_it};
ghost use Rattle.procs_object.specs.Performing.{Performs};
ghost use Rattle.procs_names.specs.Naming as naming;
ghost use Rattle.procs_names.specs.Naming.{IsDropping, drop_check};

use crate::editing::touched_less;
use crate::emptying::remove_named;
use crate::ways::snapshot_named;
use fs_rules::checks::{is_dot, is_dot_dot, need, need_good_name, refuse_if};
use fs_rules::wcc_of;
use fs_shows::Halt;
use nfs3_types::{Body, Cred, DirOp, Fattr, Moment, Status, Text};
use pairs::Pairs;
use procs_object::{says_snapshots, see};
use snap_ops::drop_snap;
use std::alloc::Global;

/// The snapshot that is dropped, and the attributes of `.snapshot` before.
#[derive(Clone, Copy)]
pub(crate) struct Dropping {
    /// The number of the snapshot.
    pub(crate) number: u64,
    /// The attributes of the directory.
    pub(crate) directory: Fattr,
}

/// What RMDIR asks in `.snapshot` before the name is looked up.
#[tactic(auto, unfolding(crate::specs::Naming::need_droppable))]
fn need_droppable(cred: &Cred, name: &[u8]) -> Result<(), Status>
    ensures { result ≡ naming.need_droppable cred.now name.now }
{
    need_good_name(name)?;
    refuse_if(is_dot(name), Status::Inval)?;
    refuse_if(is_dot_dot(name), Status::Exist)?;
    need(cred.uid == 0, Status::Acces)
}

/// What RMDIR is going to drop.
#[tactic(none)]
fn find_dropping<P: Pairs>(
    alloc: Global,
    pairs: &mut P,
    cred: &Cred,
    a: &DirOp<Text>,
) -> Result<Dropping, Halt>
    requires { says_it a.now.directory ≡ true }
    ensures goes { Goes P.told pairs.old pairs.new 0 }
    ensures check { CheckedOn P.told pairs.old pairs.new IsSound (IsDropping a.now.name)
        (λ t. drop_check t cred.now a.now) result }
{
    let name = a.name.as_slice();
    let d = match see(alloc, pairs, a.directory.as_slice()) {
        Ok(d) => d,
        Err(halt) => return Err(halt),
    };
    match need_droppable(cred, name) {
        Ok(()) => {}
        Err(status) => return Err(Halt::Refused(status)),
    }
    let found = match snapshot_named(alloc, pairs, name) {
        Ok(found) => found,
        Err(fault) => return Err(Halt::Fault(fault)),
    };
    match found {
        Some(number) => Ok(Dropping {
            number,
            directory: d.attributes,
        }),
        None => Err(Halt::Refused(Status::NoEnt)),
    }
}

/// RMDIR in `.snapshot`.
#[tactic(none)]
fn drop_named<P: Pairs>(
    alloc: Global,
    pairs: &mut P,
    cred: &Cred,
    a: &DirOp<Text>,
    now: Moment,
) -> Result<Body, Halt>
    requires { says_it a.now.directory ≡ true }
    ensures { Performs P.told pairs.old pairs.new 2 (λ t. table.rmdir t cred.now a.now now) result }
{
    let x = match find_dropping(alloc, pairs, cred, a) {
        Ok(x) => x,
        Err(halt) => return Err(halt),
    };
    match drop_snap(alloc, pairs, now, x.number) {
        Ok(()) => {
            let after = touched_less(&x.directory, now);
            Ok(Body::Rmdir(wcc_of(Some(x.directory), Some(after))))
        }
        Err(fault) => Err(Halt::Fault(fault)),
    }
}

/// RMDIR.
#[tactic(none)]
pub fn rmdir<P: Pairs>(
    alloc: Global,
    pairs: &mut P,
    cred: &Cred,
    a: &DirOp<Text>,
    now: Moment,
) -> Result<Body, Halt>
    ensures { Performs P.told pairs.old pairs.new 2 (λ t. table.rmdir t cred.now a.now now) result }
{
    if says_snapshots(a.directory.as_slice()) {
        drop_named(alloc, pairs, cred, a, now)
    } else {
        remove_named(alloc, pairs, cred, a, now)
    }
}
