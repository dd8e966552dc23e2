//! MKDIR, which takes a snapshot where it is called in `.snapshot`.

ghost use Rattle.std.specs.Prelude.{◌≡◌, ◌≤◌, ◌<◌, true, length, OnOk};
ghost use Rattle.fs_rules.specs.Limits.{longest_name};
ghost use Rattle.fs_rules.specs.Snapshots as table;
ghost use Rattle.fs_rules.specs.Sound.{IsSound};
ghost use Rattle.pairs.specs.Told.{Goes};
ghost use Rattle.procs_object.specs.Finding.{CheckedOn, says_snapshots as says_it};
ghost use Rattle.procs_object.specs.Performing.{Performs};
ghost use Rattle.procs_mkdir.specs.Taking.{IsTaking, take_check};

use crate::checks::check_new;
use crate::telling::{root_of, told_of};
use fs_keys::First;
use fs_shows::Halt;
use nfs3_types::{Body, Cred, Fattr, MkdirArgs, Moment, Text};
use pair_types::PairFault;
use pairs::Pairs;
use procs_making::mkdir as make_directory;
use procs_object::{find_child, look, says_snapshots};
use snap_ops::{add_snap, snapshots};
use std::alloc::Global;

/// What is read before a snapshot is taken.
#[derive(Clone, Copy)]
pub(crate) struct Taking {
    /// The first record.
    pub(crate) begins: First,
    /// The attributes of `.snapshot`.
    pub(crate) directory: Fattr,
    /// The attributes that the root has in the snapshot.
    pub(crate) root: Option<Fattr>,
}

/// What MKDIR needs in `.snapshot`.
#[tactic(none)]
fn find_taking<P: Pairs>(
    alloc: Global,
    pairs: &mut P,
    cred: &Cred,
    a: &MkdirArgs<Text>,
) -> Result<Taking, Halt>
    requires { says_it a.now.place.directory ≡ true }
    ensures goes { Goes P.told pairs.old pairs.new 0 }
    ensures check { CheckedOn P.told pairs.old pairs.new IsSound IsTaking (λ t. take_check t cred.now a.now) result }
    ensures short { OnOk result (length a.now.place.name ≤ longest_name) }
{
    let x = match look(alloc, pairs, a.place.directory.as_slice()) {
        Ok(x) => x,
        Err(halt) => return Err(halt),
    };
    let entries = match snapshots(alloc, pairs) {
        Ok(entries) => entries,
        Err(fault) => return Err(Halt::Fault(fault)),
    };
    match check_new(
        cred,
        a.place.name.as_slice(),
        entries.as_slice(),
        x.begins.epoch,
    ) {
        Ok(()) => {}
        Err(status) => return Err(Halt::Refused(status)),
    }
    let fsid = match x.begins.fsid.checked_add(x.begins.epoch) {
        Some(fsid) => fsid,
        None => return Err(Halt::Fault(PairFault::Odd)),
    };
    match find_child(alloc, pairs, x.begins.fsid, 1) {
        Ok(root) => Ok(Taking {
            begins: x.begins,
            directory: x.found.attributes,
            root: root_of(&root, fsid),
        }),
        Err(fault) => Err(Halt::Fault(fault)),
    }
}

/// MKDIR in `.snapshot`.
#[tactic(none)]
fn take_named<P: Pairs>(
    alloc: Global,
    pairs: &mut P,
    cred: &Cred,
    a: &MkdirArgs<Text>,
    now: Moment,
    lane: u8,
) -> Result<Body, Halt>
    requires { says_it a.now.place.directory ≡ true }
    ensures { Performs P.told pairs.old pairs.new 5 (λ t. table.mkdir t cred.now a.now now lane) result }
{
    let x = match find_taking(alloc, pairs, cred, a) {
        Ok(x) => x,
        Err(halt) => return Err(halt),
    };
    let told = match told_of(alloc, &x.begins, x.root, &x.directory, now) {
        Ok(told) => told,
        Err(fault) => return Err(Halt::Fault(PairFault::from(fault))),
    };
    match add_snap(alloc, pairs, now, a.place.name.as_slice()) {
        Ok(_number) => Ok(Body::Mkdir(told)),
        Err(fault) => Err(Halt::Fault(fault)),
    }
}

/// MKDIR, whose new directory gets a number of this lane.
#[tactic(none)]
pub fn mkdir<P: Pairs>(
    alloc: Global,
    pairs: &mut P,
    cred: &Cred,
    a: &MkdirArgs<Text>,
    now: Moment,
    lane: u8,
) -> Result<Body, Halt>
    requires { lane < 16 }
    ensures { Performs P.told pairs.old pairs.new 5 (λ t. table.mkdir t cred.now a.now now lane) result }
{
    if says_snapshots(a.place.directory.as_slice()) {
        take_named(alloc, pairs, cred, a, now, lane)
    } else {
        make_directory(alloc, pairs, cred, a, now, lane)
    }
}
