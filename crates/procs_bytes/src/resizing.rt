//! SETATTR, and what CREATE does to a file that is there.

ghost use Rattle.std.specs.Prelude.{◌≡◌, ◌+◌, ◌<◌, ◌^◌, ◌&&◌, nat_lt, nat_le, not, true, Some, OnOk, IfOk, IfErr};
ghost use Rattle.fs_rules.specs.Attributes.{given, is_file as is_file_kind};
ghost use Rattle.fs_rules.specs.Checks.{is_live as is_live_place};
ghost use Rattle.fs_rules.specs.Limits.{most_numbers};
ghost use Rattle.fs_rules.specs.Places.{Object, fileid_at};
ghost use Rattle.fs_rules.specs.Setting as table;
ghost use Rattle.fs_rules.specs.Setting.{is_same};
ghost use Rattle.pairs.specs.Told.{Goes};
ghost use Rattle.fs_shows.specs.Steps.{EditGivesUp};
ghost use Rattle.file_ops.specs.Given.{MaySize};
ghost use Rattle.procs_bytes.specs.Resizing.{may_set, GivesOrWaits};
ghost use Rattle.procs_bytes.specs.Waiting.{PerformsOrWaits};

use crate::stop::Stop;
use file_ops::set_size;
use fs_keys::Head;
use fs_rules::checks::is_live;
use fs_rules::limits::MOST_NUMBERS;
use fs_rules::{Place, apply_sattr, sattr_fault, wcc_of};
use fs_shows::Halt;
use inode_ops::{describe, touch};
use nfs3_types::{Body, Cred, Moment, SetAttrArgs, Status, Text};
use pair_types::PairFault;
use pairs::Blocks;
use procs_object::{Found, see, set_attr as set_unsized};
use std::alloc::Global;

/// Whether the guard is another time than this.
fn is_guarded(guard: Option<Moment>, time: Moment) -> bool
    ensures { result ≡ given guard (λ guard. not (is_same guard time)) }
{
    match guard {
        Some(guard) => guard != time,
        None => false,
    }
}

/// That a caller may set these attributes of what was found, with a size.
#[tactic(auto, using(crate::proofs::SizeSet::fault_none), unfolding(crate::specs::Resizing::may_set))]
fn may_set(cred: &Cred, a: &SetAttrArgs<Text>, size: u64, o: &Found) -> Result<(), Status>
    requires { a.now.attributes.size ≡ Some size }
    ensures check { (object : Object) → object.place ≡ o.now.place → object.inode ≡ o.now.inode.head.kept
        → may_set object o.now.attributes cred.now a.now ≡ result }
    ensures live { OnOk result (is_live_place o.now.place ≡ true) }
    ensures file { OnOk result (is_file_kind o.now.attributes.kind ≡ true) }
{
    if !is_live(o.place) {
        return Err(Status::Rofs);
    }
    if is_guarded(a.guard, o.inode.head.kept.ctime) {
        return Err(Status::NotSync);
    }
    match sattr_fault(cred, &o.attributes, &a.attributes) {
        Some(status) => Err(status),
        None => Ok(()),
    }
}

/// Whether this size is a cut of the file, and one too many.
#[tactic(auto, unfolding(fs_rules::specs::Limits::most_numbers))]
pub fn lacks_cuts(size: u64, head: &Head) -> bool
    ensures { result ≡ (nat_lt size head.now.size && nat_le most_numbers (head.now.kept.cuts + 1)) }
{
    size < head.size && head.kept.cuts >= MOST_NUMBERS - 1
}

/// The number of the file at a place.
fn number_at(place: Place) -> u64
    ensures is { result ≡ fileid_at place }
    ensures fits { result < 2 ^ 64 }
{
    place.fileid()
}

/// SETATTR, where this size is given; or it is to be made again behind a sweep of the file.
#[tactic(none)]
fn set_attr_sized<P: Blocks>(
    alloc: Global,
    pairs: &mut P,
    cred: &Cred,
    a: &SetAttrArgs<Text>,
    size: u64,
    now: Moment,
) -> Result<Body, Stop>
    requires sized { a.now.attributes.size ≡ Some size }
    ensures { PerformsOrWaits P.told pairs.old pairs.new 4 (λ t. table.set_attr t cred.now a.now now) result }
{
    let o = match see(alloc, pairs, a.object.as_slice()) {
        Ok(o) => o,
        Err(halt) => return Err(Stop::Halted(halt)),
    };
    match may_set(cred, a, size, &o) {
        Ok(()) => {}
        Err(status) => return Err(Stop::Halted(Halt::Refused(status))),
    }
    if lacks_cuts(size, &o.inode.head) {
        return Err(Stop::Halted(Halt::Refused(Status::NoSpc)));
    }
    let after = apply_sattr(&o.attributes, &a.attributes, now);
    let id = number_at(o.place);
    let is_set = match set_size(alloc, pairs, id, size) {
        Ok(is_set) => is_set,
        Err(fault) => return Err(Stop::Halted(Halt::Fault(fault))),
    };
    if is_set {
        match describe(alloc, pairs, id, &after) {
            Ok(()) => Ok(Body::SetAttr(wcc_of(Some(o.attributes), Some(after)))),
            Err(fault) => Err(Stop::Halted(Halt::Fault(fault))),
        }
    } else {
        Err(Stop::SweepFirst(id))
    }
}

/// SETATTR; or it is to be made again behind a sweep of the file.
#[tactic(none)]
pub fn set_attr<P: Blocks>(
    alloc: Global,
    pairs: &mut P,
    cred: &Cred,
    a: &SetAttrArgs<Text>,
    now: Moment,
) -> Result<Body, Stop>
    ensures { PerformsOrWaits P.told pairs.old pairs.new 4 (λ t. table.set_attr t cred.now a.now now) result }
{
    match a.attributes.size {
        Some(size) => set_attr_sized(alloc, pairs, cred, a, size, now),
        None => match set_unsized(alloc, pairs, cred, a, now) {
            Ok(body) => Ok(body),
            Err(halt) => Err(Stop::Halted(halt)),
        },
    }
}

/// CREATE gives a file that is there a size, and its times. `false`, and nothing is changed, where a sweep of it has to come
/// first.
#[tactic(none)]
pub fn give_size<P: Blocks>(
    alloc: Global,
    pairs: &mut P,
    id: u64,
    size: u64,
    now: Moment,
) -> Result<bool, PairFault>
    ensures goes { Goes P.told pairs.old pairs.new 4 }
    ensures ok { IfOk result (GivesOrWaits P.told pairs.old pairs.new id size now) }
    ensures fault { IfErr result (EditGivesUp P.told pairs.old pairs.new (MaySize id)) }
{
    let is_set = match set_size(alloc, pairs, id, size) {
        Ok(is_set) => is_set,
        Err(fault) => return Err(fault),
    };
    if is_set {
        match touch(alloc, pairs, id, now) {
            Ok(()) => Ok(true),
            Err(fault) => Err(fault),
        }
    } else {
        Ok(false)
    }
}
