//! SETATTR, without a size.

ghost use Rattle.std.specs.Prelude.{◌≡◌, true, not, None, OnOk, IfOk};
ghost use Rattle.fs_rules.specs.Attributes.{given, apply_sattr as applied};
ghost use Rattle.fs_rules.specs.Checks.{is_live as is_live_place};
ghost use Rattle.fs_rules.specs.Places.{Object, fileid_at};
ghost use Rattle.fs_rules.specs.Setting as table;
ghost use Rattle.fs_rules.specs.Setting.{is_same};
ghost use Rattle.procs_object.specs.Performing.{Performs};
ghost use Rattle.procs_object.specs.Planning.{plan_for};

use crate::object::{Found, see};
use fs_rules::checks::is_live;
use fs_rules::{SetAttrPlan, apply_sattr, sattr_fault, wcc_of};
use fs_shows::Halt;
use inode_ops::describe;
use nfs3_types::{Body, Cred, Moment, SetAttrArgs, Status, Text};
use pairs::Pairs;
use std::alloc::Global;

/// Whether the guard is another time than this.
fn is_guarded(guard: Option<Moment>, time: Moment) -> bool
    ensures { result ≡ given guard (λ guard. not (is_same guard time)) }
{
    match guard {
        Some(guard) => guard != time,
        None => false,
    }
}

/// What SETATTR is going to do with what was found.
#[tactic(auto, unfolding(crate::specs::Planning::plan_for))]
fn plan_of(
    cred: &Cred,
    a: &SetAttrArgs<Text>,
    now: Moment,
    o: &Found,
) -> Result<SetAttrPlan, Status>
    requires { a.now.attributes.size ≡ None }
    ensures check { (object : Object) → object.place ≡ o.now.place → object.inode ≡ o.now.inode.head.kept
        → plan_for object o.now.attributes cred.now a.now now ≡ result }
    ensures live { OnOk result (is_live_place o.now.place ≡ true) }
    ensures plan { IfOk result (λ plan. plan ≡ record {
      fileid = fileid_at o.now.place;
      attributes = applied o.now.attributes a.now.attributes now;
    }) }
{
    if !is_live(o.place) {
        return Err(Status::Rofs);
    }
    if is_guarded(a.guard, o.inode.head.kept.ctime) {
        return Err(Status::NotSync);
    }
    if let Some(status) = sattr_fault(cred, &o.attributes, &a.attributes) {
        return Err(status);
    }
    Ok(SetAttrPlan {
        fileid: o.place.fileid(),
        attributes: apply_sattr(&o.attributes, &a.attributes, now),
    })
}

/// SETATTR, where no size is given.
#[tactic(none)]
pub fn set_attr<P: Pairs>(
    alloc: Global,
    pairs: &mut P,
    cred: &Cred,
    a: &SetAttrArgs<Text>,
    now: Moment,
) -> Result<Body, Halt>
    requires { a.now.attributes.size ≡ None }
    ensures { Performs P.told pairs.old pairs.new 1 (λ t. table.set_attr t cred.now a.now now) result }
{
    let o = match see(alloc, pairs, a.object.as_slice()) {
        Ok(o) => o,
        Err(halt) => return Err(halt),
    };
    let plan = match plan_of(cred, a, now, &o) {
        Ok(plan) => plan,
        Err(status) => return Err(Halt::Refused(status)),
    };
    match describe(alloc, pairs, plan.fileid, &plan.attributes) {
        Ok(()) => Ok(Body::SetAttr(wcc_of(Some(o.attributes), Some(plan.attributes)))),
        Err(fault) => Err(Halt::Fault(fault)),
    }
}
