//! Commits over ports that own the stores.

ghost use Rattle.fabric.specs.Shown.{port_of};
ghost use Rattle.page_types.specs.Fused.{inner_of};
ghost use Rattle.commit_checks.specs.Rights.{IsNew, MayCommit};

use crate::fairness::may_commit;
use crate::stores::{Stores, Way};
use fabric::OwnedPort;
use page_types::FusedPort;
use pair_types::Tid;
use std::alloc::Global;
use two_phase::{Commit, Part, commit};

fn commit_at(alloc: Global, port: &mut Way, tid: Tid, parts: &[Part]) -> Commit
    requires { MayCommit (port_of port.old) tid parts.now }
{
    commit(alloc, port, tid, parts, None)
}

fn commit_within(alloc: Global, port: &mut FusedPort<Way>, tid: Tid, parts: &[Part]) -> Commit
    requires { MayCommit (port_of (inner_of port.old)) tid parts.now }
{
    commit(alloc, port, tid, parts, None)
}

/// The way of a transaction's pass to the stores.
pub fn way_of(fabric: Stores, tid: Tid, parts: &[Part]) -> Way
    requires { IsNew fabric.origin.stores fabric.journal tid parts.now }
    ensures { MayCommit (port_of result) tid parts.now }
{
    OwnedPort::new(fabric, tid.pass)
}

fn commit_whole(alloc: Global, fabric: Stores, tid: Tid, parts: &[Part]) -> (Stores, Commit)
    requires { IsNew fabric.origin.stores fabric.journal tid parts.now }
{
    let mut port = way_of(fabric, tid, parts);
    let answer = commit_at(alloc, &mut port, tid, parts);
    (port.part(), answer)
}

fn commit_cut(
    alloc: Global,
    fabric: Stores,
    tid: Tid,
    parts: &[Part],
    steps: u64,
) -> (Stores, Commit)
    requires { IsNew fabric.origin.stores fabric.journal tid parts.now }
{
    let mut port = FusedPort::new(way_of(fabric, tid, parts), steps);
    let answer = commit_within(alloc, &mut port, tid, parts);
    (port.part().part(), answer)
}

/// Commits a transaction of a pass; where there is a number of steps, the pass stops after so many. Nothing is asked, and
/// nothing is answered, where the pass may not commit it.
pub fn attempt(
    alloc: Global,
    fabric: Stores,
    tid: Tid,
    parts: &[Part],
    steps: Option<u64>,
) -> (Stores, Option<Commit>) {
    if !may_commit(&fabric, tid, parts) {
        return (fabric, None);
    }
    let (fabric, answer) = match steps {
        Some(steps) => commit_cut(alloc, fabric, tid, parts, steps),
        None => commit_whole(alloc, fabric, tid, parts),
    };
    (fabric, Some(answer))
}
