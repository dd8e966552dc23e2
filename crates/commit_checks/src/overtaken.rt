//! A transaction that another pass finishes before its own pass asks to commit it.

ghost use Rattle.std.specs.Prelude.{◌≡◌, true, Ok, None, ◌∷◌, [], slice_index};
ghost use Rattle.fabric.specs.Shown.{port_of};
ghost use Rattle.two_phase.specs.declared.prepares.Preparation.TheVariants.{Ready};
ghost use Rattle.two_phase.specs.Parts.{stores_of};
ghost use Rattle.two_phase.specs.Commits.{IsReady};
ghost use Rattle.commit_checks.specs.Rights.{any_stands, any_next, IsNew, MayCommit, IsPrepared};

use crate::calls::way_of;
use crate::fairness::{count, has_rested, may_commit};
use crate::left::{find_all, parts_in};
use crate::reading::{Sight, look};
use crate::stores::{Stores, Way, stores};
use crate::told::{ended, text_of_sight};
use anyhow::Result;
use fabric::OwnedPort;
use page_types::Outcome;
use pair_types::{Slot, StepFault, Tid};
use std::alloc::Global;
use two_phase::{Part, Preparation, decide, prepare_all, resolve_all};

fn is_ready(prepared: &Result<Preparation, StepFault>) -> bool
    ensures { result ≡ true → prepared.now ≡ Ok Ready }
{
    match prepared {
        Ok(Preparation::Ready) => true,
        _ => false,
    }
}

/// Prepares the parts, and tells whether all are ready.
fn prepare(
    alloc: Global,
    port: &mut Way,
    tid: Tid,
    home: u32,
    listed: &[u32],
    parts: &[Part],
) -> bool
    requires home { home ≡ slice_index listed.now 0 }
    requires listed { listed.now ≡ stores_of parts.now }
    requires may { MayCommit (port_of port.old) tid parts.now }
    ensures { result ≡ true → IsPrepared port.new.fabric tid home listed.now }
{
    let prepared = prepare_all(alloc, port, tid, home, listed, parts);
    is_ready(&prepared)
}

/// Asks the home to commit, and ends the parts as it answers: whether that is a commit.
fn conclude(
    alloc: Global,
    port: &mut Way,
    tid: Tid,
    home: u32,
    listed: &[u32],
) -> Result<bool, StepFault>
    requires { IsReady any_stands any_next (port_of port.old) tid (record { home = home; parts = listed.now }) None }
{
    let committed = decide(alloc, port, home, tid, Outcome::Commit(None))?;
    resolve_all(alloc, port, listed, tid, committed)?;
    Ok(committed)
}

fn prepare_by(
    alloc: Global,
    fabric: Stores,
    tid: Tid,
    home: u32,
    listed: &[u32],
    parts: &[Part],
) -> (Stores, bool)
    requires home { home ≡ slice_index listed.now 0 }
    requires listed { listed.now ≡ stores_of parts.now }
    requires new { IsNew fabric.origin.stores fabric.journal tid parts.now }
    ensures { result.1 ≡ true → IsPrepared result.0 tid home listed.now }
{
    let mut port = way_of(fabric, tid, parts);
    let is_prepared = prepare(alloc, &mut port, tid, home, listed, parts);
    (port.part(), is_prepared)
}

fn conclude_by(
    alloc: Global,
    fabric: Stores,
    tid: Tid,
    home: u32,
    listed: &[u32],
) -> (Stores, Result<bool, StepFault>)
    requires { IsPrepared fabric tid home listed.now }
{
    let mut port = OwnedPort::new(fabric, tid.pass);
    let committed = conclude(alloc, &mut port, tid, home, listed);
    (port.part(), committed)
}

/// Pass 2 reads a slot before the transaction's own pass concludes: what it sees, and what the own pass is told.
fn between(
    alloc: Global,
    fabric: Stores,
    tid: Tid,
    home: u32,
    listed: &[u32],
) -> (Stores, Result<(Sight, bool), StepFault>)
    requires { IsPrepared fabric tid home listed.now }
{
    let before = count(&fabric);
    let slot = Slot {
        store: 1,
        number: 3,
    };
    let (later, sight) = look(alloc, fabric, 2, slot);
    if !has_rested(&later, before, tid.pass) {
        return (later, Err(StepFault::Stopped));
    }
    let (ended, committed) = conclude_by(alloc, later, tid, home, listed);
    (ended, both(sight, committed))
}

fn both(
    sight: Result<Sight, StepFault>,
    committed: Result<bool, StepFault>,
) -> Result<(Sight, bool), StepFault> {
    Ok((sight?, committed?))
}

/// Pass 1 prepares the two parts, pass 2 reads, and pass 1 concludes.
fn run(
    alloc: Global,
    fabric: Stores,
    tid: Tid,
    one: u32,
    two: u32,
    parts: &[Part],
) -> (Stores, Result<(Sight, bool), StepFault>)
    requires new { IsNew fabric.origin.stores fabric.journal tid parts.now }
    requires listed { stores_of parts.now ≡ one ∷ two ∷ [] }
{
    let listed = [one, two];
    let (fabric, is_prepared) = prepare_by(alloc, fabric, tid, one, &listed, parts);
    if !is_prepared {
        return (fabric, Err(StepFault::Stopped));
    }
    between(alloc, fabric, tid, one, &listed)
}

fn run_parts(
    alloc: Global,
    fabric: Stores,
    tid: Tid,
    parts: &[Part],
) -> (Stores, Result<(Sight, bool), StepFault>) {
    if !may_commit(&fabric, tid, parts) {
        return (fabric, Err(StepFault::Stopped));
    }
    match parts {
        [one, two] => run(alloc, fabric, tid, one.store, two.store, parts),
        _ => (fabric, Err(StepFault::Stopped)),
    }
}

/// A transaction of pass 1 over two stores is prepared. Before its pass asks to commit it, pass 2 reads one of its slots:
/// what pass 2 sees, what pass 1 is told then, and what is in the slots.
pub fn overtake(alloc: Global) -> Result<String> {
    let parts = parts_in(alloc, 2)?;
    let fabric = stores(alloc, 2, 3, Vec::new(alloc))?;
    let (fabric, told) = run_parts(alloc, fabric, Tid { pass: 1, serial: 1 }, &parts);
    let found = find_all(alloc, fabric, 2)?;
    let (sight, committed) = told?;
    let seen = text_of_sight(alloc, sight)?;
    Ok(format!(in alloc; "{seen}, then {}, {}", ended(committed), found.text())?)
}
