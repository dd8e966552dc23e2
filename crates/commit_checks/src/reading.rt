//! Reads of a pass, which finish what they meet.

ghost use Rattle.std.specs.Prelude.{◌<◌};
ghost use Rattle.fabric.specs.Shown.{port_of};
ghost use Rattle.two_phase.specs.Endings.{IsKnown};
ghost use Rattle.two_phase.specs.Commits.{IsMet};
ghost use Rattle.commit_checks.specs.Rights.{IsOn, IsLater};

use crate::parts::value_of;
use crate::stores::{Stores, Way};
use fabric::OwnedPort;
use page_types::{Answer, Command};
use pair_types::{Slot, StepFault, Tid};
use std::alloc::Global;
use two_phase::{finish, retry};

/// What a pass sees of a slot.
#[derive(Clone, Copy, Debug, PartialEq, Eq)]
pub enum Sight {
    /// Its version, and the number that it holds.
    Page(u64, u64),
    /// Another transaction held it. It was finished twice, and these were the answers.
    Busy(Tid, bool, bool),
    /// Something else was answered.
    Other,
}

/// Finishes a transaction twice.
#[tactic(auto, using(crate::proofs::Meeting::finished_known))]
fn finish_twice(
    alloc: Global,
    port: &mut Way,
    tid: Tid,
    home: u32,
    parts: &[u32],
) -> Result<Sight, StepFault>
    requires { IsKnown (port_of port.old) tid (record { home = home; parts = parts.now }) }
    ensures { IsOn (port_of port.old) (port_of port.new) }
{
    let first = finish(alloc, port, tid, home, parts)?;
    let second = finish(alloc, port, tid, home, parts)?;
    Ok(Sight::Busy(tid, first, second))
}

/// What an answer to a read lets the pass see.
fn seen(alloc: Global, port: &mut Way, answer: &Answer) -> Result<Sight, StepFault>
    requires { IsMet (port_of port.old) answer.now }
    ensures { IsOn (port_of port.old) (port_of port.new) }
{
    match answer {
        Answer::Page { version, content } => {
            Ok(Sight::Page(*version, value_of(content.as_slice())))
        }
        Answer::Busy {
            tid,
            home,
            parts,
            ..
        } => finish_twice(alloc, port, *tid, *home, parts.as_slice()),
        _ => Ok(Sight::Other),
    }
}

/// Reads a slot.
#[tactic(auto, using(crate::proofs::Meeting::retried_met))]
fn see(alloc: Global, port: &mut Way, slot: Slot) -> Result<Sight, StepFault>
    requires { slot.store < port.old.fabric.origin.stores }
    ensures { IsOn (port_of port.old) (port_of port.new) }
{
    let command = Command::Read {
        number: slot.number,
    };
    let answer = retry(port, slot.store, &command)?;
    seen(alloc, port, &answer)
}

/// What a pass sees of a slot: where another transaction holds it, it is finished. Where there is no such store, nothing
/// is asked.
pub fn look(
    alloc: Global,
    fabric: Stores,
    pass: u32,
    slot: Slot,
) -> (Stores, Result<Sight, StepFault>)
    ensures { IsLater fabric result.0 }
{
    if slot.store >= fabric.stores() {
        return (fabric, Err(StepFault::Stopped));
    }
    let mut port = OwnedPort::new(fabric, pass);
    let sight = see(alloc, &mut port, slot);
    (port.part(), sight)
}

/// What a store answers to `Fresh`, where it is a number.
fn next_of(answer: &Answer) -> Option<u64> {
    match answer {
        Answer::Fresh { number } => Some(*number),
        _ => None,
    }
}

fn ask_fresh(port: &mut Way, store: u32) -> Result<Option<u64>, StepFault>
    requires { store < port.old.fabric.origin.stores }
{
    let answer = retry(port, store, &Command::Fresh)?;
    Ok(next_of(&answer))
}

/// A number that the store never gave. Where there is no such store, nothing is asked.
pub fn fresh(fabric: Stores, pass: u32, store: u32) -> (Stores, Result<Option<u64>, StepFault>) {
    if store >= fabric.stores() {
        return (fabric, Err(StepFault::Stopped));
    }
    let mut port = OwnedPort::new(fabric, pass);
    let number = ask_fresh(&mut port, store);
    (port.part(), number)
}
