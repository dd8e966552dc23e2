//! What a transaction asks of the stores on the way.

ghost use Rattle.std.specs.Prelude.{◌≡◌, ℕ, ◌<◌, ◌≤◌, List, [], ◌∷◌, length, true, false, IfOk, MatchResult, ⊤};
ghost use Rattle.page_types.specs.declared.command.Command.TheVariants.{Look};
ghost use Rattle.page_types.specs.declared.answer.Answer.TheVariants.{Versions};
ghost use Rattle.two_phase.specs.Commits.{IsMet};
ghost use Rattle.page_txn.specs.Since.{WasAnswered};
ghost use Rattle.page_txn.specs.Asking.{IsPageAnswer, is_page, is_versions, Asks, Refuses, IsRead, IsFresh};

use crate::row::{Row, row_of};
use nfs3_types::{ListOf, NoMemory};
use page_types::{Answer, Command, Port};
use pair_types::{PageFault, Slot, StepFault, Tid};
use std::alloc::Global;
use std::collections::BTreeMap;
use steady_port::Steady;
use two_phase::{met, retry};

// What was read, or the answer that is no page.
fn page_in(answer: Answer) -> Result<Row, Answer>
    ensures { MatchResult result (λ row. IsPageAnswer answer row)
        (λ other. (other ≡ answer) × (is_page answer ≡ false)) }
{
    match answer {
        Answer::Page { version, content } => Ok(row_of(version, content)),
        answer => Err(answer),
    }
}

fn first_in(versions: &ListOf<u64>) -> u64
    requires { 1 ≤ length versions.now }
    ensures { (version : ℕ) → versions.now ≡ version ∷ [] → result ≡ version }
{
    versions.as_slice()[0]
}

// The version that was answered, or the answer that has none.
fn version_in(answer: Answer) -> Result<u64, Answer>
    requires { (versions : List ℕ) → answer ≡ Versions versions → length versions ≡ 1 }
    ensures { MatchResult result (λ version. answer ≡ Versions (version ∷ []))
        (λ other. (other ≡ answer) × (is_versions answer ≡ false)) }
{
    match answer {
        Answer::Versions { versions } => Ok(first_in(&versions)),
        answer => Err(answer),
    }
}

fn number_in(answer: &Answer) -> u64 {
    match answer {
        Answer::Fresh { number } => *number,
        _ => 0,
    }
}

fn look_one(alloc: Global, number: u64) -> Result<Command, NoMemory>
    ensures { IfOk result (λ command. command ≡ Look (number ∷ [])) }
{
    Command::look(alloc, ListOf::from_vec(vec![in alloc; number]?))
}

// Finishes what is in the way.
fn refused<P: Port>(alloc: Global, port: &mut P, tid: Tid, store: u32, answer: Answer) -> PageFault
    requires { IsMet (P.state port.old) answer }
    ensures { Refuses (P.state port.old) (P.state port.new) tid store answer result }
{
    match met(alloc, port, tid, store, &answer) {
        Ok(cross) => PageFault::Crossed(cross),
        Err(fault) => PageFault::Step(fault),
    }
}

/// Asks for the page in a slot. What is in the way is finished first.
pub(crate) fn read_slot<P: Steady>(
    alloc: Global,
    port: &mut P,
    tid: Tid,
    s: Slot,
) -> Result<Row, PageFault>
    requires { s.store < (P.state port.old).origin.stores }
    ensures { Asks (IsRead (P.state port.new).mine s) tid (P.state port.old) (P.state port.new) result }
{
    let command = Command::Read { number: s.number };
    let answer = retry(port, s.store, &command)?;
    match page_in(answer) {
        Ok(row) => Ok(row),
        Err(answer) => Err(refused(alloc, port, tid, s.store, answer)),
    }
}

// Asks for the version of a slot. What is in the way is finished first.
fn look_at<P: Port>(alloc: Global, port: &mut P, tid: Tid, s: Slot) -> Result<u64, PageFault>
    requires { s.store < (P.state port.old).origin.stores }
    ensures { Asks (WasAnswered s) tid (P.state port.old) (P.state port.new) result }
{
    let command = look_one(alloc, s.number)?;
    let answer = retry(port, s.store, &command)?;
    match version_in(answer) {
        Ok(version) => Ok(version),
        Err(answer) => Err(refused(alloc, port, tid, s.store, answer)),
    }
}

// Asks for a number that was never given.
fn draw<P: Port>(port: &mut P, tid: Tid, store: u32) -> Result<u64, PageFault>
    requires { store < (P.state port.old).origin.stores }
    ensures { Asks (λ number part. ⊤) tid (P.state port.old) (P.state port.new) result }
{
    let answer = retry(port, store, &Command::Fresh)?;
    Ok(number_in(&answer))
}

// A slot of a number that was given, and whether it is known to be absent and is of no row.
fn draw_slot<P: Port>(
    alloc: Global,
    port: &mut P,
    tid: Tid,
    rows: &BTreeMap<(u32, u64), Row>,
    store: u32,
) -> Result<(Slot, bool), PageFault>
    requires { store < (P.state port.old).origin.stores }
    ensures { Asks (λ drawn part. drawn.1 ≡ true → IsFresh rows.now store drawn.0 part) tid
        (P.state port.old) (P.state port.new) result }
{
    let number = draw(port, tid, store)?;
    let s = Slot { store, number };
    if rows.contains_key(&(store, number)) {
        return Ok((s, false));
    }
    let version = look_at(alloc, port, tid, s)?;
    Ok((s, version == 0))
}

/// Finds a slot of a store that is of no row, and that is absent.
pub(crate) fn fresh_slot<P: Port>(
    alloc: Global,
    port: &mut P,
    tid: Tid,
    rows: &BTreeMap<(u32, u64), Row>,
    store: u32,
) -> Result<Slot, PageFault>
    requires { store < (P.state port.old).origin.stores }
    ensures { Asks (IsFresh rows.now store) tid (P.state port.old) (P.state port.new) result }
{
    for _turn in 0..u64::MAX {
        let drawn = draw_slot(alloc, port, tid, rows, store)?;
        if drawn.1 {
            return Ok(drawn.0);
        }
    }
    // A pass has fewer steps than that.
    Err(PageFault::Step(StepFault::NoMemory))
}
