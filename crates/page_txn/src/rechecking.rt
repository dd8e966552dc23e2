//! Whether what was read is still so.

ghost use Rattle.std.specs.Prelude.{◌≡◌, [], ◌∷◌, false, length, IfOk, MatchResult, None};
ghost use Rattle.std.specs.List.{Contains};
ghost use Rattle.page_types.specs.declared.command.Command.TheVariants.{Look, Write};
ghost use Rattle.page_types.specs.declared.answer.Answer.TheVariants.{Versions};
ghost use Rattle.two_phase.specs.declared.parts.Part.{Part};
ghost use Rattle.two_phase.specs.Commits.{IsMet};
ghost use Rattle.page_txn.specs.Asking.{is_versions};
ghost use Rattle.page_txn.specs.Rechecks.{numbers_of, first_changed, one_read, MayLook, MayRecheck, MeetsSome, AsksWriter};
ghost use Rattle.page_txn.specs.Rechecks.{Compares, RechecksPart, RechecksParts, Rechecks};

use crate::parts::parts_of;
use crate::row::Row;
use nfs3_types::{ListOf, NoMemory};
use page_types::{Answer, Command, PageRead, Port, Transaction};
use pair_types::{Cross, StepFault, Tid};
use std::alloc::Global;
use std::collections::BTreeMap;
use two_phase::{Part, met, retry};

fn look_all(alloc: Global, reads: &[PageRead]) -> Result<Command, NoMemory>
    ensures { IfOk result (λ command. command ≡ Look (numbers_of reads.now)) }
{
    let mut numbers = Vec::with_capacity(alloc, reads.len())?;
    for read in reads {
        numbers.push(read.number)?;
    }
    Command::look(alloc, ListOf::from_vec(numbers))
}

// The versions that were answered, or the answer that has none.
fn versions_in(answer: Answer) -> Result<ListOf<u64>, Answer>
    ensures { MatchResult result (λ versions. answer ≡ Versions versions)
        (λ other. (other ≡ answer) × (is_versions answer ≡ false)) }
{
    match answer {
        Answer::Versions { versions } => Ok(versions),
        answer => Err(answer),
    }
}

// The first page that has another version than the one that was read.
fn other_version(reads: &[PageRead], versions: &[u64]) -> Option<PageRead>
    requires { length versions.now ≡ length reads.now }
    ensures { result ≡ first_changed reads.now versions.now }
{
    for i in 0..reads.len() {
        let read = reads[i];
        if read.version != versions[i] {
            return Some(read);
        }
    }
    None
}

// A Write that reads this page and writes nothing.
fn confirming(alloc: Global, tid: Tid, read: PageRead) -> Result<Command, NoMemory>
    ensures { IfOk result (λ command. command ≡ Write
        (record { tid = tid; reads = read ∷ []; writes = []; entry = None })) }
{
    let reads = ListOf::from_vec(vec![in alloc; read]?);
    let writes = ListOf::new(alloc);
    Command::write(
        alloc,
        Transaction {
            tid,
            reads,
            writes,
            entry: None,
        },
    )
}

// Finishes what is in the way.
fn meet<P: Port>(
    alloc: Global,
    port: &mut P,
    tid: Tid,
    store: u32,
    answer: &Answer,
) -> Result<Option<Cross>, StepFault>
    requires { IsMet (P.state port.old) answer.now }
    ensures { MeetsSome (P.state port.old) (P.state port.new) tid store answer.now result }
{
    match met(alloc, port, tid, store, answer) {
        Ok(crossed) => Ok(Some(crossed)),
        Err(fault) => Err(fault),
    }
}

// Asks who wrote a page that has another version than the one that was read.
fn ask_writer<P: Port>(
    alloc: Global,
    port: &mut P,
    tid: Tid,
    store: u32,
    read: PageRead,
) -> Result<Option<Cross>, StepFault>
    requires { MayLook (P.state port.old) tid (one_read store read) }
    ensures { AsksWriter (P.state port.old) (P.state port.new) tid result }
{
    let command = confirming(alloc, tid, read)?;
    let answer = retry(port, store, &command)?;
    meet(alloc, port, tid, store, &answer)
}

// Compares the versions that were answered with those that were read.
fn compare<P: Port>(
    alloc: Global,
    port: &mut P,
    tid: Tid,
    part: &Part,
    versions: &[u64],
) -> Result<Option<Cross>, StepFault>
    requires may { MayLook (P.state port.old) tid part.now }
    requires long { length versions.now ≡ length part.now.reads }
    ensures { Compares (P.state port.old) (P.state port.new) tid
        (first_changed part.now.reads versions.now) result }
{
    match other_version(part.reads.as_slice(), versions) {
        Some(read) => ask_writer(alloc, port, tid, part.store, read),
        None => Ok(None),
    }
}

// Looks at what was read of a store.
fn recheck_part<P: Port>(
    alloc: Global,
    port: &mut P,
    tid: Tid,
    part: &Part,
) -> Result<Option<Cross>, StepFault>
    requires { MayLook (P.state port.old) tid part.now }
    ensures { RechecksPart (P.state port.old) (P.state port.new) tid part.now result }
{
    let command = look_all(alloc, part.reads.as_slice())?;
    let answer = retry(port, part.store, &command)?;
    match versions_in(answer) {
        Ok(versions) => {
            let listed = versions.as_slice();
            compare(alloc, port, tid, part, listed)
        }
        Err(answer) => meet(alloc, port, tid, part.store, &answer),
    }
}

fn recheck_parts<P: Port>(
    alloc: Global,
    port: &mut P,
    tid: Tid,
    parts: &[Part],
) -> Result<Option<Cross>, StepFault>
    requires { (part : Part) → Contains parts.now part → MayLook (P.state port.old) tid part }
    ensures { RechecksParts (P.state port.old) (P.state port.new) tid parts.now result }
{
    for part in parts {
        let found = recheck_part(alloc, port, tid, part)?;
        if found.is_some() {
            return Ok(found);
        }
    }
    Ok(None)
}

/// Looks at what the rows say that was read.
pub(crate) fn recheck_rows<P: Port>(
    alloc: Global,
    port: &mut P,
    tid: Tid,
    rows: &BTreeMap<(u32, u64), Row>,
) -> Result<Option<Cross>, StepFault>
    requires { MayRecheck (P.state port.old) tid rows.now }
    ensures { Rechecks (P.state port.old) (P.state port.new) tid rows.now result }
{
    let _in_order = rows.len();
    let stores = port.stores();
    match parts_of(alloc, rows, stores) {
        Ok(parts) => recheck_parts(alloc, port, tid, &parts),
        Err(_lacking) => Err(StepFault::NoMemory),
    }
}
