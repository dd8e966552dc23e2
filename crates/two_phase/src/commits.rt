//! The commit of a transaction of one store, or of several.

ghost use Rattle.std.specs.Prelude.{◌≡◌, ◌≤◌, ℕ, List, [], ◌∷◌, length, IfOk, true, false, Option, None};
ghost use Rattle.nfs3_types.specs.declared.entry.Entry.{Entry};
ghost use Rattle.page_types.specs.declared.command.Command.TheVariants.{Write};
ghost use Rattle.page_types.specs.declared.answer.Answer.TheVariants.{Wrote};
ghost use Rattle.two_phase.specs.Parts.{stores_of, IsTransaction};
ghost use Rattle.two_phase.specs.Commits.{wrote_entry, as_commit, IsReady, Concludes, Commits};

use crate::closing::Commit;
use crate::crossing::met;
use crate::endings::{decide, finish, resolve_all};
use crate::parts::Part;
use crate::prepares::{Preparation, prepare_all};
use crate::tries::retry;
use nfs3_types::{Entry, NoMemory};
use page_types::{Answer, Command, Outcome, Port, Shared, Transaction};
use pair_types::{Cross, StepFault, Tid};
use std::alloc::Global;

fn alone(
    alloc: Global,
    tid: Tid,
    part: &Part,
    entry: Option<Shared<Entry>>,
) -> Result<Command, NoMemory>
    ensures { IfOk result (λ command. command ≡ Write
        (record { tid = tid; reads = part.now.reads; writes = part.now.writes; entry = entry })) }
{
    let reads = part.reads.copy(alloc)?;
    let writes = part.writes.copy(alloc)?;
    Command::write(
        alloc,
        Transaction {
            tid,
            reads,
            writes,
            entry,
        },
    )
}

fn is_wrote(answer: &Answer) -> bool
    ensures yes { result ≡ true → answer.now ≡ Wrote }
    ensures no { (served : Option Entry) → result ≡ false →
        wrote_entry served answer.now ≡ None }
{
    match answer {
        Answer::Wrote => true,
        _ => false,
    }
}

fn commit_alone<P: Port>(
    alloc: Global,
    port: &mut P,
    tid: Tid,
    part: &Part,
    entry: Option<Shared<Entry>>,
) -> Result<Commit, StepFault>
    requires { IsTransaction P.Rules.stands P.Rules.next (P.state port.old) tid (part.now ∷ []) entry }
    ensures { Commits (P.state port.old) (P.state port.new) tid (part.now ∷ []) entry (as_commit result) }
{
    let command = alone(alloc, tid, part, entry)?;
    let answer = retry(port, part.store, &command)?;
    if is_wrote(&answer) {
        return Ok(Commit::Done);
    }
    let cross = met(alloc, port, tid, part.store, &answer)?;
    Ok(Commit::Crossed(cross))
}

fn list_stores(alloc: Global, parts: &[Part]) -> Result<Vec<u32>, NoMemory>
    ensures { IfOk result (λ stores. stores.items ≡ stores_of parts.now) }
{
    let mut stores = Vec::with_capacity(alloc, parts.len())?;
    for part in parts {
        stores.push(part.store)?;
    }
    Ok(stores)
}

// All parts are prepared: the home decides, and each part ends as it decided.
fn commit_prepared<P: Port>(
    alloc: Global,
    port: &mut P,
    tid: Tid,
    home: u32,
    stores: &[u32],
    entry: Option<Shared<Entry>>,
) -> Result<Commit, StepFault>
    requires several { 2 ≤ length stores.now }
    requires ready { IsReady P.Rules.stands P.Rules.next (P.state port.old) tid
        (record { home = home; parts = stores.now }) entry }
    ensures { Concludes (P.state port.old) (P.state port.new) tid stores.now entry result }
{
    let committed = decide(alloc, port, home, tid, Outcome::Commit(entry))?;
    let ended = resolve_all(alloc, port, stores, tid, committed);
    if committed {
        return Ok(Commit::Done);
    }
    ended?;
    Ok(Commit::Crossed(Cross::Aborted { tid }))
}

fn commit_over<P: Port>(
    alloc: Global,
    port: &mut P,
    tid: Tid,
    stores: &[u32],
    parts: &[Part],
    entry: Option<Shared<Entry>>,
) -> Result<Commit, StepFault>
    requires several { 2 ≤ length stores.now }
    requires listed { stores.now ≡ stores_of parts.now }
    requires transaction { IsTransaction P.Rules.stands P.Rules.next (P.state port.old) tid parts.now entry }
    ensures { Commits (P.state port.old) (P.state port.new) tid parts.now entry (as_commit result) }
{
    let home = stores[0];
    let prepared = prepare_all(alloc, port, tid, home, stores, parts)?;
    match prepared {
        Preparation::Ready => commit_prepared(alloc, port, tid, home, stores, entry),
        Preparation::Refused { store, answer } => {
            let _commit = finish(alloc, port, tid, home, stores)?;
            let cross = met(alloc, port, tid, store, &answer)?;
            Ok(Commit::Crossed(cross))
        }
    }
}

fn commit_several<P: Port>(
    alloc: Global,
    port: &mut P,
    tid: Tid,
    parts: &[Part],
    entry: Option<Shared<Entry>>,
) -> Result<Commit, StepFault>
    requires several { 2 ≤ length parts.now }
    requires transaction { IsTransaction P.Rules.stands P.Rules.next (P.state port.old) tid parts.now entry }
    ensures { Commits (P.state port.old) (P.state port.new) tid parts.now entry (as_commit result) }
{
    let stores = list_stores(alloc, parts)?;
    commit_over(alloc, port, tid, &stores, parts, entry)
}

fn commit_parts<P: Port>(
    alloc: Global,
    port: &mut P,
    tid: Tid,
    parts: &[Part],
    entry: Option<Shared<Entry>>,
) -> Result<Commit, StepFault>
    requires { IsTransaction P.Rules.stands P.Rules.next (P.state port.old) tid parts.now entry }
    ensures { Commits (P.state port.old) (P.state port.new) tid parts.now entry (as_commit result) }
{
    if parts.len() == 1 {
        return commit_alone(alloc, port, tid, &parts[0], entry);
    }
    commit_several(alloc, port, tid, parts, entry)
}

/// Commits a transaction: one `Write` where it has one part; else a `Prepare` at each part in rising store, a
/// `Decide` at the lowest, and a `Resolve` at each.
pub fn commit<P: Port>(
    alloc: Global,
    port: &mut P,
    tid: Tid,
    parts: &[Part],
    entry: Option<Shared<Entry>>,
) -> Commit
    requires { IsTransaction P.Rules.stands P.Rules.next (P.state port.old) tid parts.now entry }
    ensures { Commits (P.state port.old) (P.state port.new) tid parts.now entry result }
{
    match commit_parts(alloc, port, tid, parts, entry) {
        Ok(commit) => commit,
        Err(fault) => Commit::Fault(fault),
    }
}
