//! What Writes, Prepares and Decides do.

ghost use Rattle.std.specs.Prelude.{◌≡◌, ℕ, ◌+◌, ◌≤◌, ◌^◌, ◌++◌, map, Some, None, IfOk, IfSome, option_map, option_copied};
ghost use Rattle.std.specs.Prelude.{if◌then◌else◌};
ghost use Rattle.page_types.specs.declared.command.Command.TheVariants.{Write, Prepare, Decide};
ghost use Rattle.page_types.specs.declared.versions.PageRead.{PageRead};
ghost use Rattle.page_types.specs.declared.answer.Answer.TheVariants.{Ended};
ghost use Rattle.page_types.specs.Accesses.{AreAccesses};
ghost use Rattle.page_types.specs.Asked.{first_of};
ghost use Rattle.page_types.specs.Obeys.{busy, conflict, own_hold, hold_of, decided_answer, refused_write, write_refusal};
ghost use Rattle.page_types.specs.Obeys.{prepare_refusal};
ghost use Rattle.page_store.specs.Keeps.{patched, state};
ghost use Rattle.page_store.specs.Steps.{seen, under, IsStep};
ghost use Rattle.page_store.specs.Changes.{write_change, hold_change, settled_write};

use crate::holds::content_of;
use crate::look::View;
use crate::party::{Involved, Party, copy_party};
use crate::patch::{Patch, Step};
use crate::row::{Change, held_row, written_row};
use nfs3_types::{Copies, ListOf, NoMemory};
use page_types::{
    Answer, Decision, Hold, Outcome, PageRead, PageWrite, Part, Shared, Transaction, copy_entry,
};
use pair_types::Tid;
use std::alloc::Global;

/// These numbers, and then those of pages that were read.
fn with_numbers(alloc: Global, numbers: &[u64], reads: &[PageRead]) -> Result<ListOf<u64>, NoMemory>
    ensures { IfOk result
        (λ list. list ≡ numbers.now ++ map (λ (r : PageRead). r.number) reads.now) }
{
    let mut list = Vec::from_slice(alloc, numbers)?;
    for read in reads {
        list.push(read.number)?;
    }
    Ok(ListOf::from_vec(list))
}

/// What is answered where the part has ended.
fn ended_answer(ended: bool) -> Option<Answer>
    ensures { result ≡ (if ended then Some Ended else None) }
{
    if ended { Some(Answer::Ended) } else { None }
}

/// What a Write answers where its transaction was decided here, or its part has ended.
fn write_settled(outcome: Option<&Outcome>, ended: bool) -> Option<Answer>
    ensures { result ≡ settled_write (option_copied outcome.entry) ended }
{
    match outcome {
        Some(Outcome::Commit(_)) => Some(Answer::Wrote),
        Some(Outcome::Abort) => Some(Answer::Decided {
            outcome: Outcome::Abort,
        }),
        None => ended_answer(ended),
    }
}

/// The hold of a part.
fn hold_of(alloc: Global, part: &Part) -> Result<Shared<Hold>, NoMemory>
    ensures { IfOk result (λ hold. hold ≡ hold_of part.now) }
{
    let hold = Hold {
        tid: part.tid,
        home: part.home,
        parts: ListOf::from_vec(Vec::from_slice(alloc, part.parts.as_slice())?),
    };
    Ok(Shared::new(alloc, hold)?)
}

impl<'a> View<'a> {
    /// A step that answers, and changes nothing.
    pub fn only(&self, alloc: Global, answer: Answer) -> Step
        ensures answer { result.answer ≡ answer }
        ensures nothing { under result.patch (seen self.now) ≡ seen self.now }
    {
        Step {
            patch: Patch {
                rows: Vec::new(alloc),
                party: None,
                next: self.over.next,
            },
            answer,
        }
    }

    /// A step that answers, and changes rows and what is kept of a transaction.
    pub fn all(&self, rows: Vec<Change>, tid: Tid, party: Party, answer: Answer) -> Step
        ensures answer { result.answer ≡ answer }
        ensures patch { under result.patch (seen self.now)
            ≡ patched rows.items (Some (record { tid = tid; party = party })) (seen self.now).next (seen self.now) }
    {
        Step {
            patch: Patch {
                rows,
                party: Some(Involved { tid, party }),
                next: self.over.next,
            },
            answer,
        }
    }

    /// That something stands in the way of reads and writes: a hold, else a version.
    fn crossed(
        &self,
        alloc: Global,
        tid: Tid,
        reads: &[PageRead],
        writes: &[PageWrite],
    ) -> Result<Option<Answer>, NoMemory>
        ensures answer { let s = state (seen self.now) in IfOk result
            (λ answer. answer ≡ first_of (busy s tid reads.now writes.now) (conflict s reads.now)) }
        ensures plain { IfOk result (λ answer. IfSome answer (λ a. refused_write a ≡ a)) }
    {
        match self.busy(alloc, tid, reads, writes)? {
            Some(answer) => Ok(Some(answer)),
            None => Ok(self.conflict(reads)),
        }
    }

    /// Why a Write changes nothing, as it is answered.
    fn write_refused(&self, alloc: Global, x: &Transaction) -> Result<Option<Answer>, NoMemory>
        ensures { IfOk result
            (λ answer. answer ≡ option_map refused_write (write_refusal (state (seen self.now)) x.now)) }
    {
        match write_settled(self.outcome(x.tid), self.has_ended(x.tid)) {
            Some(answer) => Ok(Some(answer)),
            None => self.crossed(alloc, x.tid, x.reads.as_slice(), x.writes.as_slice()),
        }
    }

    /// The rows that a Write changes.
    fn written_rows(&self, alloc: Global, x: &Transaction) -> Result<Vec<Change>, NoMemory>
        requires { (number : ℕ) → ((seen self.now).slot number).version ≤ 2 ^ 63 + 1 }
        ensures { IfOk result
            (λ rows. rows.items ≡ map (write_change (seen self.now) x.now.tid) x.now.writes) }
    {
        let mut rows = Vec::with_capacity(alloc, x.writes.len())?;
        for write in x.writes.as_slice() {
            let row = written_row(alloc, self.row(write.number), x.tid, &write.content)?;
            rows.push(Change {
                number: write.number,
                row,
            })?;
        }
        Ok(rows)
    }

    /// What is kept of a transaction once it is decided.
    fn decided_party(&self, alloc: Global, tid: Tid, outcome: Outcome) -> Result<Party, NoMemory>
        ensures { IfOk result
            (λ party. party ≡ record ((seen self.now).party tid) { outcome = Some outcome }) }
    {
        let mut party = copy_party(alloc, self.party(tid))?;
        party.outcome = Some(outcome);
        Ok(party)
    }

    /// What a Write does.
    pub fn write(&self, alloc: Global, x: &Transaction) -> Result<Step, NoMemory>
        requires { (number : ℕ) → ((seen self.now).slot number).version ≤ 2 ^ 63 + 1 }
        ensures { IfOk result (IsStep (seen self.now) (Write x.now)) }
    {
        if let Some(answer) = self.write_refused(alloc, x)? {
            return Ok(self.only(alloc, answer));
        }
        let rows = self.written_rows(alloc, x)?;
        let outcome = Outcome::Commit(copy_entry(alloc, &x.entry)?);
        let party = self.decided_party(alloc, x.tid, outcome)?;
        Ok(self.all(rows, x.tid, party, Answer::Wrote))
    }

    /// What a Prepare or a Decide answers where its transaction was decided here.
    fn decided(&self, alloc: Global, tid: Tid) -> Result<Option<Answer>, NoMemory>
        ensures { IfOk result
            (λ answer. answer ≡ decided_answer ((seen self.now).party tid).outcome) }
    {
        match self.outcome(tid) {
            Some(outcome) => Ok(Some(Answer::Decided {
                outcome: outcome.copy(alloc)?,
            })),
            None => Ok(None),
        }
    }

    /// What a Prepare answers where its part has ended, or is prepared already.
    fn ended_or_prepared(&self, part: &Part) -> Option<Answer>
        ensures { let s = state (seen self.now) in result
            ≡ first_of (if s.ended part.now.tid then Some Ended else None) (own_hold s part.now.tid part.now.reads) }
    {
        if self.has_ended(part.tid) {
            return Some(Answer::Ended);
        }
        if self.is_prepared(part.tid, part.reads.as_slice()) {
            return Some(Answer::Prepared);
        }
        None
    }

    /// Why a Prepare changes nothing.
    fn prepare_refused(&self, alloc: Global, part: &Part) -> Result<Option<Answer>, NoMemory>
        ensures { IfOk result
            (λ answer. answer ≡ prepare_refusal (state (seen self.now)) part.now) }
    {
        if let Some(answer) = self.decided(alloc, part.tid)? {
            return Ok(Some(answer));
        }
        if let Some(answer) = self.ended_or_prepared(part) {
            return Ok(Some(answer));
        }
        self.crossed(
            alloc,
            part.tid,
            part.reads.as_slice(),
            part.writes.as_slice(),
        )
    }

    /// The rows that a Prepare changes.
    fn held_rows(&self, alloc: Global, part: &Part) -> Result<Vec<Change>, NoMemory>
        ensures { IfOk result
            (λ rows. rows.items ≡ map (hold_change (seen self.now) part.now) part.now.reads) }
    {
        let hold = hold_of(alloc, part)?;
        let mut rows = Vec::with_capacity(alloc, part.reads.len())?;
        for read in part.reads.as_slice() {
            let content = content_of(part.writes.as_slice(), read.number);
            let row = held_row(alloc, self.row(read.number), &hold, content)?;
            rows.push(Change {
                number: read.number,
                row,
            })?;
        }
        Ok(rows)
    }

    /// What is kept of a transaction once it has holds on the pages that it read.
    fn holding_party(&self, alloc: Global, part: &Part) -> Result<Party, NoMemory>
        ensures { let old = (seen self.now).party part.now.tid in IfOk result
            (λ party. party ≡ record old { numbers = old.numbers ++ map (λ (r : PageRead). r.number) part.now.reads }) }
    {
        let mut party = copy_party(alloc, self.party(part.tid))?;
        party.numbers = with_numbers(alloc, party.numbers.as_slice(), part.reads.as_slice())?;
        Ok(party)
    }

    /// What a Prepare does.
    pub fn prepare(&self, alloc: Global, part: &Part) -> Result<Step, NoMemory>
        requires { AreAccesses part.now.reads part.now.writes }
        ensures { IfOk result (IsStep (seen self.now) (Prepare part.now)) }
    {
        if let Some(answer) = self.prepare_refused(alloc, part)? {
            return Ok(self.only(alloc, answer));
        }
        let rows = self.held_rows(alloc, part)?;
        let party = self.holding_party(alloc, part)?;
        Ok(self.all(rows, part.tid, party, Answer::Prepared))
    }

    /// What a Decide does.
    pub fn decide(&self, alloc: Global, decision: &Decision) -> Result<Step, NoMemory>
        ensures { IfOk result (IsStep (seen self.now) (Decide decision.now)) }
    {
        if let Some(answer) = self.decided(alloc, decision.tid)? {
            return Ok(self.only(alloc, answer));
        }
        let outcome = decision.outcome.copy(alloc)?;
        let answer = Answer::Decided {
            outcome: outcome.copy(alloc)?,
        };
        let party = self.decided_party(alloc, decision.tid, outcome)?;
        Ok(self.all(Vec::new(alloc), decision.tid, party, answer))
    }
}
