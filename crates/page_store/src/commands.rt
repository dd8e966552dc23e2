//! What each command does.

ghost use Rattle.std.specs.Prelude.{◌≡◌, ◌+◌, ◌≤◌, ◌^◌, IfOk, option_copied};
ghost use Rattle.page_types.specs.declared.command.Command.TheVariants.{Fresh, Read, Look};
ghost use Rattle.page_types.specs.Obeys.{IsFormed, page_answer, look_answer, versions_of};
ghost use Rattle.page_store.specs.Rows.{kept_at};
ghost use Rattle.page_store.specs.Keeps.{state, IsIndexed, IsBounded};
ghost use Rattle.page_store.specs.Steps.{seen, IsStep};

use crate::holds::{busy_by, writer_of};
use crate::look::View;
use crate::patch::{Patch, Step};
use crate::row::Row;
use nfs3_types::{ListOf, NoMemory};
use page_types::{Answer, Command};
use pair_types::Page;
use std::alloc::Global;

/// What a page holds.
fn page_of(row: Option<&Row>) -> Result<Answer, NoMemory>
    ensures { let kept = kept_at (option_copied row.entry) in
        IfOk result (λ answer. answer ≡ Answer.Page kept.version kept.content) }
{
    match row {
        Some(row) => Ok(Answer::Page {
            version: row.version,
            content: row.content.copy()?,
        }),
        None => Ok(Answer::Page {
            version: 0,
            content: Page::empty(),
        }),
    }
}

/// The answer to a Read of a page.
fn page_answer(alloc: Global, number: u64, row: Option<&Row>) -> Result<Answer, NoMemory>
    ensures { let kept = kept_at (option_copied row.entry) in
        IfOk result (λ answer. answer ≡ page_answer number kept kept.writer) }
{
    match writer_of(row) {
        Some(hold) => busy_by(alloc, number, hold),
        None => page_of(row),
    }
}

impl<'a> View<'a> {
    /// The versions of pages.
    fn versions(&self, alloc: Global, numbers: &[u64]) -> Result<ListOf<u64>, NoMemory>
        ensures { IfOk result
            (λ list. list ≡ versions_of (state (seen self.now)) numbers.now) }
    {
        let mut list = Vec::with_capacity(alloc, numbers.len())?;
        for number in numbers {
            list.push(self.version(*number))?;
        }
        Ok(ListOf::from_vec(list))
    }

    /// The answer to a Look at pages.
    fn look_answer(&self, alloc: Global, numbers: &[u64]) -> Result<Answer, NoMemory>
        ensures { IfOk result
            (λ answer. answer ≡ look_answer (state (seen self.now)) numbers.now) }
    {
        match self.first_held(alloc, numbers)? {
            Some(answer) => Ok(answer),
            None => Ok(Answer::Versions {
                versions: self.versions(alloc, numbers)?,
            }),
        }
    }

    /// What a Fresh does.
    fn fresh(&self, alloc: Global) -> Step
        requires { (seen self.now).next ≤ 2 ^ 63 + 1 }
        ensures { IsStep (seen self.now) Fresh result }
    {
        Step {
            patch: Patch {
                rows: Vec::new(alloc),
                party: None,
                next: self.over.next + 1,
            },
            answer: Answer::Fresh {
                number: self.over.next,
            },
        }
    }

    /// What a Read does.
    fn read(&self, alloc: Global, number: u64) -> Result<Step, NoMemory>
        ensures { IfOk result (IsStep (seen self.now) (Read number)) }
    {
        let answer = page_answer(alloc, number, self.row(number))?;
        Ok(self.only(alloc, answer))
    }

    /// What a Look does.
    fn look(&self, alloc: Global, numbers: &ListOf<u64>) -> Result<Step, NoMemory>
        ensures { IfOk result (IsStep (seen self.now) (Look numbers.now)) }
    {
        let answer = self.look_answer(alloc, numbers.as_slice())?;
        Ok(self.only(alloc, answer))
    }

    /// What a command does.
    pub fn obey(&self, alloc: Global, command: &Command) -> Result<Step, NoMemory>
        requires formed { IsFormed command.now }
        requires indexed { IsIndexed (seen self.now) }
        requires bounded { IsBounded (2 ^ 63 + 1) (state (seen self.now)) }
        ensures { IfOk result (IsStep (seen self.now) command.now) }
    {
        match command {
            Command::Fresh => Ok(self.fresh(alloc)),
            Command::Read { number } => self.read(alloc, *number),
            Command::Look(numbers) => self.look(alloc, numbers.get()),
            Command::Write(x) => self.write(alloc, x.get()),
            Command::Prepare(part) => self.prepare(alloc, part.get()),
            Command::Decide(decision) => self.decide(alloc, decision.get()),
            Command::Resolve(resolution) => self.resolve(alloc, *resolution.get()),
        }
    }
}
