//! The store.

ghost use Rattle.std.specs.Prelude.{◌≡◌, ℕ, ◌+◌, ◌<◌, ◌≤◌, ◌^◌, Option, None, IfOk, OnOk, OnErr, option_copied, is_some};
ghost use Rattle.std.specs.Prelude.{if◌then◌else◌};
ghost use Rattle.page_store.specs.Keeps.{state, first_keeps, IsIndexed, IsBounded};
ghost use Rattle.page_store.specs.Rows.{row_of};
ghost use Rattle.page_store.specs.Steps.{keeps_of};
ghost use Rattle.page_types.specs.Stores.{first_written};

use crate::look::View;
use crate::patch::{First, Patch};
use crate::row::{Change, Row};
use crate::shelf::Shelf;
use nfs3_types::NoMemory;
use page_types::{Answer, Command, Outcome};
use pair_types::{Page, Tid};
use std::alloc::Global;

/// A store: it keeps versioned pages, the holds on them, and how transactions were decided. A contract sees
/// its state, and how many commands it obeyed.
#[derive(Drop)]
pub struct Store {
    shelf: Shelf,
    obeyed: u64,
    ghost indexed: { IsIndexed (keeps_of shelf) },
    ghost bounded: { IsBounded (obeyed + 1) (state (keeps_of shelf)) },
}

/// What a store will do at one command, or at two, with the memory that it takes.
#[derive(Drop)]
pub struct Plan {
    /// What the first command is answered, where there is one.
    pub first: Option<Answer>,
    /// What the second command is answered.
    pub second: Answer,
    first_patch: Patch,
    second_patch: Patch,
}

/// The change that puts the first page into slot 0.
fn first_change(alloc: Global, page: Page) -> Change
    ensures { result ≡ record { number = 0; row = row_of (first_written page) } }
{
    let mut row = Row::blank(alloc);
    row.version = 1;
    row.content = page;
    Change { number: 0, row }
}

/// What is kept where the first page, if there is one, lies in slot 0.
fn first_shelf(alloc: Global, first: Option<Page>) -> Result<Shelf, NoMemory>
    ensures kept { IfOk result (λ shelf. keeps_of shelf ≡ first_keeps first) }
{
    let mut shelf = Shelf::new(alloc);
    let Some(page) = first else {
        return Ok(shelf);
    };
    let mut rows = Vec::with_capacity(alloc, 1)?;
    rows.push(first_change(alloc, page))?;
    let patch = Patch {
        rows,
        party: None,
        next: 1,
    };
    shelf.make_room(alloc, &patch)?;
    shelf.adopt(patch);
    Ok(shelf)
}

/// How many commands have these answers.
fn count(answer: &Option<Answer>) -> u64
    ensures { result ≡ (if is_some answer.now then 1 else 0) }
{
    match answer {
        Some(_) => 1,
        None => 0,
    }
}

impl Store {
    ghost use Rattle.page_types.specs.Stores.{first_state};
    ghost use Rattle.page_types.specs.Obeys.{answer_of, after, IsFormed};
    ghost use Rattle.page_types.specs.declared.command.Command.{Command};
    ghost use Rattle.page_store.specs.Shown.{state_of, obeyed_of, after_maybe, answer_maybe, AreFormed, IsFirst, IsPlan};
    ghost use Rattle.page_store.specs.Shown.{number_of};

    /// A store that obeyed nothing. Where there is a first page, it lies in slot 0 at version 1.
    pub fn new(alloc: Global, first: Option<Page>) -> Result<Store, NoMemory>
        ensures state { IfOk result (λ store. state_of store ≡ first_state first) }
        ensures obeyed { IfOk result (λ store. obeyed_of store ≡ 0) }
    {
        Ok(Store {
            shelf: first_shelf(alloc, first)?,
            obeyed: 0,
        })
    }

    /// Obeys a command.
    pub fn obey(&mut self, alloc: Global, command: &Command) -> Result<Answer, NoMemory>
        requires obeyed { obeyed_of self.old < 2 ^ 63 }
        requires formed { IsFormed command.now }
        ensures answer { IfOk result (λ answer. answer ≡ answer_of (state_of self.old) command.now) }
        ensures after { OnOk result (state_of self.new ≡ after (state_of self.old) command.now) }
        ensures one_more { OnOk result (obeyed_of self.new ≡ obeyed_of self.old + 1) }
        ensures same { OnErr result (state_of self.new ≡ state_of self.old) }
        ensures same_obeyed { OnErr result (obeyed_of self.new ≡ obeyed_of self.old) }
    {
        let none = Patch::none(alloc, self.shelf.next);
        let view = View {
            shelf: &self.shelf,
            over: &none,
        };
        let step = view.obey(alloc, command)?;
        self.shelf.make_room(alloc, &step.patch)?;
        self.shelf.adopt(step.patch);
        self.obeyed += 1;
        Ok(step.answer)
    }

    /// What the first command does, where there is one.
    fn first_step(&self, alloc: Global, first: Option<&Command>) -> Result<First, NoMemory>
        requires obeyed { obeyed_of self.now < 2 ^ 63 }
        requires formed { AreFormed (option_copied first) }
        ensures { IfOk result (IsFirst self.now.shelf (option_copied first.entry)) }
    {
        let none = Patch::none(alloc, self.shelf.next);
        let Some(command) = first else {
            return Ok(First {
                patch: none,
                answer: None,
            });
        };
        let view = View {
            shelf: &self.shelf,
            over: &none,
        };
        let step = view.obey(alloc, command)?;
        Ok(First {
            patch: step.patch,
            answer: Some(step.answer),
        })
    }

    /// Takes the memory for obeying these commands in this order, and tells their answers. The state stays.
    pub fn plan(
        &mut self,
        alloc: Global,
        first: Option<&Command>,
        second: &Command,
    ) -> Result<Plan, NoMemory>
        requires obeyed { obeyed_of self.old < 2 ^ 63 }
        requires first { AreFormed (option_copied first) }
        requires second { IsFormed second.now }
        ensures plan { IfOk result (IsPlan self.new (option_copied first.entry) second.now) }
        ensures same { state_of self.new ≡ state_of self.old }
        ensures obeyed { obeyed_of self.new ≡ obeyed_of self.old }
    {
        let before = self.first_step(alloc, first)?;
        let view = View {
            shelf: &self.shelf,
            over: &before.patch,
        };
        let step = view.obey(alloc, second)?;
        self.shelf.make_room(alloc, &before.patch)?;
        self.shelf.make_room(alloc, &step.patch)?;
        Ok(Plan {
            first: before.answer,
            second: step.answer,
            first_patch: before.patch,
            second_patch: step.patch,
        })
    }

    /// Obeys the first command of a plan, where there is one. It takes no memory.
    pub fn adopt_first(&mut self, plan: Plan) -> Option<Answer>
        requires { (first : Option Command) × (second : Command) × IsPlan self.old first second plan }
        ensures answer { (first : Option Command) → (second : Command) → IsPlan self.old first second plan →
            result ≡ answer_maybe (state_of self.old) first }
        ensures after { (first : Option Command) → (second : Command) → IsPlan self.old first second plan →
            state_of self.new ≡ after_maybe (state_of self.old) first }
        ensures obeyed { (first : Option Command) → (second : Command) → IsPlan self.old first second plan →
            obeyed_of self.new ≡ obeyed_of self.old + number_of first }
    {
        let Plan {
            first,
            second: _second,
            first_patch,
            second_patch: _second_patch,
        } = plan;
        self.obeyed += count(&first);
        self.shelf.adopt(first_patch);
        first
    }

    /// Obeys the commands of a plan, and gives their answers. It takes no memory.
    pub fn adopt_both(&mut self, plan: Plan) -> (Option<Answer>, Answer)
        requires { (first : Option Command) × (second : Command) × IsPlan self.old first second plan }
        ensures first { (first : Option Command) → (second : Command) → IsPlan self.old first second plan →
            result.0 ≡ answer_maybe (state_of self.old) first }
        ensures second { (first : Option Command) → (second : Command) → IsPlan self.old first second plan →
            result.1 ≡ answer_of (after_maybe (state_of self.old) first) second }
        ensures after { (first : Option Command) → (second : Command) → IsPlan self.old first second plan →
            state_of self.new ≡ after (after_maybe (state_of self.old) first) second }
        ensures obeyed { (first : Option Command) → (second : Command) → IsPlan self.old first second plan →
            obeyed_of self.new ≡ obeyed_of self.old + number_of first + 1 }
    {
        let Plan {
            first,
            second,
            first_patch,
            second_patch,
        } = plan;
        self.obeyed += count(&first) + 1;
        self.shelf.adopt(first_patch);
        self.shelf.adopt(second_patch);
        (first, second)
    }

    /// The version of a page; 0 where it was never written.
    pub fn version(&self, number: u64) -> u64
        ensures { result ≡ ((state_of self.now).slot number).version }
    {
        match self.shelf.row(number) {
            Some(row) => row.version,
            None => 0,
        }
    }

    /// What a page holds; nothing where it was never written.
    pub fn content(&self, number: u64) -> &[u8]
        ensures { result.now ≡ ((state_of self.now).slot number).content }
    {
        match self.shelf.row(number) {
            Some(row) => row.content.as_slice(),
            None => &[],
        }
    }

    /// How a transaction was decided here.
    pub fn decision(&self, tid: Tid) -> Option<&Outcome>
        ensures { option_copied result ≡ (state_of self.now).decided tid }
    {
        self.shelf.party(tid)?.outcome.as_ref()
    }

    /// How many commands it obeyed. No version and no next number is above that by more than one.
    pub fn obeyed(&self) -> u64
        ensures obeyed { result ≡ obeyed_of self.now }
        ensures versions { (number : ℕ) → ((state_of self.now).slot number).version ≤ obeyed_of self.now + 1 }
        ensures next { (state_of self.now).next ≤ obeyed_of self.now + 1 }
    {
        self.obeyed
    }
}
