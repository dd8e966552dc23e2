//! What a step will do.

ghost use Rattle.std.specs.Prelude.{◌≡◌, IfOk, option_copied, option_map};
ghost use Rattle.page_types.specs.declared.answer.Answer.{Answer};
ghost use Rattle.page_types.specs.declared.command.Command.{Command};

use nfs3_types::{Copies, NoMemory};
use page_store::Plan;
use page_types::{Answer, Command};
use std::alloc::Global;

/// What a step will do, with the memory that its store needs for it.
#[derive(Drop)]
pub struct Ready {
    pub(crate) late: Option<Command>,
    pub(crate) plan: Plan,
}

/// An equal command, where there is one.
pub(crate) fn copy_of(alloc: Global, command: Option<&Command>) -> Result<Option<Command>, NoMemory>
    ensures { IfOk result (λ copy. copy ≡ option_copied command.entry) }
{
    match command {
        Some(command) => Ok(Some(command.copy(alloc)?)),
        None => Ok(None),
    }
}

/// A command with its answer, where both are there.
fn with_answer<'a>(
    command: &'a Command,
    answer: &'a Option<Answer>,
) -> Option<(&'a Command, &'a Answer)>
    ensures { option_map {U = Command × Answer} (λ p. (p.0.now, p.1.now)) result
        ≡ option_map {U = Command × Answer} (λ a. (command.now, a)) answer.now }
{
    match answer {
        Some(answer) => Some((command, answer)),
        None => None,
    }
}

impl Ready {
    ghost use Rattle.page_types.specs.Obeys.{answer_of};
    ghost use Rattle.page_store.specs.Shown.{after_maybe};
    ghost use Rattle.store_group.specs.Behind.{Behind, late_of};
    ghost use Rattle.store_group.specs.Readies.{IsReadyFor};

    /// The pending command and what it would be answered, where one is pending.
    pub fn late(&self) -> Option<(&Command, &Answer)>
        ensures { (old : Behind) (command : Command) → IsReadyFor old command self.now →
            option_map {U = Command × Answer} (λ p. (p.0.now, p.1.now)) result ≡ late_of old.state old.pending }
    {
        match &self.late {
            Some(command) => with_answer(command, &self.plan.first),
            None => None,
        }
    }

    /// What the step's own command would be answered.
    pub fn own(&self) -> &Answer
        ensures { (old : Behind) (command : Command) → IsReadyFor old command self.now →
            result.now ≡ answer_of (after_maybe old.state old.pending) command }
    {
        &self.plan.second
    }
}
