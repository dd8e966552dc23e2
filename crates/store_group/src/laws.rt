//! What steps of store groups mean in a journal of the stores.

ghost use Rattle.std.specs.Prelude.{ℕ, Bool, List, Option, Result};
ghost use Rattle.page_types.specs.declared.command.Command.{Command};
ghost use Rattle.page_types.specs.declared.answer.Answer.{Answer};
ghost use Rattle.page_types.specs.declared.journal.JEntry.{JEntry};
ghost use Rattle.pair_types.specs.declared.fault.StepFault.{StepFault};
ghost use Rattle.page_types.specs.Journals.{Origin};
ghost use Rattle.store_group.specs.Behind.{Behind, Left};
ghost use Rattle.store_group.specs.Journal.{Tells, Request, gained};

/// Where a journal tells what a store behind a group keeps, a step of it is what its entries tell.
pub fn steps_are_entries()
    ensures { (origin : Origin) (es : List JEntry) (asked : Request) (old new : Behind)
        (late : Option (Command × Answer)) (own : Result Answer StepFault) (doubted : Bool) →
        Tells origin es asked.store old → Left own doubted old new asked.command late →
        Tells origin (gained asked late own doubted es) asked.store new }
{}
