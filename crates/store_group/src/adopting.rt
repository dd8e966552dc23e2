//! Commands that are settled are obeyed.

ghost use Rattle.std.specs.Prelude.{◌≡◌, ◌+◌, Option, Some, None, true, false, IsTrue, option_map};
ghost use Rattle.page_types.specs.declared.command.Command.{Command};
ghost use Rattle.page_types.specs.declared.answer.Answer.{Answer};
ghost use Rattle.page_types.specs.Stores.{StoreState};
ghost use Rattle.page_types.specs.Obeys.{answer_of, after};
ghost use Rattle.page_store.specs.Shown.{state_of, obeyed_of, after_maybe, answer_maybe, number_of, IsPlan};
ghost use Rattle.store_group.specs.Behind.{late_of};
ghost use Rattle.store_group.specs.Adopted.{AdoptsBoth, AdoptsLate};

use page_store::{Plan, Store};
use page_types::{Answer, Command};

/// What is settled, with the answers.
#[derive(Debug, Drop)]
pub(crate) struct Settled {
    pub late: Option<(Command, Answer)>,
    pub own: Answer,
}

fn with_answer(command: Command, answer: Option<Answer>) -> Option<(Command, Answer)>
    ensures { (a : Answer) → answer ≡ Some a → result ≡ Some (command, a) }
{
    match answer {
        Some(answer) => Some((command, answer)),
        None => None,
    }
}

/// The command with its answer, where there is one.
fn both(command: Option<Command>, answer: Option<Answer>) -> Option<(Command, Answer)>
    ensures { (s : StoreState) → answer ≡ answer_maybe s command → result ≡ late_of s command }
{
    match command {
        Some(command) => with_answer(command, answer),
        None => None,
    }
}

/// Obeys both commands of a plan.
pub(crate) fn adopt_both(store: &mut Store, late: Option<Command>, plan: Plan) -> Settled
    requires { (command : Command) × IsPlan store.old late command plan }
    ensures { (command : Command) → IsPlan store.old late command plan → AdoptsBoth store.old store.new late command result }
{
    let (answer, own) = store.adopt_both(plan);
    Settled {
        late: both(late, answer),
        own,
    }
}

/// Obeys the first command of a plan, where it is settled.
pub(crate) fn adopt_late(
    store: &mut Store,
    late: Option<Command>,
    plan: Plan,
    settled: bool,
) -> Option<(Command, Answer)>
    requires { (command : Command) × IsPlan store.old late command plan }
    ensures { AdoptsLate store.old store.new late settled result }
{
    if settled {
        let answer = store.adopt_first(plan);
        return both(late, answer);
    }
    None
}
