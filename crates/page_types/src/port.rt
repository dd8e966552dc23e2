//! What maps of pages stand for, and a pass's way to the stores.

ghost use Rattle.std.specs.Prelude.{◌≡◌, ℕ, ◌<◌, ◌≤◌, List};
ghost use Rattle.pair_types.specs.PageMaps.{PageMap};
ghost use Rattle.nfs3_types.specs.declared.entry.Entry.{Entry};
ghost use Rattle.page_types.specs.Journals.{Origin};
ghost use Rattle.page_types.specs.Ports.{PortState, IsPort, Steps, MayAsk};

use crate::answer::Answer;
use crate::command::Command;
use pair_types::StepFault;

/// What maps of pages stand for.
pub trait Meaning {
    /// What a map of pages stands for.
    ghost State: { Type 0 };

    /// Over stores that began so, a map of pages stands for a state.
    ghost stands: { Origin → PageMap → State → Type 0 };

    /// From a state, with this root page, an entry leads to the next state.
    ghost next: { State → List ℕ → Entry → State → Type 0 };
}

/// A pass's way to the stores.
pub trait Port: Drop {
    /// What the pages stand for.
    type Rules: Meaning;

    /// What it tells at a moment.
    ghost state: { Self → PortState };

    /// The pass.
    fn pass(&self) -> u32
        ensures pass { result ≡ (state self.now).pass }
        ensures formed { IsPort (state self.now) };

    /// How many stores there are, at least one.
    fn stores(&self) -> u32
        ensures stores { result ≡ (state self.now).origin.stores }
        ensures some { 1 ≤ result };

    /// One step of a command at a store. `Doubt` says that it may be settled later; `Stopped` that it is
    /// not, and that the way ends here.
    fn step(&mut self, store: u32, command: &Command) -> Result<Answer, StepFault>
        requires store { store < (state self.old).origin.stores }
        requires fair { MayAsk Self.Rules.stands Self.Rules.next (state self.old) store command.now }
        ensures { Steps (state self.old) (state self.new) store command.now result };
}
