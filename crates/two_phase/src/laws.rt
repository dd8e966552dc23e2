//! What the stores' rule says of commands that are tried again, and what a commit's answer of what was in its way.

ghost use Rattle.std.specs.Prelude.{◌≡◌, false, List, Option};
ghost use Rattle.pair_types.specs.declared.slot.Tid.{Tid};
ghost use Rattle.nfs3_types.specs.declared.entry.Entry.{Entry};
ghost use Rattle.page_types.specs.Ports.{PortState};
ghost use Rattle.two_phase.specs.declared.parts.Part.{Part};
ghost use Rattle.two_phase.specs.Complete.{AreComplete};
ghost use Rattle.page_types.specs.declared.command.Command.{Command};
ghost use Rattle.page_types.specs.Obeys.{IsFormed};
ghost use Rattle.two_phase.specs.Once.{is_fresh, ActsOnce};

/// A command other than `Fresh` acts at most once on a store, however late it is settled and whatever is obeyed between.
pub fn acts_once()
    ensures { (command : Command) → is_fresh command ≡ false → IsFormed command → ActsOnce command }
{}

/// A commit in which no command was doubted, none of the transaction's was refused and no step was stopped is done, or memory
/// lacked.
pub fn commits_are_complete()
    ensures { (old new : PortState) (tid : Tid) (parts : List Part) (served : Option Entry) →
        AreComplete old new tid parts served }
{}
