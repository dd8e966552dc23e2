//! Doors.

ghost use Rattle.std.specs.Prelude.{◌≡◌, ◌≤◌};
ghost use Rattle.doors.specs.Door.{DoorTold, Comes, IsFormed, visits_told, facts_of};
ghost use Rattle.doors.specs.declared.visit.Visit.{Visit};

use crate::visit::Visit;
use outside::{Clock, Failed, Sink, Source};

/// Where visits come from. What it hands out may go to another thread.
pub trait Door: Drop {
    /// Where a visit's bytes come from.
    type Input: Source + Send + Drop;

    /// Where a visit's replies go.
    type Output: Sink + Send + Drop;

    /// A visit's clock.
    type Times: Clock + Send + Drop;

    /// What is left of a visit that was settled.
    type Receipt: Send + Drop;

    /// What it tells: the visits still to come, where it tells them; whether none is left; how many calls failed; and
    /// what a receipt tells.
    ghost told: { DoorTold Self (Visit Self.Input Self.Output Self.Times) Self.Receipt };

    /// The next visit, or `None` where no more come. It is fresh: nothing was read or written yet.
    fn next(&mut self) -> Result<Option<Visit<Self::Input, Self::Output, Self::Times>>, Failed>
        ensures comes { Comes told (visits_told Self.Input.told Self.Output.told Self.Times.told)
            self.old self.new result }
        ensures formed { IsFormed told self.new }
        ensures never_falls { told.faults self.old ≤ told.faults self.new };

    /// Ends a visit. Its receipt tells what the visit's parts told. It takes no memory.
    fn settle(visit: Visit<Self::Input, Self::Output, Self::Times>) -> Self::Receipt
        ensures { told.receipt result
            ≡ facts_of (visits_told Self.Input.told Self.Output.told Self.Times.told) visit };
}
