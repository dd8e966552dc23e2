//! A door in memory.

ghost use Rattle.std.specs.Prelude.{◌≡◌, ◌≤◌, ◌↔◌, All, [], ◌∷◌, Ok, Some, None};
ghost use Rattle.doors.specs.Door.{Comes, IsFormed, IsFresh, facts_of};
ghost use Rattle.doors.specs.ListDoor.{door_told, memory_visits};

use crate::door::Door;
use crate::visit::Visit;
use outside::{Failed, ListClock, MemSink, MemSource};
use std::marker::Model;

/// A door that gives the visits of a list, one after another. It tells everything, and never fails.
#[derive(Debug, Drop)]
pub struct ListDoor {
    visits: Vec<Visit<MemSource, MemSink, ListClock>>,
}

impl Model for ListDoor {
    ghost use Rattle.std.specs.Prelude.{All, List};
    ghost use Rattle.doors.specs.Door.{IsFresh, facts_of};
    ghost use Rattle.doors.specs.ListDoor.{MemoryVisit, memory_visits};

    ghost Value = { List MemoryVisit };

    ghost view = { λ door. door.visits.items };

    ghost invariant = { λ door. All (λ visit. IsFresh (facts_of memory_visits visit)) door.visits.items };
}

impl ListDoor {
    /// A door that gives these visits, of which nothing was read, written or timed yet. It takes no memory.
    pub fn new(visits: Vec<Visit<MemSource, MemSink, ListClock>>) -> ListDoor
        requires { All (λ visit. IsFresh (facts_of memory_visits visit)) visits.items }
        ensures { result ≡ visits.items }
    {
        ListDoor { visits }
    }
}

impl Door for ListDoor {
    type Input = MemSource;

    type Output = MemSink;

    type Times = ListClock;

    type Receipt = Visit<MemSource, MemSink, ListClock>;

    ghost told = { door_told };

    fn next(&mut self) -> Result<Option<Visit<MemSource, MemSink, ListClock>>, Failed>
        ensures comes { Comes door_told memory_visits self.old self.new result }
        ensures formed { IsFormed door_told self.new }
        ensures never_falls { door_told.faults self.old ≤ door_told.faults self.new }

        // It is over exactly where its visits are used up.
        ensures over { (result ≡ Ok None) ↔ (self.old ≡ []) }
    {
        if self.visits.is_empty() {
            return Ok(None);
        }
        Ok(Some(self.visits.remove(0)))
    }

    fn settle(visit: Visit<MemSource, MemSink, ListClock>) -> Visit<MemSource, MemSink, ListClock>
        ensures { result ≡ visit }
    {
        visit
    }
}
