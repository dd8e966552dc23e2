//! A clock in memory.

ghost use Rattle.std.specs.Prelude.{◌≡◌, ◌<◌, ◌^◌, [], ◌∷◌, length};
ghost use Rattle.nfs3_types.specs.Count.{one_more};
ghost use Rattle.outside.specs.Clock.{GaveMoments};
ghost use Rattle.outside.specs.ListClock.{list_told, moment_at};

use crate::clock::Clock;
use nfs3_types::Moment;
use std::marker::Model;

/// A clock that gives the moments of a list, one after another, and then its last one again and
/// again. One with an empty list gives (0, 0). It tells everything.
#[derive(Debug, Drop)]
pub struct ListClock {
    moments: Vec<Moment>,
    calls: u64,
}

impl Model for ListClock {
    ghost use Rattle.outside.specs.ListClock.{MomentList};

    ghost Value = { MomentList };

    ghost view = { λ a. record { moments = a.moments.items; calls = a.calls } };
}

impl ListClock {
    /// A clock that gives these moments. It takes no memory.
    pub fn new(moments: Vec<Moment>) -> ListClock
        ensures { result ≡ record { moments = moments.items; calls = 0 } }
    {
        ListClock { moments, calls: 0 }
    }
}

/// The moment of the k-th call.
fn at(moments: &[Moment], k: u64) -> Moment
    ensures moment { result ≡ moment_at moments.now k }
    ensures short { length moments.now < 2 ^ 64 }
{
    let k = k as usize;
    if k < moments.len() {
        return moments[k];
    }
    match moments.last() {
        Some(last) => *last,
        None => Moment {
            seconds: 0,
            nanos: 0,
        },
    }
}

impl Clock for ListClock {
    ghost told = { list_told };

    fn now(&mut self) -> Moment
        ensures gave { GaveMoments list_told self.old self.new (result ∷ []) }
        ensures exact { result ≡ moment_at self.old.moments self.old.calls }
        ensures later { self.new ≡ record self.old { calls = one_more self.old.calls } }
    {
        let calls = self.calls;
        let moment = at(&self.moments, calls);
        self.calls = calls.saturating_add(1);
        moment
    }
}
