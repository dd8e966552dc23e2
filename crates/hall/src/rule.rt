//! The rule of the queue, and its kinds of step.

ghost use Rattle.std.specs.Prelude.{ℕ};

use crate::places::Placed;
use crossbeam_queue::protocol::{Join, Lesson, Outcome, Protocol, Split};

/// A pass's parts of the right to know the whole, how many visits it handed over and took, and how many marks of the
/// end. No value of it is made.
pub struct Tally {
    pub parts: u64,
    pub handed: u64,
    pub taken: u64,
    pub marked: u64,
    pub ended: u64,
}

/// All that was handed over was taken, or waits.
pub(crate) struct Fair;

impl<V: Drop> Protocol<Placed<V>, Tally> for Fair {
    ghost use Rattle.hall.specs.Counts.{Balanced, all_parts, tally};

    ghost holds = { Balanced };

    ghost first = { tally all_parts 0 0 0 0 };
}

/// A hand-over.
pub(crate) struct Hands;

impl<V: Drop> Outcome<Placed<V>, Tally> for Hands {
    ghost use Rattle.std.specs.Prelude.{◌≡◌};
    ghost use Rattle.hall.specs.Counts.{after_hand};

    ghost then = { λ v x w. w ≡ after_hand v x };
}

impl<V: Drop> Lesson<Placed<V>, Tally> for Hands {
    ghost use Rattle.hall.specs.Counts.{Whole};

    ghost fact = { Whole };
}

/// A taking.
pub(crate) struct Takes;

impl<V: Drop> Outcome<Placed<V>, Tally> for Takes {
    ghost use Rattle.std.specs.Prelude.{◌≡◌};
    ghost use Rattle.hall.specs.Counts.{after_take};

    ghost then = { λ v x w. w ≡ after_take v x };
}

impl<V: Drop> Lesson<Placed<V>, Tally> for Takes {
    ghost use Rattle.hall.specs.Counts.{Whole};

    ghost fact = { Whole };
}

/// One part is split off, and parts are joined.
pub(crate) struct Cut;

impl Split<Tally> for Cut {
    ghost use Rattle.hall.specs.Counts.{left, right};

    ghost left = { left };

    ghost right = { λ v. right };
}

impl Join<Tally> for Cut {
    ghost use Rattle.hall.specs.Counts.{both, spent};

    ghost both = { both };

    ghost spent = { spent };
}
