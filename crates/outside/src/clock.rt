//! Clocks.

ghost use Rattle.std.specs.Prelude.{[], ◌∷◌};
ghost use Rattle.outside.specs.Clock.{ClockTold, GaveMoments};

use nfs3_types::Moment;

/// A clock. It never fails.
pub trait Clock {
    /// What it tells, where it does: the moments that it gave so far, the first of them first, and the
    /// k-th moment to come.
    ghost told: { ClockTold Self };

    /// The moment that it is now: the first one to come.
    fn now(&mut self) -> Moment
        ensures { GaveMoments told self.old self.new (result ∷ []) };
}
