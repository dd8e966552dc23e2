//! The machine's clock.

ghost use Rattle.std.specs.Prelude.{◌≡◌, ◌+◌, ◌-◌, ◌/◌, ◌%◌, ◌^◌, ◌<◌, ◌≤◌, [], ◌∷◌, min};
ghost use Rattle.std.specs.Duration.{as_nanos};
ghost use Rattle.outside.specs.Adapter.{machine_told};
ghost use Rattle.outside.specs.Clock.{GaveMoments};

use crate::clock::Clock;
use nfs3_types::Moment;
use nfs3_types::count::one_more;
use std::marker::Model;
use std::rt;
use std::time::Duration;

/// A clock that gives the machine's time since 1970. Past the last second that fits, it gives that
/// one. Where the machine's clock cannot be read, it gives (0, 0). It tells nothing of the moments.
#[derive(Debug, Drop)]
pub struct WallClock<R: rt::Clock> {
    machine: R,
    faults: u64,
}

impl<R: rt::Clock> Model for WallClock<R> {
    ghost use Rattle.outside.specs.Adapter.{Adapted};

    ghost Value = { Adapted R };

    ghost view = { λ a. record { inner = a.machine; faults = a.faults } };
}

impl<R: rt::Clock> WallClock<R> {
    /// A clock over that of this machine.
    pub fn new(machine: R) -> WallClock<R>
        ensures { result ≡ record { inner = machine; faults = 0 } }
    {
        WallClock { machine, faults: 0 }
    }

    /// How often the machine's clock could not be read.
    pub fn faults(&self) -> u64
        ensures { result ≡ self.now.faults }
    {
        self.faults
    }
}

/// A time since 1970 as a moment.
fn moment_of(time: Duration) -> Moment
    ensures seconds { result.seconds ≡ min (as_nanos time / 1_000_000_000) (2 ^ 32 - 1) }
    ensures nanos { result.nanos ≡ as_nanos time % 1_000_000_000 }
{
    Moment {
        seconds: u32::try_from(time.as_secs()).unwrap_or(u32::MAX),
        nanos: time.subsec_nanos(),
    }
}

impl<R: rt::Clock> Clock for WallClock<R> {
    ghost told = { machine_told };

    fn now(&mut self) -> Moment
        ensures gave { GaveMoments machine_told self.old self.new (result ∷ []) }

        // It reads the machine's clock, and counts where that cannot be read.
        ensures nanos { result.nanos < 1_000_000_000 }
        ensures same_machine { self.new.inner ≡ self.old.inner }
        ensures never_falls { self.old.faults ≤ self.new.faults }
        ensures counted { self.old.faults < self.new.faults
            → self.new.faults ≡ self.old.faults + 1 }
        ensures unread { self.old.faults < self.new.faults
            → result ≡ record { seconds = 0; nanos = 0 } }
    {
        match self.machine.since_1970() {
            Ok(time) => moment_of(time),
            Err(_) => {
                self.faults = one_more(self.faults);
                Moment {
                    seconds: 0,
                    nanos: 0,
                }
            }
        }
    }
}
