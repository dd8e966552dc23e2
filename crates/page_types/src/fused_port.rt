//! A way to the stores that ends after so many steps.

ghost use Rattle.std.specs.Prelude.{◌≡◌};

use crate::answer::Answer;
use crate::command::Command;
use crate::port::Port;
use pair_types::StepFault;

/// A port that hands so many steps on; each later one is stopped. It shows what is left by a pass that
/// ends in the middle of a transaction.
#[derive(Debug, Drop)]
pub struct FusedPort<P> {
    inner: P,
    left: u64,
    stops: u64,
}

impl<P: Port> FusedPort<P> {
    ghost use Rattle.page_types.specs.Fused.{inner_of, stops_of, left_of};

    /// A port that hands `steps` steps on. It takes no memory.
    pub fn new(inner: P, steps: u64) -> FusedPort<P>
        ensures inner { inner_of result ≡ inner }
        ensures steps { left_of result ≡ steps }
        ensures stops { stops_of result ≡ 0 }
    {
        FusedPort {
            inner,
            left: steps,
            stops: 0,
        }
    }

    /// Gives the port back.
    pub fn part(self) -> P
        ensures { result ≡ inner_of self }
    {
        self.inner
    }
}

impl<P: Port> Port for FusedPort<P> {
    ghost use Rattle.page_types.specs.Fused.{fused};

    type Rules = P::Rules;

    ghost state = { λ port. fused (P.state port.inner) port.stops };

    fn pass(&self) -> u32 {
        self.inner.pass()
    }

    fn stores(&self) -> u32 {
        self.inner.stores()
    }

    fn step(&mut self, store: u32, command: &Command) -> Result<Answer, StepFault> {
        if self.left == 0 {
            let _pass = self.inner.pass();
            self.stops = self.stops.saturating_add(1);
            return Err(StepFault::Stopped);
        }
        self.left -= 1;
        self.inner.step(store, command)
    }
}
