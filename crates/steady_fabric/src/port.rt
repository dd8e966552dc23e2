//! A port that owns its fabric, and is steady.

ghost use Rattle.std.specs.Prelude.{◌≡◌, ◌-◌, ◌^◌, ◌<◌, ◌≤◌};
ghost use Rattle.page_types.specs.Journals.{own};
ghost use Rattle.fabric.specs.Shown.{past, port_of};
ghost use Rattle.fabric.specs.Settled.{stops_after};
ghost use Rattle.steady_port.specs.Steady.{IsSteady};

use fabric::Fabric;
use outside::Weather;
use page_types::{Answer, Command, Meaning, Port};
use pair_types::StepFault;
use steady_law::lawful_is_steady;
use steady_port::Steady;

/// A pass that has a fabric to itself. It counts the steps that answered a doubt since it was made, and those that were
/// stopped.
#[derive(Drop)]
pub struct SteadyPort<M: Meaning, W: Weather + Drop> {
    fabric: Fabric<M, W>,
    pass: u32,
    doubts_before: u64,
    stops: u64,
    ghost since: { doubts_before ≤ fabric.doubts },
    ghost steady: { IsSteady (own pass (past fabric)) },
}

impl<M: Meaning, W: Weather + Drop> SteadyPort<M, W> {
    /// The fabric's port of a pass. It takes no memory.
    pub fn new(fabric: Fabric<M, W>, pass: u32) -> SteadyPort<M, W>
        ensures fabric { result.fabric ≡ fabric }
        ensures pass { result.pass ≡ pass }
        ensures doubts { result.doubts_before ≡ fabric.doubts }
        ensures stops { result.stops ≡ 0 }
    {
        lawful_is_steady::<M>();
        let _journal = fabric.journal();
        let doubts_before = fabric.doubts();
        SteadyPort {
            fabric,
            pass,
            doubts_before,
            stops: 0,
        }
    }

    /// Gives the fabric back.
    pub fn part(self) -> Fabric<M, W>
        ensures { result ≡ self.fabric }
    {
        self.fabric
    }
}

/// The count of stops after a step; no count of steps passes its type.
fn counted(stops: u64, answered: &Result<Answer, StepFault>) -> u64
    ensures count { result ≡ stops_after stops answered.now }
    ensures in_range { stops < 2 ^ 64 }
{
    match answered {
        Err(StepFault::Stopped) => stops.saturating_add(1),
        _ => stops,
    }
}

impl<M: Meaning, W: Weather + Drop> Port for SteadyPort<M, W> {
    type Rules = M;

    ghost state = { λ port. port_of (record {
      fabric = port.fabric;
      pass = port.pass;
      doubts = port.fabric.doubts - port.doubts_before;
      stops = port.stops;
    }) };

    fn pass(&self) -> u32 {
        let _journal = self.fabric.journal();
        let _stores = self.fabric.stores();
        self.pass
    }

    fn stores(&self) -> u32 {
        self.fabric.stores()
    }

    fn step(&mut self, store: u32, command: &Command) -> Result<Answer, StepFault> {
        lawful_is_steady::<M>();
        let answered = self.fabric.step(self.pass, store, command);
        let _journal = self.fabric.journal();
        let _stores = self.fabric.stores();
        let stops = counted(self.stops, &answered);
        self.stops = stops;
        answered
    }
}

impl<M: Meaning, W: Weather + Drop> Steady for SteadyPort<M, W> {
    ghost steady = { λ port. port.steady };
}
