//! A port that owns its fabric.

ghost use Rattle.std.specs.Prelude.{◌≡◌};
ghost use Rattle.fabric.specs.Settled.{stops_after};

use crate::fabric::Fabric;
use outside::Weather;
use page_types::{Answer, Command, Meaning, Port};
use pair_types::StepFault;
use std::marker::Model;

/// A pass that has a fabric to itself. A contract sees the fabric, whose it is, how many steps answered a doubt since, and
/// how many were stopped.
#[derive(Drop)]
pub struct OwnedPort<M: Meaning, W: Weather + Drop> {
    fabric: Fabric<M, W>,
    pass: u32,
    doubts_before: u64,
    stops: u64,
}

impl<M: Meaning, W: Weather + Drop> Model for OwnedPort<M, W> {
    ghost use Rattle.std.specs.Prelude.{◌-◌, ◌≤◌};
    ghost use Rattle.fabric.specs.Shown.{Held};

    ghost Value = { Held W };

    ghost view = { λ a. record {
      fabric = a.fabric;
      pass = a.pass;
      doubts = a.fabric.doubts - a.doubts_before;
      stops = a.stops;
    } };

    ghost invariant = { λ a. a.doubts_before ≤ a.fabric.doubts };
}

impl<M: Meaning, W: Weather + Drop> OwnedPort<M, W> {
    /// The fabric's port of a pass. It takes no memory.
    pub fn new(fabric: Fabric<M, W>, pass: u32) -> OwnedPort<M, W>
        ensures { result ≡ record { fabric = fabric; pass = pass; doubts = 0; stops = 0 } }
    {
        let doubts_before = fabric.doubts();
        OwnedPort {
            fabric,
            pass,
            doubts_before,
            stops: 0,
        }
    }

    /// Gives the fabric back.
    pub fn part(self) -> Fabric<M, W>
        ensures { result ≡ self.fabric }
    {
        self.fabric
    }
}

/// The count of stops after a step.
fn counted(stops: u64, answered: &Result<Answer, StepFault>) -> u64
    ensures { result ≡ stops_after stops answered.now }
{
    match answered {
        Err(StepFault::Stopped) => stops.saturating_add(1),
        _ => stops,
    }
}

impl<M: Meaning, W: Weather + Drop> Port for OwnedPort<M, W> {
    ghost use Rattle.fabric.specs.Shown.{port_of};

    type Rules = M;

    ghost state = { λ port. port_of port };

    fn pass(&self) -> u32 {
        let _journal = self.fabric.journal();
        let _stores = self.fabric.stores();
        self.pass
    }

    fn stores(&self) -> u32 {
        self.fabric.stores()
    }

    fn step(&mut self, store: u32, command: &Command) -> Result<Answer, StepFault> {
        let answered = self.fabric.step(self.pass, store, command);
        let _journal = self.fabric.journal();
        let _stores = self.fabric.stores();
        self.stops = counted(self.stops, &answered);
        answered
    }
}
