ghost use Rattle.std.specs.Prelude.{⊤, None, [], ◌∷◌};
ghost use Rattle.page_types.specs.Ports.{PortState};

use page_types::{Answer, Command, FusedPort, Meaning, Port};
use pair_types::StepFault;
use std::test::*;

/// Pages that stand for nothing in particular.
#[derive(Drop)]
struct Any;

impl Meaning for Any {
    ghost State = { ⊤ };

    ghost stands = { λ _ _ _. ⊤ };

    ghost next = { λ _ _ _ _. ⊤ };
}

/// A port whose every step lacks memory, and that counts them.
#[derive(Drop)]
struct Full {
    steps: u64,
}

impl Port for Full {
    type Rules = Any;

    ghost state = { λ _. record {
      origin = record { stores = 1; first = [] };
      pass = 5;
      mine = [];
      journal = None;
      doubts = 0;
      stops = 0;
    } };

    fn pass(&self) -> u32 {
        5
    }

    fn stores(&self) -> u32 {
        1
    }

    fn step(&mut self, store: u32, command: &Command) -> Result<Answer, StepFault> {
        let _ = store;
        let _ = command;
        self.steps = self.steps.saturating_add(1);
        Err(StepFault::NoMemory)
    }
}

/// The fault of a step that asks for a number, where it is one.
fn fault<P: Port>(port: &mut P) -> Option<StepFault> {
    if port.stores() == 0 {
        return None;
    }
    port.step(0, &Command::Fresh).err()
}

#[test]
fn a_fused_port_hands_so_many_steps_on(rt: HostRuntime) -> Result<(), Fail> {
    let mut port = FusedPort::new(Full { steps: 0 }, 2);
    for wanted in [
        StepFault::NoMemory,
        StepFault::NoMemory,
        StepFault::Stopped,
        StepFault::Stopped,
    ] {
        assert_eq!(rt; fault(&mut port), Some(wanted));
    }
    assert_eq!(rt; port.part().steps, 2);
    Ok(())
}
