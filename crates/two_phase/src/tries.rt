//! Steps that are tried again.

ghost use Rattle.std.specs.Prelude.{◌≡◌, ◌<◌};
ghost use Rattle.page_types.specs.Ports.{MayAsk};
ghost use Rattle.two_phase.specs.Tries.{Retries};

use page_types::{Answer, Command, Port};
use pair_types::StepFault;

/// Up to eight steps of one command, which end at the first that is not a doubt.
pub fn retry<P: Port>(port: &mut P, store: u32, command: &Command) -> Result<Answer, StepFault>
    requires store { store < (P.state port.old).origin.stores }
    requires fair { MayAsk P.Rules.stands P.Rules.next (P.state port.old) store command.now }
    ensures { Retries (P.state port.old) (P.state port.new) store command.now result }
{
    for _tried in 0..8u32 {
        match port.step(store, command) {
            Ok(answer) => return Ok(answer),
            Err(StepFault::Doubt) => {}
            Err(StepFault::NoMemory) => return Err(StepFault::NoMemory),
            Err(StepFault::Stopped) => return Err(StepFault::Stopped),
        }
    }
    Err(StepFault::Doubt)
}
