//! What is in the way of a transaction.

ghost use Rattle.std.specs.Prelude.{◌≡◌};
ghost use Rattle.two_phase.specs.Endings.{IsKnown};
ghost use Rattle.two_phase.specs.Commits.{is_later, IsMet, Meets, FinishesOther};

use crate::endings::finish;
use page_types::{Answer, Port};
use pair_types::{Cross, Slot, StepFault, Tid};
use std::alloc::Global;

// A transaction of the same pass that is not older is no holder that a store names.
fn is_not_older(tid: Tid, holder: Tid) -> bool
    ensures { result ≡ is_later tid holder }
{
    holder.pass == tid.pass && tid.serial <= holder.serial
}

fn busy<P: Port>(
    alloc: Global,
    port: &mut P,
    tid: Tid,
    holder: Tid,
    home: u32,
    parts: &[u32],
) -> Result<(), StepFault>
    requires { IsKnown (P.state port.old) holder (record { home = home; parts = parts.now }) }
    ensures { FinishesOther (P.state port.old) (P.state port.new) tid holder
        (record { home = home; parts = parts.now }) result }
{
    if is_not_older(tid, holder) {
        return Ok(());
    }
    let _commit = finish(alloc, port, holder, home, parts)?;
    Ok(())
}

/// What an answer to a command of a transaction tells that is in its way. A transaction that a `Busy` names is finished
/// first, but for one of the same pass that is not older, which no store names. The fault is that of a step of this.
pub fn met<P: Port>(
    alloc: Global,
    port: &mut P,
    tid: Tid,
    store: u32,
    answer: &Answer,
) -> Result<Cross, StepFault>
    requires { IsMet (P.state port.old) answer.now }
    ensures { Meets (P.state port.old) (P.state port.new) tid store answer.now result }
{
    match answer {
        Answer::Conflict {
            number,
            version,
            by,
        } => Ok(Cross::Conflict {
            slot: Slot {
                store,
                number: *number,
            },
            version: *version,
            by: *by,
        }),
        Answer::Busy {
            number,
            tid: holder,
            home,
            parts,
        } => {
            busy(alloc, port, tid, *holder, *home, parts.as_slice())?;
            Ok(Cross::Busy {
                slot: Slot {
                    store,
                    number: *number,
                },
                tid: *holder,
            })
        }
        _ => Ok(Cross::Aborted { tid }),
    }
}
