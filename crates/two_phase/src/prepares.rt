//! Preparing the parts of a transaction.

ghost use Rattle.std.specs.Prelude.{◌≡◌, IfOk};
ghost use Rattle.page_types.specs.declared.command.Command.TheVariants.{Prepare};
ghost use Rattle.page_types.specs.Asked.{is_prepared};
ghost use Rattle.two_phase.specs.Parts.{asked_for, MayPrepare, Prepares};

use crate::parts::Part;
use crate::tries::retry;
use nfs3_types::{ListOf, NoMemory};
use page_types::{Answer, Command, Port};
use pair_types::{StepFault, Tid};
use std::alloc::Global;

/// What came of preparing parts: all are ready, or the first that was refused, with the answer.
#[derive(Debug, Drop)]
pub enum Preparation {
    /// All parts are prepared.
    Ready,
    /// One was refused.
    Refused {
        /// The store of the part.
        store: u32,
        /// What it answered.
        answer: Answer,
    },
}

fn prepare(
    alloc: Global,
    tid: Tid,
    home: u32,
    stores: &[u32],
    part: &Part,
) -> Result<Command, NoMemory>
    ensures { IfOk result (λ command. command ≡
        Prepare (asked_for tid (record { home = home; parts = stores.now }) part.now)) }
{
    let parts = ListOf::from_vec(Vec::from_slice(alloc, stores)?);
    let reads = part.reads.copy(alloc)?;
    let writes = part.writes.copy(alloc)?;
    Command::prepare(
        alloc,
        page_types::Part {
            tid,
            home,
            parts,
            reads,
            writes,
        },
    )
}

fn tells_prepared(answer: &Answer) -> bool
    ensures { result ≡ is_prepared answer.now }
{
    match answer {
        Answer::Prepared => true,
        _ => false,
    }
}

/// Asks each part to prepare, in rising store, up to the first that is refused.
pub fn prepare_all<P: Port>(
    alloc: Global,
    port: &mut P,
    tid: Tid,
    home: u32,
    stores: &[u32],
    parts: &[Part],
) -> Result<Preparation, StepFault>
    requires { MayPrepare (P.state port.old) tid (record { home = home; parts = stores.now }) parts.now }
    ensures { Prepares (P.state port.old) (P.state port.new) tid
        (record { home = home; parts = stores.now }) parts.now result }
{
    for part in parts {
        let command = prepare(alloc, tid, home, stores, part)?;
        let answer = retry(port, part.store, &command)?;
        if !tells_prepared(&answer) {
            return Ok(Preparation::Refused {
                store: part.store,
                answer,
            });
        }
    }
    Ok(Preparation::Ready)
}
