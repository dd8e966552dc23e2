//! Answering a call.

ghost use Rattle.std.specs.Prelude.{◌≡◌, ◌<◌, IfOk, IfErr};
ghost use Rattle.fs_rules.specs.Answers.{row_of};
ghost use Rattle.procs_bytes.specs.Waiting.{PerformsOrWaits};
ghost use Rattle.nfs3_fits.specs.Shape.{HasShape};
ghost use Rattle.nfs3_procs.specs.Answering.{Answers, most_puts, replied};
ghost use Rattle.nfs3_procs.specs.Shaping.{IsHandedOn};

use crate::changing::{change, is_changing, stopped};
use crate::fault::BodyFault;
use crate::looking::look;
use fs_shows::Halt;
use nfs3_shapes::has_shape;
use nfs3_types::{Body, Cred, Moment, OwnCall, Reply, Status};
use pair_types::PairFault;
use pairs::Blocks;
use procs_bytes::Stop;
use std::alloc::Global;

/// The reply by what a procedure of this number gave.
fn reply(procedure: u32, given: Result<Body, Stop>) -> Result<Reply, BodyFault>
    ensures { result ≡ replied procedure given }
{
    match given {
        Ok(body) => Ok(Reply {
            procedure,
            status: Status::Ok,
            body,
        }),
        Err(Stop::Halted(Halt::Refused(status))) => Ok(Reply {
            procedure,
            status,
            body: Body::Nothing,
        }),
        Err(Stop::Halted(Halt::Fault(fault))) => Err(BodyFault::Pair(fault)),
        Err(Stop::SweepFirst(id)) => Err(BodyFault::SweepFirst(id)),
    }
}

/// What a call does: its row of the answer table; or it is to be made again behind a sweep of its file.
#[tactic(none)]
fn act<P: Blocks>(
    alloc: Global,
    pairs: &mut P,
    cred: &Cred,
    call: &OwnCall,
    now: Moment,
    lane: u8,
) -> Result<Body, Stop>
    requires { lane < 16 }
    ensures { PerformsOrWaits P.told pairs.old pairs.new (most_puts call.now) (λ t. row_of t cred.now now lane call.now) result }
{
    if is_changing(call) {
        return change(alloc, pairs, cred, call, now, lane);
    }
    stopped(look(alloc, pairs, cred, call, now, lane))
}

/// A reply that has the shape that its spelling needs, as it is: one that has not is of no sound tree.
fn checked(given: Result<Reply, BodyFault>) -> Result<Reply, BodyFault>
    ensures ok { IfOk result (λ reply. (given ≡ Ok reply) × HasShape reply) }
    ensures fault { IfErr result (IsHandedOn given) }
{
    match given {
        Ok(reply) => {
            if has_shape(&reply) {
                Ok(reply)
            } else {
                Err(BodyFault::Pair(PairFault::Odd))
            }
        }
        Err(fault) => Err(fault),
    }
}

/// Answers a call of this caller, at this moment, in a lane below 16, as one transaction: with the reply of the answer table, and
/// then the tree lies below that the table has after the call. Or a sweep of a file has to come first, or the transaction is
/// to be given up.
#[tactic(none)]
pub fn body<P: Blocks>(
    alloc: Global,
    pairs: &mut P,
    cred: &Cred,
    call: &OwnCall,
    now: Moment,
    lane: u8,
) -> Result<Reply, BodyFault>
    requires { lane < 16 }
    ensures { Answers P.told pairs.old pairs.new (record { cred = cred.now; call = call.now; now = now; lane = lane }) result }
{
    let procedure = call.procedure();
    let given = act(alloc, pairs, cred, call, now, lane);
    checked(reply(procedure, given))
}
