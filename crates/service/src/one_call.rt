//! Answering one record.

ghost use Rattle.std.specs.Prelude.{◌≡◌, ◌≤◌, ◌%◌, [], length, IfOk, OnOk, OnErr, IfErr, vec_capacity};
ghost use Rattle.nfs3_fits.specs.declared.laws.TheConstants.{LONGEST_REPLY};
ghost use Rattle.nfs3_res.specs.Spelled.{IsSpelled};
ghost use Rattle.nfs3_types.specs.Replies.{outcome_of, result_of};
ghost use Rattle.rpc_msg.specs.Auth.{words_in};
ghost use Rattle.rpc_route.specs.Immediate.{Bad, immediate_reply};
ghost use Rattle.rpc_route.specs.Routing.{caller_of};
ghost use Rattle.service.specs.Turns.{cred_of};
ghost use Rattle.service.specs.Steps.{TakesTurn, TakesCall};

use crate::room::LONGEST_RECORD;
use crate::tree::Tree;
use mount3::Exports;
use nfs3_types::{Call, Cred, Moment, NoMemory, Reply, own_call};
use outside::Clock;
use rpc_msg::{HeadFault, Who, own_cred};
use rpc_route::{RouteFault, Routed, route, seal, seal_system};
use std::alloc::Global;

/// Who calls, owned, as the tree is told.
fn own_caller(alloc: Global, uid: u32, gid: u32, gids: &[u8]) -> Result<Cred, NoMemory>
    requires { length gids.now % 4 ≡ 0 }
    ensures { IfOk result (λ cred. cred ≡ cred_of (record { uid = uid; gid = gid; gids = words_in gids.now })) }
{
    own_cred(alloc, &Who { uid, gid, gids })
}

/// Asks the tree.
fn ask<T: Tree>(
    alloc: Global,
    tree: &mut T,
    who: &Who<'_>,
    call: &Call<'_>,
    moment: Moment,
) -> Result<Reply, NoMemory>
    requires whole { length who.now.gids.now % 4 ≡ 0 }
    ensures ok { IfOk result (λ reply. reply ≡ T.answering.answer (T.plain tree.old) (cred_of (caller_of who.now)) call.now
        moment) }
    ensures spelled { IfOk result (λ reply. IsSpelled reply) }
    ensures short { IfOk result (λ reply. (result_of reply.procedure).size (outcome_of reply) ≤ LONGEST_REPLY) }
    ensures next { OnOk result (T.plain tree.new ≡ T.answering.after (T.plain tree.old) (cred_of (caller_of who.now)) call.now
        moment) }
    ensures err { OnErr result (T.plain tree.new ≡ T.plain tree.old) }
{
    let cred = own_caller(alloc, who.uid, who.gid, who.gids)?;
    let own = own_call(alloc, call)?;
    tree.answer(alloc, &cred, &own, moment)
}

/// Answers a call, or says that memory ran out before it took effect.
fn answer_call<T: Tree>(
    alloc: Global,
    tree: &mut T,
    xid: u32,
    who: &Who<'_>,
    call: &Call<'_>,
    moment: Moment,
    out: &mut Vec<u8>,
)
    requires whole { length who.now.gids.now % 4 ≡ 0 }
    requires empty { out.old.items ≡ [] }
    requires room { LONGEST_RECORD ≤ vec_capacity out.old }
    ensures taken { TakesCall T.answering (T.plain tree.old, T.plain tree.new) (caller_of who.now)
        call.now moment xid out.new.items }
    ensures capacity { vec_capacity out.old ≤ vec_capacity out.new }
{
    let Ok(reply) = ask(alloc, tree, who, call, moment) else {
        seal_system(xid, out);
        return;
    };
    let Ok(()) = seal(xid, &reply, out) else {
        unreachable!()
    };
}

/// Answers a record into `out`, unless it is no call. One that needs the tree takes a moment of the clock
/// first. Where memory lacks for the call, the reply is the one that says so.
pub fn answer_record<T: Tree, C: Clock>(
    alloc: Global,
    exports: &Exports,
    tree: &mut T,
    content: &[u8],
    clock: &mut C,
    out: &mut Vec<u8>,
) -> Result<(), HeadFault>
    requires exports { exports.now.fsid ≡ T.answering.fsid }
    requires room { LONGEST_RECORD ≤ vec_capacity out.old }
    ensures ok { OnOk result (TakesTurn T.answering C.told (T.plain tree.old, clock.old)
        (T.plain tree.new, clock.new) content.now out.new.items) }
    ensures err { IfErr result (λ fault. immediate_reply T.answering.fsid content.now ≡ Bad fault) }
    ensures same_tree { OnErr result (T.plain tree.new ≡ T.plain tree.old) }
    ensures no_moment { OnErr result (clock.new ≡ clock.old) }
    ensures capacity { vec_capacity out.old ≤ vec_capacity out.new }
{
    out.clear();
    match route(content, exports, out) {
        Ok(Routed::Ready) => Ok(()),
        Ok(Routed::Nfs { xid, who, call }) => {
            let moment = clock.now();
            answer_call(alloc, tree, xid, &who, &call, moment, out);
            Ok(())
        }
        Err(RouteFault::BadRecord(fault)) => Err(fault),
        Err(RouteFault::NoMemory(_)) => unreachable!(),
    }
}
