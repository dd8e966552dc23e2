//! Routing a record.

ghost use Rattle.std.specs.Prelude.{◌≡◌, ◌≢◌, ℕ, ◌+◌, ◌-◌, ◌*◌, ◌^◌, ◌<◌, ◌≤◌, length, ◌%◌, vec_len, vec_capacity, Err, IsOk};
ghost use Rattle.rpc_route.specs.declared.routed.RouteFault.{RouteFault};
ghost use Rattle.rpc_msg.specs.Message.{view};
ghost use Rattle.xdr_grammar.specs.Whole.{whole};
ghost use Rattle.rpc_msg.specs.Replies.{accepted_record, denied_record};
ghost use Rattle.xdr_grammar.specs.Reading.{GivesWhole};
ghost use Rattle.nfs3_types.specs.Calls.{arguments as call_arguments};
ghost use Rattle.rpc_route.specs.Immediate.{Replied, of_nfs, of_mount, in_nfs, in_mount, in_program, behind_head};
ghost use Rattle.rpc_route.specs.Immediate.{immediate_reply};
ghost use Rattle.rpc_route.specs.Immediate.{auth_stat as stat_of};
ghost use Rattle.mount3.specs.Protocol.{arguments};
ghost use Rattle.rpc_route.specs.Routing.{Routes, RoutesRecord, caller_of};

use crate::routed::{RouteFault, Routed};
use mount3::{EXPORT, Exports, MountFault, answer_mount};
use nfs3_args::read_args;
use nfs3_types::{Call, CallOver, Procedure};
use rpc_msg::{CallHead, CredFault, Who, read_call, read_cred, write_accepted, write_denied};
use xdr_grammar::XdrFault;

/// The version of RPC that is taken.
const RPC_VERSION: u32 = 2;

/// NFS (RFC 1813, section 3.1), and its version.
const NFS_PROGRAM: u32 = 100_003;

/// MOUNT (RFC 1813, appendix I).
const MOUNT_PROGRAM: u32 = 100_005;

/// The version of both programs that is taken.
const VERSION: u32 = 3;

/// The longest body of a reply of MOUNT in bytes.
const LONGEST_MOUNT: usize = 44;

/// How many bytes the longest record has that is answered without the tree: that of MOUNT's longest body.
pub const LONGEST_IMMEDIATE: usize = 72;

/// The call succeeded (RFC 5531, section 9, accept_stat).
const SUCCESS: u32 = 0;

/// There is no such program.
const PROG_UNAVAIL: u32 = 1;

/// The program has no such version.
const PROG_MISMATCH: u32 = 2;

/// The program has no such procedure.
const PROC_UNAVAIL: u32 = 3;

/// The arguments do not read.
const GARBAGE_ARGS: u32 = 4;

/// NFS3ERR_NOTSUPP, and a change of which nothing is told.
const NOT_SUPPORTED: &[u8] = b"\0\0\x27\x14\0\0\0\0\0\0\0\0";

/// The lowest and the highest version of a program that has one.
const VERSIONS: &[u8] = b"\0\0\0\x03\0\0\0\x03";

/// Answers by an accepted reply with these results.
fn accept<'a>(
    xid: u32,
    stat: u32,
    results: &[u8],
    out: &mut Vec<u8>,
) -> Result<Routed<'a>, RouteFault>
    requires { length results.now < 2 ^ 31 - 24 }
    ensures routes { Routes (Replied (accepted_record xid stat results.now))
        xid out.old.items out.new.items result }
    ensures room { vec_len out.old + (28 + length results.now) ≤ vec_capacity out.old → IsOk result }
    ensures capacity { vec_capacity out.old ≤ vec_capacity out.new }
{
    let Ok(()) = write_accepted(xid, stat, results, out) else {
        return Err(RouteFault::NoMemory(xid));
    };
    Ok(Routed::Ready)
}

/// Answers by a denial with these words.
fn deny<'a>(
    xid: u32,
    words: [u32; 3],
    count: u32,
    out: &mut Vec<u8>,
) -> Result<Routed<'a>, RouteFault>
    requires least { 2 ≤ count }
    requires most { count ≤ 3 }
    ensures routes { Routes (Replied (denied_record xid count words))
        xid out.old.items out.new.items result }
    ensures room { vec_len out.old + (16 + 4 * count) ≤ vec_capacity out.old → IsOk result }
    ensures capacity { vec_capacity out.old ≤ vec_capacity out.new }
{
    let Ok(()) = write_denied(xid, words, count, out) else {
        return Err(RouteFault::NoMemory(xid));
    };
    Ok(Routed::Ready)
}

/// Reads a whole call of NFS from the bytes of its arguments.
fn read_nfs(procedure: Procedure, args: &[u8]) -> Result<Call<'_>, XdrFault>
    ensures { GivesWhole (λ call. call) (whole (call_arguments procedure) args.now) result }
{
    read_args(procedure.number(), args)
}

/// Routes a call of NFS by its arguments.
fn route_nfs<'a>(
    xid: u32,
    procedure: Procedure,
    who: &Who<'a>,
    args: &'a [u8],
    out: &mut Vec<u8>,
) -> Result<Routed<'a>, RouteFault>
    requires { length who.now.gids.now % 4 ≡ 0 }
    ensures routes { Routes (of_nfs xid (caller_of who.now) (whole (call_arguments procedure) args.now))
        xid out.old.items out.new.items result }
    ensures room { vec_len out.old + LONGEST_IMMEDIATE ≤ vec_capacity out.old → IsOk result }
    ensures capacity { vec_capacity out.old ≤ vec_capacity out.new }
{
    let Ok(call) = read_nfs(procedure, args) else {
        return accept(xid, GARBAGE_ARGS, b"".as_slice(), out);
    };
    match call {
        CallOver::Null => accept(xid, SUCCESS, b"".as_slice(), out),
        CallOver::Mknod(_) => accept(xid, SUCCESS, NOT_SUPPORTED, out),
        call => Ok(Routed::Nfs {
            xid,
            who: *who,
            call,
        }),
    }
}

/// Routes a call of MOUNT by its arguments. Its body is put behind what the buffer holds, taken from there,
/// and put again behind its head.
fn route_mount<'a>(
    xid: u32,
    procedure: u32,
    args: &[u8],
    e: &Exports,
    out: &mut Vec<u8>,
) -> Result<Routed<'a>, RouteFault>
    requires { procedure ≤ 5 }
    ensures routes { Routes (of_mount e.now.fsid xid procedure (whole (arguments procedure) args.now))
        xid out.old.items out.new.items result }
    ensures room { vec_len out.old + LONGEST_IMMEDIATE ≤ vec_capacity out.old → IsOk result }
    ensures capacity { vec_capacity out.old ≤ vec_capacity out.new }
{
    let before = out.len();
    match answer_mount(procedure, args, e, out) {
        Ok(()) => {}
        Err(MountFault::Garbage(_)) => return accept(xid, GARBAGE_ARGS, b"".as_slice(), out),
        Err(MountFault::NoMemory) => return Err(RouteFault::NoMemory(xid)),
    }
    let mut results = [0; LONGEST_MOUNT];
    let len = out.len() - before;
    results[..len].copy_from_slice(&out[before..]);
    out.truncate(before);
    accept(xid, SUCCESS, &results[..len], out)
}

/// Routes a call of NFS by its version and its procedure.
#[tactic(auto, unfolding(crate::specs::Immediate::in_nfs))]
fn route_in_nfs<'a>(
    head: &CallHead<'a>,
    who: &Who<'a>,
    args: &'a [u8],
    out: &mut Vec<u8>,
) -> Result<Routed<'a>, RouteFault>
    requires { length who.now.gids.now % 4 ≡ 0 }
    ensures routes { Routes (in_nfs (view head.now) (caller_of who.now) args.now)
        head.now.xid out.old.items out.new.items result }
    ensures room { vec_len out.old + LONGEST_IMMEDIATE ≤ vec_capacity out.old → IsOk result }
    ensures capacity { vec_capacity out.old ≤ vec_capacity out.new }
{
    if head.vers != VERSION {
        return accept(head.xid, PROG_MISMATCH, VERSIONS, out);
    }
    let Some(procedure) = Procedure::of(head.procedure) else {
        return accept(head.xid, PROC_UNAVAIL, b"".as_slice(), out);
    };
    route_nfs(head.xid, procedure, who, args, out)
}

/// Routes a call of MOUNT by its version and its procedure.
#[tactic(auto, unfolding(crate::specs::Immediate::in_mount))]
fn route_in_mount<'a>(
    head: &CallHead<'a>,
    args: &[u8],
    e: &Exports,
    out: &mut Vec<u8>,
) -> Result<Routed<'a>, RouteFault>
    ensures routes { Routes (in_mount e.now.fsid (view head.now) args.now)
        head.now.xid out.old.items out.new.items result }
    ensures room { vec_len out.old + LONGEST_IMMEDIATE ≤ vec_capacity out.old → IsOk result }
    ensures capacity { vec_capacity out.old ≤ vec_capacity out.new }
{
    if head.vers != VERSION {
        return accept(head.xid, PROG_MISMATCH, VERSIONS, out);
    }
    if head.procedure > EXPORT {
        return accept(head.xid, PROC_UNAVAIL, b"".as_slice(), out);
    }
    route_mount(head.xid, head.procedure, args, e, out)
}

/// Routes a call by its program.
#[tactic(auto, unfolding(crate::specs::Immediate::in_program))]
fn route_program<'a>(
    head: &CallHead<'a>,
    who: &Who<'a>,
    args: &'a [u8],
    e: &Exports,
    out: &mut Vec<u8>,
) -> Result<Routed<'a>, RouteFault>
    requires { length who.now.gids.now % 4 ≡ 0 }
    ensures routes { Routes (in_program e.now.fsid (view head.now) (caller_of who.now) args.now)
        head.now.xid out.old.items out.new.items result }
    ensures room { vec_len out.old + LONGEST_IMMEDIATE ≤ vec_capacity out.old → IsOk result }
    ensures capacity { vec_capacity out.old ≤ vec_capacity out.new }
{
    match head.prog {
        NFS_PROGRAM => route_in_nfs(head, who, args, out),
        MOUNT_PROGRAM => route_in_mount(head, args, e, out),
        _ => accept(head.xid, PROG_UNAVAIL, b"".as_slice(), out),
    }
}

/// What is wrong with a credential or a verifier (RFC 5531, section 9, auth_stat).
fn auth_stat(fault: CredFault) -> u32
    ensures { result ≡ stat_of fault }
{
    match fault {
        CredFault::BadCred => 1,
        CredFault::BadVerf => 3,
        CredFault::TooWeak => 5,
    }
}

/// Routes a call behind its head.
#[tactic(auto, unfolding(crate::specs::Immediate::behind_head))]
fn route_head<'a>(
    head: &CallHead<'a>,
    e: &Exports,
    out: &mut Vec<u8>,
) -> Result<Routed<'a>, RouteFault>
    ensures routes { Routes (behind_head e.now.fsid (view head.now) head.now.tail.now)
        head.now.xid out.old.items out.new.items result }
    ensures room { vec_len out.old + LONGEST_IMMEDIATE ≤ vec_capacity out.old → IsOk result }
    ensures capacity { vec_capacity out.old ≤ vec_capacity out.new }
{
    if head.rpcvers != RPC_VERSION {
        return deny(head.xid, [0, RPC_VERSION, RPC_VERSION], 3, out);
    }
    match read_cred(head.tail) {
        Ok((who, args)) => route_program(head, &who, args, e, out),
        Err(fault) => deny(head.xid, [1, auth_stat(fault), 0], 2, out),
    }
}

/// Says what to do with a record, and adds the record of its reply where it needs no tree: NULL and
/// MKNOD of NFS, all of MOUNT, denials, mismatches and garbage, by the first check that fits. The buffer is
/// as it was in every other case. `NoMemory` comes only for such a record, with its transaction id, and not
/// where the buffer has room for `LONGEST_IMMEDIATE` bytes more.
#[tactic(auto, unfolding(crate::specs::Immediate::immediate_reply))]
pub fn route<'a>(text: &'a [u8], e: &Exports, out: &mut Vec<u8>) -> Result<Routed<'a>, RouteFault>
    ensures routes { RoutesRecord (immediate_reply e.now.fsid text.now) text.now out.old.items out.new.items result }
    ensures room { vec_len out.old + LONGEST_IMMEDIATE ≤ vec_capacity out.old
        → (xid : ℕ) → result ≢ Err (RouteFault.NoMemory xid) }
    ensures capacity { vec_capacity out.old ≤ vec_capacity out.new }
{
    let head = match read_call(text) {
        Ok(head) => head,
        Err(fault) => return Err(RouteFault::BadRecord(fault)),
    };
    route_head(&head, e, out)
}
