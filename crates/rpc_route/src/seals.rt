//! The records of replies to calls that needed the tree.

ghost use Rattle.std.specs.Prelude.{◌≡◌, ◌≢◌, ◌+◌, ◌≤◌, ◌++◌, [], vec_len, vec_capacity, OnOk, OnErr, IsOk};
ghost use Rattle.rpc_msg.specs.Replies.{accepted_record};
ghost use Rattle.nfs3_types.specs.Replies.{result_of, outcome_of};
ghost use Rattle.nfs3_res.specs.Spelled.{IsSpelled};
ghost use Rattle.rpc_route.specs.Sealing.{sealed};

use nfs3_res::{reply_size, write_reply};
use nfs3_types::{Body, NoMemory, Reply, Status};
use rpc_msg::{write_accepted, write_accepted_head};

/// The call succeeded (RFC 5531, section 9, accept_stat).
const SUCCESS: u32 = 0;

/// The server has no memory (accept_stat).
const SYSTEM_ERR: u32 = 5;

/// How many bytes of the record of an accepted reply stand before its results: the mark and the head. The
/// record that says that memory ran out has no more.
pub const ACCEPTED_HEAD: usize = 28;

/// How many bytes the longest record of a failure has, where each optional item is absent.
pub const LONGEST_BARE: usize = 48;

/// Puts the record of a reply, whose result has `size` bytes, into room that was reserved.
fn put_sealed(xid: u32, size: u32, r: &Reply, out: &mut Vec<u8>) -> Result<(), NoMemory>
    requires spelled { IsSpelled r.now }
    requires size { size ≡ (result_of r.now.procedure).size (outcome_of r.now) }
    ensures ok { OnOk result (out.new.items ≡ out.old.items ++ sealed xid r.now) }
    ensures room { vec_len out.old + (ACCEPTED_HEAD + size) ≤ vec_capacity out.old → IsOk result }
    ensures capacity { vec_capacity out.old ≤ vec_capacity out.new }
{
    write_accepted_head(xid, SUCCESS, size, out)?;
    write_reply(r, out)
}

/// Adds the record of a reply, whose result has to have a spelling: the mark, the head of an accepted reply
/// (SUCCESS), and the result. At `NoMemory` the buffer holds what it held.
pub fn seal(xid: u32, r: &Reply, out: &mut Vec<u8>) -> Result<(), NoMemory>
    requires { IsSpelled r.now }
    ensures ok { OnOk result (out.new.items ≡ out.old.items ++ sealed xid r.now) }
    ensures err { OnErr result (out.new.items ≡ out.old.items) }
    ensures room { vec_len out.old + (ACCEPTED_HEAD + (result_of r.now.procedure).size (outcome_of r.now)) ≤ vec_capacity out.old
        → IsOk result }
    ensures capacity { vec_capacity out.old ≤ vec_capacity out.new }
{
    let size = reply_size(r);
    out.reserve(ACCEPTED_HEAD + size)?;
    put_sealed(xid, size as u32, r, out)
}

/// Adds the record of a failure's reply, where each optional item is absent, into room of `LONGEST_BARE` bytes
/// that was reserved, so it takes no memory.
pub fn seal_bare(xid: u32, procedure: u32, status: Status, out: &mut Vec<u8>)
    requires first { 1 ≤ procedure }
    requires last { procedure ≤ 21 }
    requires failed { status ≢ Status.Ok }
    requires room { vec_len out.old + LONGEST_BARE ≤ vec_capacity out.old }
    ensures seal { out.new.items ≡ out.old.items
        ++ sealed xid (record { procedure = procedure; status = status; body = Body.Nothing }) }
    ensures capacity { vec_capacity out.old ≤ vec_capacity out.new }
{
    let reply = Reply {
        procedure,
        status,
        body: Body::Nothing,
    };
    let Ok(()) = seal(xid, &reply, out) else {
        unreachable!()
    };
}

/// Adds the record that says that memory ran out for this call (SYSTEM_ERR) into room of `ACCEPTED_HEAD` bytes
/// that was reserved, so it takes no memory.
pub fn seal_system(xid: u32, out: &mut Vec<u8>)
    requires { vec_len out.old + ACCEPTED_HEAD ≤ vec_capacity out.old }
    ensures seal { out.new.items ≡ out.old.items ++ accepted_record xid 5 [] }
    ensures capacity { vec_capacity out.old ≤ vec_capacity out.new }
{
    let Ok(()) = write_accepted(xid, SYSTEM_ERR, b"".as_slice(), out) else {
        unreachable!()
    };
}
