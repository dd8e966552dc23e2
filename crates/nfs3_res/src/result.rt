//! Reading results.

ghost use Rattle.std.specs.Prelude.{◌-◌, ◌^◌, ◌<◌, ◌≤◌, length, IfOk, IfErr};
ghost use Rattle.xdr_grammar.specs.Whole.{whole};
ghost use Rattle.nfs3_types.specs.Replies.{Outcome, refusal, result_of, reply_of};
ghost use Rattle.nfs3_res.specs.Reading.{Passes, Tells, TellsWhole, reply_at, reply_in, IsReplyOf, Answers, IsFaultOf};
ghost use Rattle.nfs3_res.specs.Spelled.{IsSpelled};

use crate::fault::ResFault;
use crate::reading::{read_body, read_link, read_rename};
use crate::status::succeeded;
use nfs3_items::{read_post_op_attr, read_status, read_wcc};
use nfs3_types::{Body, Procedure, Reply, Status};
use std::alloc::Global;
use xdr::Reader;
use xdr_grammar::XdrFault;

/// Reads what a result of another status than OK says, and drops it.
#[tactic(auto, unfolding(nfs3_types::specs::Replies::told))]
fn skip_refusal(procedure: Procedure, reader: &mut Reader<'_>) -> Result<(), XdrFault>
    ensures { Passes (refusal procedure) reader.old reader.new result }
{
    match procedure {
        Procedure::Null | Procedure::GetAttr => {}
        Procedure::Lookup
        | Procedure::Access
        | Procedure::ReadLink
        | Procedure::Read
        | Procedure::ReadDir
        | Procedure::ReadDirPlus
        | Procedure::FsStat
        | Procedure::FsInfo
        | Procedure::PathConf => {
            read_post_op_attr(reader)?;
        }
        Procedure::SetAttr
        | Procedure::Write
        | Procedure::Create
        | Procedure::Mkdir
        | Procedure::Symlink
        | Procedure::Mknod
        | Procedure::Remove
        | Procedure::Rmdir
        | Procedure::Commit => {
            read_wcc(reader)?;
        }
        Procedure::Link => {
            read_link(reader)?;
        }
        Procedure::Rename => {
            read_rename(reader)?;
        }
    }
    Ok(())
}

/// Reads the result of a procedure.
#[tactic(auto, unfolding(nfs3_types::specs::Replies::result_of, nfs3_types::specs::Replies::result, nfs3_types::specs::Replies::result_with_status))]
fn read_result(alloc: Global, number: u32, reader: &mut Reader<'_>) -> Result<Reply, ResFault>
    ensures { Tells (reply_at number reader.old) reader.new result }
{
    let procedure = Procedure::at(number);
    if !procedure.has_status() {
        return Ok(Reply {
            procedure: number,
            status: Status::Ok,
            body: Body::Null,
        });
    }
    let status = read_status(reader)?;
    if succeeded(status) {
        let body = read_body(alloc, procedure, reader)?;
        Ok(Reply {
            procedure: number,
            status,
            body,
        })
    } else {
        skip_refusal(procedure, reader)?;
        Ok(Reply {
            procedure: number,
            status,
            body: Body::Nothing,
        })
    }
}

/// Reads the result that the whole text is.
fn read_whole(alloc: Global, procedure: u32, text: &[u8]) -> Result<Reply, ResFault>
    ensures { TellsWhole (reply_in procedure text.now) result }
{
    let mut reader = Reader::new(text);
    let reply = read_result(alloc, procedure, &mut reader)?;
    reader.end()?;
    Ok(reply)
}

/// Reads a whole result by the procedure's number. What a result of another status than OK says besides
/// its status is dropped. The fault is the first one; `Trailing` comes exactly where bytes remain behind
/// the result.
pub fn read_reply(alloc: Global, procedure: u32, text: &[u8]) -> Result<Reply, ResFault>
    requires { procedure ≤ 21 }
    ensures read { IfOk result (λ reply. IsReplyOf procedure text.now reply) }
    ensures only { (outcome : Outcome) → (result_of procedure).Spells outcome text.now
        → Answers (reply_of procedure outcome) result }
    ensures writable { length text.now < 2 ^ 31 - 24 → IfOk result (λ reply. IsSpelled reply) }
    ensures bad { IfErr result (λ fault. IsFaultOf procedure text.now fault) }
{
    read_whole(alloc, procedure, text)
}
