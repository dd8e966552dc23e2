//! Writing results.

ghost use Rattle.std.specs.Prelude.{◌≡◌, OnErr};
ghost use Rattle.xdr_grammar.specs.Writing.{Puts};
ghost use Rattle.nfs3_types.specs.Replies.{telling, refusal, nothing_in, result_of, outcome_of};
ghost use Rattle.nfs3_res.specs.Spelled.{IsSpelled};

use crate::putting::{put_body, put_link, put_rename};
use crate::size::reply_size;
use crate::status::succeeded;
use nfs3_items::{put_post_op_attr, put_status, put_wcc};
use nfs3_types::{LinkOk, NoMemory, Procedure, RenameOk, Reply, Wcc};

/// No attributes.
const ABSENT: Wcc = Wcc {
    before: None,
    after: None,
};

/// Adds what a result of another status than OK says, each optional item absent.
#[tactic(auto, unfolding(nfs3_types::specs::Replies::told))]
fn put_refusal(out: &mut Vec<u8>, procedure: Procedure) -> Result<(), NoMemory>
    ensures { Puts (refusal procedure) (nothing_in (telling procedure)) out.old out.new result }
{
    match procedure {
        Procedure::Null | Procedure::GetAttr => Ok(()),
        Procedure::Lookup
        | Procedure::Access
        | Procedure::ReadLink
        | Procedure::Read
        | Procedure::ReadDir
        | Procedure::ReadDirPlus
        | Procedure::FsStat
        | Procedure::FsInfo
        | Procedure::PathConf => put_post_op_attr(out, &None),
        Procedure::SetAttr
        | Procedure::Write
        | Procedure::Create
        | Procedure::Mkdir
        | Procedure::Symlink
        | Procedure::Mknod
        | Procedure::Remove
        | Procedure::Rmdir
        | Procedure::Commit => put_wcc(out, &ABSENT),
        Procedure::Link => put_link(
            out,
            &LinkOk {
                attributes: None,
                directory: ABSENT,
            },
        ),
        Procedure::Rename => put_rename(
            out,
            &RenameOk {
                from: ABSENT,
                to: ABSENT,
            },
        ),
    }
}

/// Adds a result into room that was reserved.
#[tactic(auto, unfolding(nfs3_types::specs::Replies::result_of, nfs3_types::specs::Replies::result, nfs3_types::specs::Replies::result_with_status))]
fn put_result(out: &mut Vec<u8>, r: &Reply) -> Result<(), NoMemory>
    requires { IsSpelled r.now }
    ensures { Puts (result_of r.now.procedure) (outcome_of r.now) out.old out.new result }
{
    let procedure = Procedure::at(r.procedure);
    if !procedure.has_status() {
        return Ok(());
    }
    put_status(out, r.status)?;
    if succeeded(r.status) {
        put_body(out, &r.body)
    } else {
        put_refusal(out, procedure)
    }
}

/// Adds the one spelling of a reply's result, which has to be one and shorter than 2^31 - 24 bytes: its
/// status and its body, or its status and what a failure says, each optional item absent. NULL's result has
/// no bytes. At `NoMemory` the buffer holds what it held.
pub fn write_reply(r: &Reply, out: &mut Vec<u8>) -> Result<(), NoMemory>
    requires { IsSpelled r.now }
    ensures puts { Puts (result_of r.now.procedure) (outcome_of r.now) out.old out.new result }
    ensures err { OnErr result (out.new.items ≡ out.old.items) }
{
    out.reserve(reply_size(r))?;
    put_result(out, r)
}
