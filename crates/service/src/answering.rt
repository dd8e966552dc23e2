//! Answering the records of a piece of the stream.

ghost use Rattle.std.specs.Prelude.{◌≡◌, ℕ, ◌≤◌, List, [], None, vec_capacity, OnOk, IfErr};
ghost use Rattle.rpc_records.specs.Progress.{IsUnfinished, refusal_of};
ghost use Rattle.service.specs.Session.{desk, desk_told};
ghost use Rattle.service.specs.Steps.{AnsweredAll, AnsweredUntil, StopHasCause, IsReading, end_of};

use crate::one_call::answer_record;
use crate::put_all::put_all;
use crate::room::LONGEST_RECORD;
use crate::tree::Tree;
use mount3::Exports;
use outside::{Clock, Sink};
use rpc_records::Records;
use std::alloc::Global;

/// Why the answering stopped.
#[derive(Clone, Copy, Debug, PartialEq, Eq)]
pub enum Stop {
    /// Record marking refuses the stream: a record has too many bytes or fragments.
    TooLong,
    /// A record is no call.
    BadRecord,
    /// A reply could not be written.
    WriteFault,
}

/// Answers the record that is kept, if one is, and drops it.
fn answer_whole<T: Tree, C: Clock, K: Sink>(
    alloc: Global,
    exports: &Exports,
    tree: &mut T,
    records: &mut Records,
    reply: &mut Vec<u8>,
    clock: &mut C,
    output: &mut K,
) -> Result<(), Stop>
    requires exports { exports.now.fsid ≡ T.answering.fsid }
    requires accepted { refusal_of records.old ≡ None }
    requires room { LONGEST_RECORD ≤ vec_capacity reply.old }
    ensures ok { OnOk result (AnsweredAll (desk_told T.answering C.told K.told)
        (desk (T.plain tree.old) clock.old output.old) (desk (T.plain tree.new) clock.new output.new)
        records.old records.new []) }
    ensures unfinished { OnOk result (IsUnfinished records.new) }
    ensures err { IfErr result (λ stop. (more : List ℕ) → AnsweredUntil (desk_told T.answering C.told K.told)
        (desk (T.plain tree.old) clock.old output.old) (desk (T.plain tree.new) clock.new output.new)
        (end_of stop) records.old more) }
    ensures cause { StopHasCause (K.told.faults output.old) (K.told.faults output.new) result }
    ensures capacity { vec_capacity reply.old ≤ vec_capacity reply.new }
{
    let Some(content) = records.whole() else {
        return Ok(());
    };
    match answer_record(alloc, exports, tree, content, clock, reply) {
        Ok(()) => {}
        Err(_) => return Err(Stop::BadRecord),
    }
    records.next();
    let Ok(()) = put_all(output, reply) else {
        return Err(Stop::WriteFault);
    };
    Ok(())
}

/// Answers the records of which the piece has the last bytes, and keeps what comes after them.
pub fn answer_piece<T: Tree, C: Clock, K: Sink>(
    alloc: Global,
    exports: &Exports,
    tree: &mut T,
    piece: &[u8],
    records: &mut Records,
    reply: &mut Vec<u8>,
    clock: &mut C,
    output: &mut K,
) -> Result<(), Stop>
    requires exports { exports.now.fsid ≡ T.answering.fsid }
    requires reading { IsReading records.old }
    requires room { LONGEST_RECORD ≤ vec_capacity reply.old }
    ensures ok { OnOk result (AnsweredAll (desk_told T.answering C.told K.told)
        (desk (T.plain tree.old) clock.old output.old) (desk (T.plain tree.new) clock.new output.new)
        records.old records.new piece.now) }
    ensures unfinished { OnOk result (IsUnfinished records.new) }
    ensures err { IfErr result (λ stop. AnsweredUntil (desk_told T.answering C.told K.told)
        (desk (T.plain tree.old) clock.old output.old) (desk (T.plain tree.new) clock.new output.new)
        (end_of stop) records.old piece.now) }
    ensures cause { StopHasCause (K.told.faults output.old) (K.told.faults output.new) result }
    ensures capacity { vec_capacity reply.old ≤ vec_capacity reply.new }
{
    let mut rest = piece;
    while !rest.is_empty() {
        match records.feed(rest) {
            Ok(n) => rest = &rest[n..],
            Err(_) => return Err(Stop::TooLong),
        }
        answer_whole(alloc, exports, tree, records, reply, clock, output)?;
    }
    Ok(())
}
