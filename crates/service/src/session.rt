//! A session: all records of a stream, one after another.

ghost use Rattle.std.specs.Prelude.{◌≡◌};
ghost use Rattle.service.specs.Room.{IsRoom};
ghost use Rattle.service.specs.Session.{SessionRuns, desk, desk_told, session_at, session_told};
ghost use Rattle.service.specs.Steps.{end_of};

use crate::answering::{Stop, answer_piece};
use crate::room::Room;
use crate::tree::Tree;
use mount3::Exports;
use outside::{Clock, Sink, Source};
use std::alloc::Global;

/// How many takes that give a byte a session makes.
const MOST_TAKES: u64 = 1 << 48;

/// How a session ended.
#[derive(Clone, Copy, Debug, PartialEq, Eq)]
pub enum SessionEnd {
    /// The input ended between two records.
    Done,
    /// The source failed.
    ReadFault,
    /// The sink failed.
    WriteFault,
    /// The input ended inside a record.
    CutRecord,
    /// A record has too many bytes or fragments.
    TooLong,
    /// A record is no call.
    BadRecord,
    /// 2^48 takes gave a byte.
    ManyReads,
}

/// How a session ended where its answering stopped.
fn end_of(stop: Stop) -> SessionEnd
    ensures { result ≡ end_of stop }
{
    match stop {
        Stop::TooLong => SessionEnd::TooLong,
        Stop::BadRecord => SessionEnd::BadRecord,
        Stop::WriteFault => SessionEnd::WriteFault,
    }
}

/// Answers the records of the input in order, each reply written whole before the next record is
/// looked at. Where memory lacks for a call, the reply that says so takes the place of its own.
pub fn session<T: Tree, S: Source, C: Clock, K: Sink>(
    alloc: Global,
    exports: &Exports,
    tree: &mut T,
    room: &mut Room,
    input: &mut S,
    clock: &mut C,
    output: &mut K,
) -> SessionEnd
    requires exports { exports.now.fsid ≡ T.answering.fsid }
    requires room { IsRoom room.old }
    ensures { SessionRuns (session_told S.told (desk_told T.answering C.told K.told))
        (session_at input.old (desk (T.plain tree.old) clock.old output.old))
        (session_at input.new (desk (T.plain tree.new) clock.new output.new)) result }
{
    for _turn in 0..MOST_TAKES {
        let Ok(n) = input.take(&mut room.buffer) else {
            return SessionEnd::ReadFault;
        };
        if n == 0 {
            if room.records.at_edge() {
                return SessionEnd::Done;
            }
            return SessionEnd::CutRecord;
        }
        match answer_piece(
            alloc,
            exports,
            tree,
            &room.buffer[..n],
            &mut room.records,
            &mut room.reply,
            clock,
            output,
        ) {
            Ok(()) => {}
            Err(stop) => return end_of(stop),
        }
    }
    SessionEnd::ManyReads
}
