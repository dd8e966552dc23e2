//! Answering the records of one visit.

ghost use Rattle.worker_demo.specs.Calls.{IsFor};

use crate::numbers::{Numbers, note_call};
use mount3::Exports;
use nfs3_types::NoMemory;
use outside::{Sink, Source};
use rpc_records::Records;
use rpc_route::{Routed, route};
use std::alloc::Global;
use std::sync::Wait;
use turnstile::{Pass, Turn};

/// How many bytes one take asks for.
const TAKE: usize = 4096;

/// The file system that MOUNT tells of. No tree stands behind it.
const EXPORTS: Exports = Exports { fsid: 1 };

/// The memory that a worker uses for one visit after another.
#[derive(Drop)]
pub struct Room {
    records: Records,
    reply: Vec<u8>,
}

impl Room {
    /// Room for the visits of one worker.
    pub fn new(alloc: Global) -> Result<Room, NoMemory> {
        Ok(Room {
            records: Records::new(alloc)?,
            reply: Vec::new(alloc),
        })
    }
}

/// Writes all of the part. False where the sink failed.
fn put_all<K: Sink>(sink: &mut K, part: &[u8]) -> bool {
    let mut rest = part;
    for _ in 0..u64::MAX {
        if rest.is_empty() {
            return true;
        }
        match sink.put(rest) {
            Ok(n) => {
                if n == 0 {
                    return false;
                }
                rest = &rest[n..];
            }
            Err(_) => return false,
        }
    }
    false
}

/// Puts the reply to a record that needs no tree in place of what the buffer holds. False where it needs the tree or
/// is no call, or memory lacks.
fn reply_to(record: &[u8], reply: &mut Vec<u8>) -> bool {
    reply.clear();
    matches!(route(record, &EXPORTS, reply), Ok(Routed::Ready))
}

/// Answers each record that becomes whole in a part of a visit, with a turn for each, and tells how many, and whether
/// more may come.
fn attend_part<R: Wait, K: Sink>(
    rt: &R,
    turn: &Turn<Numbers>,
    pass: &mut Pass<Numbers>,
    number: u32,
    records: &mut Records,
    reply: &mut Vec<u8>,
    part: &[u8],
    output: &mut K,
) -> (u64, bool)
    requires { IsFor turn.now number pass.old.end pass.old }
    ensures { IsFor turn.now number pass.old.end pass.new }
{
    let mut answered = 0u64;
    let mut rest = part;
    for _ in 0..=part.len() {
        let Ok(taken) = records.feed(rest) else {
            return (answered, false);
        };
        rest = &rest[taken..];
        let Some(record) = records.whole() else {
            return (answered, true);
        };
        let Ok(()) = note_call(rt, turn, pass, number) else {
            return (answered, false);
        };
        if !reply_to(record, reply) || !put_all(output, reply) {
            return (answered, false);
        }
        answered = answered.saturating_add(1);
        records.next();
    }
    (answered, true)
}

/// Answers each record of a visit to its end, and tells how many.
pub fn attend<R: Wait, S: Source, K: Sink>(
    rt: &R,
    turn: &Turn<Numbers>,
    pass: &mut Pass<Numbers>,
    number: u32,
    room: &mut Room,
    input: &mut S,
    output: &mut K,
) -> u64
    requires { IsFor turn.now number pass.old.end pass.old }
    ensures { IsFor turn.now number pass.old.end pass.new }
{
    let mut buffer = [0u8; TAKE];
    let mut answered = 0u64;
    room.records.begin();
    for _ in 0..u64::MAX {
        let Ok(n) = input.take(&mut buffer) else {
            return answered;
        };
        if n == 0 {
            return answered;
        }
        let part = &buffer[..n];
        let (more, goes_on) = attend_part(
            rt,
            turn,
            pass,
            number,
            &mut room.records,
            &mut room.reply,
            part,
            output,
        );
        answered = answered.saturating_add(more);
        if !goes_on {
            return answered;
        }
    }
    answered
}
