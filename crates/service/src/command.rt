//! The top call.

ghost use Rattle.std.specs.Prelude.{◌≡◌, ◌⊎◌, ◌^◌, IfOk, OnErr};
ghost use Rattle.nfs3_types.specs.Count.{Rose, RoseBy};
ghost use Rattle.outside.specs.Seen.{outside, seen, streams, streams_told};
ghost use Rattle.service.specs.Run.{EndsByText, Feeds, GotLine, IsApart, IsFeed, Outcome, Runs, line_of, status_of};

use crate::put_all::put_all;
use crate::room::Room;
use crate::served_tree::{FSID, ServedTree};
use crate::session::{SessionEnd, session};
use crate::words::is_plain_feed;
use mount3::Exports;
use outside::{Clock, NoMemory, Sink, Source, Weather};
use std::alloc::Global;

/// How a run ended.
#[derive(Clone, Copy, Debug, PartialEq, Eq)]
pub enum RunEnd {
    /// The words are no command.
    Usage,
    /// Memory ran out before the first take, also for reading the words.
    NoMemory,
    /// The session ended so.
    Session(SessionEnd),
}

/// The exit status of an end.
fn status(end: RunEnd) -> u8
    ensures { result ≡ status_of end }
{
    match end {
        RunEnd::Session(SessionEnd::Done) => 0,
        RunEnd::Usage => 1,
        RunEnd::Session(SessionEnd::ReadFault) => 2,
        RunEnd::Session(SessionEnd::WriteFault) => 3,
        RunEnd::Session(SessionEnd::CutRecord) => 4,
        RunEnd::Session(SessionEnd::TooLong) => 5,
        RunEnd::Session(SessionEnd::BadRecord) => 6,
        RunEnd::NoMemory => 7,
        RunEnd::Session(SessionEnd::ManyReads) => 8,
    }
}

/// The line of an end on the error sink.
#[tactic(auto, unfolding(crate::specs::Run::line_of))]
fn line(end: RunEnd) -> &'static [u8]
    ensures { result.now ≡ line_of end }
{
    match end {
        RunEnd::Session(SessionEnd::Done) => b"",
        RunEnd::Usage =>
            b"fss: usage: fss feed [STORES REPLICAS] | fss work NUMBER CALLS [STORES REPLICAS LOST ROUGH] | fss serve ADDRESS WORKERS CONNECTIONS STORES REPLICAS\n",
        RunEnd::Session(SessionEnd::ReadFault) => b"fss: input failed\n",
        RunEnd::Session(SessionEnd::WriteFault) => b"fss: output failed\n",
        RunEnd::Session(SessionEnd::CutRecord) => b"fss: input ended inside a record\n",
        RunEnd::Session(SessionEnd::TooLong) => b"fss: record too long\n",
        RunEnd::Session(SessionEnd::BadRecord) => b"fss: bad record\n",
        RunEnd::NoMemory => b"fss: no memory\n",
        RunEnd::Session(SessionEnd::ManyReads) => b"fss: too many reads\n",
    }
}

/// Puts the line of an end, or as much of it as the sink takes.
fn tell<E: Sink>(errors: &mut E, end: RunEnd)
    ensures { GotLine E.told errors.old errors.new (line_of end) }
{
    let _ = put_all(errors, line(end));
}

/// Answers the records of the input on the tree as it begins, which is made at the clock's next
/// moment. What it needs of memory before the first reply it takes before it reads the clock or the input.
fn feed<S: Source, C: Clock, K: Sink>(
    alloc: Global,
    input: &mut S,
    clock: &mut C,
    output: &mut K,
) -> Result<SessionEnd, NoMemory>
    ensures ok { IfOk result (λ end. Feeds (streams_told S.told C.told K.told)
        (streams input.old clock.old output.old) (streams input.new clock.new output.new) end) }
    ensures err { OnErr result
        (streams input.new clock.new output.new ≡ streams input.old clock.old output.old) }
{
    let mut room = Room::new(alloc)?;
    let mut tree = ServedTree::new(alloc)?;
    tree.begin(clock.now());
    Ok(session(
        alloc,
        &Exports { fsid: FSID },
        &mut tree,
        &mut room,
        input,
        clock,
        output,
    ))
}

/// Runs the command of the words.
fn run_command<S: Source, C: Clock, K: Sink>(
    alloc: Global,
    words: &[String],
    input: &mut S,
    clock: &mut C,
    output: &mut K,
) -> RunEnd
    ensures { Outcome (streams_told S.told C.told K.told) words.now
        (streams input.old clock.old output.old) (streams input.new clock.new output.new) result }
{
    match is_plain_feed(alloc, words) {
        Ok(true) => match feed(alloc, input, clock, output) {
            Ok(end) => RunEnd::Session(end),
            Err(NoMemory) => RunEnd::NoMemory,
        },
        Ok(false) => RunEnd::Usage,
        Err(NoMemory) => RunEnd::NoMemory,
    }
}

/// Runs the command that the words are, and answers its exit status. Of commands there is `feed`,
/// without a shape of stores: it answers the records of the input in order, on the output. A line on the error sink says why it
/// ended, where that is not the end of the input between two records.
pub fn run<S: Source, K: Sink, E: Sink, C: Clock, W: Weather>(
    alloc: Global,
    words: &[String],
    input: &mut S,
    output: &mut K,
    errors: &mut E,
    clock: &mut C,
    weather: &mut W,
) -> u8
    ensures runs { Runs (seen (streams_told S.told C.told K.told) E.told) words.now
        (outside (streams input.old clock.old output.old) errors.old)
        (outside (streams input.new clock.new output.new) errors.new) result }
    ensures by_text { IsApart result ⊎ EndsByText S.told input.old input.new result }
    // Where neither count rose, only want of memory and 2^48 takes are such statuses.
    ensures complete { IsFeed words.now
        → ¬ Rose (S.told.faults input.old) (S.told.faults input.new)
        → ¬ Rose (K.told.faults output.old) (K.told.faults output.new)
        → (result ≡ 7) ⊎ (result ≡ 8) ⊎ EndsByText S.told input.old input.new result }
    ensures usage { result ≡ 1 → ¬ IsFeed words.now }
    ensures refused { ¬ IsFeed words.now → (result ≡ 1) ⊎ (result ≡ 7) }
    ensures read_fault { result ≡ 2 → Rose (S.told.faults input.old) (S.told.faults input.new) }
    ensures write_fault { result ≡ 3 → Rose (K.told.faults output.old) (K.told.faults output.new) }
    ensures no_memory { result ≡ 7
        → streams input.new clock.new output.new ≡ streams input.old clock.old output.old }
    ensures many_reads { result ≡ 8 → RoseBy (2 ^ 48) (S.told.takes input.old) (S.told.takes input.new) }
    ensures weather { weather.new ≡ weather.old }
{
    let end = run_command(alloc, words, input, clock, output);
    tell(errors, end);
    status(end)
}
