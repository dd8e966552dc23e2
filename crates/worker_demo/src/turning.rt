//! Turns alone: how long a turn takes is measured by these.

ghost use Rattle.std.specs.Prelude.{◌≡◌, ◌+◌, ◌<◌, ◌≤◌};
ghost use Rattle.std.specs.Thread.{IsSync};
ghost use Rattle.worker_demo.specs.Calls.{IsFor};

use nfs3_types::NoMemory;
use page_types::Journaled;
use std::alloc::Global;
use std::rt::Clock;
use std::sync::Wait;
use std::thread;
use std::thread::Threads;
use std::time::Instant;
use turnstile::{Pass, Turn};

/// What the workers add to. Its journal stays empty.
#[derive(Drop)]
pub struct Counter {
    sum: u64,
}

impl Journaled for Counter {
    ghost use Rattle.std.specs.Prelude.{[]};

    ghost journal = { λ counter. [] };

    ghost origin = { λ counter. record { stores = 1; first = [] } };
}

/// Keeps the turn for so many nanoseconds, by the machine's clock.
fn stay<R: Clock>(rt: &R, nanos: u32) {
    if nanos == 0 {
        return;
    }
    let Ok(start) = Instant::now(rt) else {
        return;
    };
    for _ in 0..u64::MAX {
        match start.elapsed(rt) {
            Ok(past) => {
                if past.as_nanos() >= u128::from(nanos) {
                    return;
                }
            }
            Err(_) => return,
        }
    }
}

/// Takes so many turns, and adds one in each.
fn add<R: Wait + Clock>(
    rt: &R,
    turn: &Turn<Counter>,
    pass: Pass<Counter>,
    turns: u32,
    nanos: u32,
) -> Pass<Counter>
    requires { IsFor turn.now pass.number pass.end pass }
    ensures { IsFor turn.now pass.number pass.end result }
{
    let mut pass = pass;
    for _ in 0..turns {
        let mut counter = turn.take(rt, &mut pass);
        counter.sum = counter.sum.wrapping_add(1);
        stay(rt, nanos);
        turn.give(&mut pass, counter);
    }
    pass
}

/// Takes in a pass with the numbers above.
fn joined(turn: &Turn<Counter>, low: Pass<Counter>, high: Pass<Counter>) -> Pass<Counter>
    requires low { IsFor turn.now low.number low.end low }
    requires high { IsFor turn.now low.end high.end high }
    requires some { (low.number < low.end) × (low.end < high.end) }
    ensures { IsFor turn.now low.number high.end result }
{
    let mut low = low;
    turn.join(&mut low, high);
    low
}

/// The workers of these numbers take so many turns each, each in a thread of its own: the pass with all their numbers.
#[cycle(adders)]
fn add_all<R: Threads + Wait + Clock + Sync>(
    rt: &R,
    turn: &Turn<Counter>,
    pass: Pass<Counter>,
    number: u32,
    last: u32,
    turns: u32,
    nanos: u32,
) -> Pass<Counter>
    requires pass { IsFor turn.now number pass.end pass }
    requires end { (number < pass.end) × (last < pass.end) }
    ensures { IsFor turn.now number pass.end result }
{
    if number >= last {
        return pass;
    }
    let mut mine = pass;
    let next = number + 1;
    let others = turn.split(&mut mine, next);
    let (low, high) = thread::join(
        rt,
        || -> Pass<Counter>
            requires { IsFor turn.now mine.number mine.end mine }
            ensures { IsFor turn.entry.now mine.number mine.end result }
        { add(rt, turn, mine, turns, nanos) },
        || -> Pass<Counter>
            requires { IsSync R.row × IsFor turn.now next others.end others × (next < others.end) × (last < others.end) }
            ensures { IsFor turn.entry.now others.number others.end result }
        { add_all(rt, turn, others, next, last, turns, nanos) },
    );
    joined(turn, low, high)
}

/// So many workers take so many turns each, and keep each for so many nanoseconds. It tells how many turns were taken.
pub fn turns<R: Threads + Wait + Clock + Sync>(
    rt: &R,
    alloc: Global,
    workers: u32,
    each: u32,
    nanos: u32,
) -> Result<u64, NoMemory>
    requires { workers ≤ 64 }
{
    let (turn, first) = Turn::new(alloc, Counter { sum: 0 })?;
    let all = add_all(rt, &turn, first, 0, workers, each, nanos);
    Ok(turn.close(all).sum)
}
