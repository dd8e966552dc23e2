ghost use Rattle.std.specs.Prelude.{◌≡◌, ◌<◌, ◌≤◌, false};
ghost use Rattle.thread_checks.specs.Rests.{IsFor};

use nfs3_types::NoMemory;
use page_types::Journaled;
use std::alloc::Global;
use std::sync::Wait;
use std::test::*;
use std::thread;
use std::thread::Threads;
use turnstile::{Pass, Turn};

/// A number that passes add to, with a journal that stays empty.
#[derive(Drop)]
struct Counter {
    sum: u64,
}

impl Journaled for Counter {
    ghost use Rattle.std.specs.Prelude.{[]};

    ghost journal = { λ counter. [] };

    ghost origin = { λ counter. record { stores = 1; first = [] } };
}

/// Adds one so many times, each in a turn of its own.
fn add_many<R: Wait>(rt: &R, turn: &Turn<Counter>, pass: Pass<Counter>, times: u32) -> Pass<Counter>
    requires { IsFor turn.now pass.number pass.end pass }
    ensures { IsFor turn.now pass.number pass.end result }
{
    let mut pass = pass;
    for _ in 0..times {
        let mut counter = turn.take(rt, &mut pass);
        counter.sum = counter.sum.wrapping_add(1);
        turn.give(&mut pass, counter);
    }
    pass
}

/// Takes in a pass with the numbers above.
fn joined(turn: &Turn<Counter>, low: Pass<Counter>, high: Pass<Counter>) -> Pass<Counter>
    requires low { IsFor turn.now low.number low.end low }
    requires high { IsFor turn.now low.end high.end high }
    requires some { (low.number < low.end) × (low.end < high.end) }
    ensures { IsFor turn.now low.number high.end result }
{
    let mut low = low;
    turn.join(&mut low, high);
    low
}

/// Two passes, whose numbers border, add in two threads.
fn two<R: Threads + Wait + Sync>(
    rt: &R,
    turn: &Turn<Counter>,
    low: Pass<Counter>,
    high: Pass<Counter>,
) -> Pass<Counter>
    requires low { IsFor turn.now low.number low.end low }
    requires high { IsFor turn.now low.end high.end high }
    requires some { (low.number < low.end) × (low.end < high.end) }
    ensures { IsFor turn.now low.number high.end result }
{
    let (low, high) = thread::join(
        rt,
        || -> Pass<Counter>
            requires { IsFor turn.now low.number low.end low }
            ensures { IsFor turn.entry.now low.number low.end result }
        { add_many(rt, turn, low, 1000) },
        || -> Pass<Counter>
            requires { IsFor turn.now high.number high.end high }
            ensures { IsFor turn.entry.now high.number high.end result }
        { add_many(rt, turn, high, 1000) },
    );
    joined(turn, low, high)
}

/// Four passes add in four threads, and are joined; then the state is taken out.
fn four<R: Threads + Wait + Sync>(rt: &R, alloc: Global) -> Result<u64, NoMemory> {
    let (turn, first) = Turn::new(alloc, Counter { sum: 0 })?;
    let mut first = first;
    let mut second = turn.split(&mut first, 1);
    let mut third = turn.split(&mut second, 2);
    let fourth = turn.split(&mut third, 3);
    let (low, high) = {
        let turn = &turn;
        thread::join(
            rt,
            || -> Pass<Counter>
                requires { IsFor turn.now 0 1 first × IsFor turn.now 1 2 second }
                ensures { IsFor turn.entry.now 0 2 result }
            { two(rt, turn, first, second) },
            || -> Pass<Counter>
                requires { IsFor turn.now 2 3 third × IsFor turn.now 3 4_294_967_296 fourth }
                ensures { IsFor turn.entry.now 2 4_294_967_296 result }
            { two(rt, turn, third, fourth) },
        )
    };
    let all = joined(&turn, low, high);
    Ok(turn.close(all).sum)
}

#[test]
fn many_takers_on_one_state(rt: HostRuntime) -> Result<(), Fail> {
    assert_eq!(rt; four(&rt, rt.alloc())?, 4000);
    Ok(())
}
