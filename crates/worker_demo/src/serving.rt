//! Serving the visits of a door by any number of workers.

ghost use Rattle.std.specs.Prelude.{◌≡◌, ◌+◌, ◌<◌, ◌≤◌};
ghost use Rattle.std.specs.Thread.{IsSync};
ghost use Rattle.worker_demo.specs.Calls.{IsFor};

use crate::attending::{Room, attend};
use crate::numbers::Numbers;
use doors::{Door, TcpInput, TcpOutput};
use hall::{Hall, HallPass, Next};
use nfs3_types::NoMemory;
use std::alloc::Global;
use std::sync::Wait;
use std::thread;
use std::thread::Threads;
use turnstile::{Pass, Turn};

/// The two halves of a connection, which a thread may take: its type has no parameter, and so no lifetime.
#[derive(Drop)]
pub struct Caller {
    input: TcpInput,
    output: TcpOutput,
}

/// What was done: how many calls were answered, how many visits were handed over, and how many numbers were given out.
#[derive(Drop)]
pub struct Served {
    pub calls: u64,
    pub visits: u32,
    pub given: usize,
}

/// Serves the visits of the hall until a mark of the end comes, and tells how many calls it answered. A worker with no
/// room ends each visit at once.
fn work<R: Wait>(
    rt: &R,
    alloc: Global,
    turn: &Turn<Numbers>,
    hall: &Hall<Caller>,
    pass: Pass<Numbers>,
    way: HallPass<Caller>,
    number: u32,
) -> (Pass<Numbers>, u64)
    requires pass { IsFor turn.now number pass.end pass }
    requires way { way.hall ≡ hall.now }
    ensures { IsFor turn.now number pass.end result.0 }
{
    let mut pass = pass;
    let mut way = way;
    let mut room = Room::new(alloc).ok();
    let mut calls = 0u64;
    for _ in rt.forever() {
        let Next::Visit(visit) = hall.wait_next(rt, &mut way) else {
            return (pass, calls);
        };
        let Some(room) = &mut room else {
            continue;
        };
        let Caller {
            mut input,
            mut output,
        } = visit;
        let answered = attend(rt, turn, &mut pass, number, room, &mut input, &mut output);
        calls = calls.saturating_add(answered);
    }
    unreachable!()
}

/// Takes in a pass with the numbers above.
fn joined(turn: &Turn<Numbers>, low: Pass<Numbers>, high: Pass<Numbers>) -> Pass<Numbers>
    requires low { IsFor turn.now low.number low.end low }
    requires high { IsFor turn.now low.end high.end high }
    requires some { (low.number < low.end) × (low.end < high.end) }
    ensures { IsFor turn.now low.number high.end result }
{
    let mut low = low;
    turn.join(&mut low, high);
    low
}

/// The workers of these numbers, each in a thread of its own: the pass with all their numbers, and how many calls they
/// answered.
#[cycle(workers)]
fn crew<R: Threads + Wait + Sync>(
    rt: &R,
    alloc: Global,
    turn: &Turn<Numbers>,
    hall: &Hall<Caller>,
    pass: Pass<Numbers>,
    root: HallPass<Caller>,
    number: u32,
    last: u32,
) -> (Pass<Numbers>, u64)
    requires pass { IsFor turn.now number pass.end pass }
    requires end { (number < pass.end) × (last < pass.end) }
    requires root { root.hall ≡ hall.now }
    ensures { IsFor turn.now number pass.end result.0 }
{
    if number >= last {
        return (pass, 0);
    }
    let mut root = root;
    let Ok(way) = hall.split(&mut root) else {
        return (pass, 0);
    };
    let mut mine = pass;
    let next = number + 1;
    let others = turn.split(&mut mine, next);
    let (one, more) = thread::join(
        rt,
        || -> (Pass<Numbers>, u64)
            requires { IsFor turn.now number mine.end mine × (way.hall ≡ hall.now) }
            ensures { IsFor turn.entry.now mine.number mine.end result.0 }
        { work(rt, alloc, turn, hall, mine, way, number) },
        || -> (Pass<Numbers>, u64)
            requires { IsSync R.row × IsFor turn.now next others.end others × (next < others.end) × (last < others.end)
                × (root.hall ≡ hall.now) }
            ensures { IsFor turn.entry.now others.number others.end result.0 }
        { crew(rt, alloc, turn, hall, others, root, next, last) },
    );
    (joined(turn, one.0, more.0), one.1.saturating_add(more.1))
}

/// Hands so many visits of a door over, and tells how many came.
fn hand_visits<R: Wait, D: Door<Input = TcpInput, Output = TcpOutput>>(
    rt: &R,
    hall: &Hall<Caller>,
    way: &mut HallPass<Caller>,
    connections: u32,
    door: &mut D,
) -> u32
    requires { way.old.hall ≡ hall.now }
    ensures { way.new.hall ≡ hall.now }
{
    let mut visits = 0u32;
    for _ in 0..connections {
        let Ok(Some(visit)) = door.next() else {
            return visits;
        };
        let caller = Caller {
            input: visit.input,
            output: visit.output,
        };
        hall.wait_hand(rt, way, caller);
        visits = visits.saturating_add(1);
    }
    visits
}

/// Hands the visits of a door over, and then a mark of the end for each worker. It tells how many visits came.
fn usher<R: Wait, D: Door<Input = TcpInput, Output = TcpOutput>>(
    rt: &R,
    hall: &Hall<Caller>,
    way: HallPass<Caller>,
    connections: u32,
    workers: u32,
    door: &mut D,
) -> u32
    requires { way.hall ≡ hall.now }
{
    let mut way = way;
    let visits = hand_visits(rt, hall, &mut way, connections, door);
    for _ in 0..workers {
        hall.wait_hand_end(rt, &mut way);
    }
    visits
}

/// Serves so many visits of a door with so many workers.
pub fn serve<R: Threads + Wait + Sync, D: Door<Input = TcpInput, Output = TcpOutput> + Send>(
    rt: &R,
    alloc: Global,
    workers: u32,
    connections: u32,
    door: &mut D,
) -> Result<Served, NoMemory>
    requires { workers ≤ 64 }
{
    let (hall, root) = Hall::new(alloc, workers + 1)?;
    let mut root = root;
    let way = hall.split(&mut root)?;
    let (turn, first) = Turn::new(alloc, Numbers::new(alloc))?;
    let (visits, (pass, calls)) = {
        let turn = &turn;
        let hall = &hall;
        thread::join(
            rt,
            || -> u32
                requires { way.hall ≡ hall.now }
            { usher(rt, hall, way, connections, workers, door) },
            || -> (Pass<Numbers>, u64)
                requires { IsFor turn.now 0 4_294_967_296 first × (workers ≤ 64) × (root.hall ≡ hall.now) }
                ensures { IsFor turn.entry.now 0 4_294_967_296 result.0 }
            { crew(rt, alloc, turn, hall, first, root, 0, workers) },
        )
    };
    let numbers = turn.close(pass);
    Ok(Served {
        calls,
        visits,
        given: numbers.given(),
    })
}
