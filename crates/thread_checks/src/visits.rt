ghost use Rattle.std.specs.Prelude.{◌≡◌, ◌≤◌, IfOk};
ghost use Rattle.doors.specs.Door.{IsFresh, facts_of};
ghost use Rattle.doors.specs.ListDoor.{memory_visits};

use doors::{Door, ListDoor, Visit};
use hall::{Hall, HallPass, Next};
use outside::{ListClock, MemSink, MemSource, NoMemory, Text};
use std::alloc::Global;
use std::sync::Wait;
use std::test::*;
use std::thread;
use std::thread::{Builder, Promise, Threads};

/// Hands over the visits 0, 1, 2 .. and then two marks of the end.
fn hand_all<R: Wait>(rt: &R, hall: &Hall<u32>, pass: HallPass<u32>, visits: u32) -> HallPass<u32>
    requires { pass.hall ≡ hall.now }
    ensures { result.hall ≡ hall.now }
{
    let mut pass = pass;
    for visit in 0..visits {
        hall.wait_hand(rt, &mut pass, visit);
    }
    hall.wait_hand_end(rt, &mut pass);
    hall.wait_hand_end(rt, &mut pass);
    pass
}

/// Takes visits until a mark of the end comes, and adds up one more than their numbers.
fn take_all<R: Wait>(rt: &R, hall: &Hall<u32>, pass: HallPass<u32>) -> (HallPass<u32>, u32)
    requires { pass.hall ≡ hall.now }
    ensures { result.0.hall ≡ hall.now }
{
    let mut pass = pass;
    let mut sum = 0u32;
    for _ in rt.forever() {
        match hall.wait_next(rt, &mut pass) {
            Next::Visit(visit) => sum = sum.wrapping_add(visit).wrapping_add(1),
            Next::Empty => return (pass, sum),
            Next::End => return (pass, sum),
        }
    }
    unreachable!()
}

/// Joins the passes of two workers to that of the usher, and tells whether nothing is left.
fn is_empty<R: Wait>(
    rt: &R,
    hall: &Hall<u32>,
    usher: HallPass<u32>,
    one: HallPass<u32>,
    other: HallPass<u32>,
) -> bool
    requires { (usher.hall ≡ hall.now) × (one.hall ≡ hall.now) × (other.hall ≡ hall.now) }
{
    let mut all = usher;
    hall.join(&mut all, one);
    hall.join(&mut all, other);
    matches!(hall.next(rt, &mut all), Next::Empty)
}

/// So many visits to two workers: the sum of what they took, and whether nothing is left.
fn serve<R: Threads + Wait + Sync>(
    rt: &R,
    alloc: Global,
    visits: u32,
) -> Result<(u32, bool), NoMemory> {
    let (hall, usher) = Hall::new(alloc, 2)?;
    let mut usher = usher;
    let one = hall.split(&mut usher)?;
    let other = hall.split(&mut usher)?;
    let hall = &hall;
    let (usher, (one, other)) = thread::join(
        rt,
        || -> HallPass<u32>
            requires { usher.hall ≡ hall.now }
            ensures { result.hall ≡ hall.entry.now }
        { hand_all(rt, hall, usher, visits) },
        || -> ((HallPass<u32>, u32), (HallPass<u32>, u32))
            requires { (one.hall ≡ hall.now) × (other.hall ≡ hall.now) }
            ensures { (result.0.0.hall ≡ hall.entry.now) × (result.1.0.hall ≡ hall.entry.now) }
        { two(rt, hall, one, other) },
    );
    let left = is_empty(rt, hall, usher, one.0, other.0);
    Ok((one.1.wrapping_add(other.1), left))
}

/// Two workers in two threads.
fn two<R: Threads + Wait + Sync>(
    rt: &R,
    hall: &Hall<u32>,
    one: HallPass<u32>,
    other: HallPass<u32>,
) -> ((HallPass<u32>, u32), (HallPass<u32>, u32))
    requires { (one.hall ≡ hall.now) × (other.hall ≡ hall.now) }
    ensures { (result.0.0.hall ≡ hall.now) × (result.1.0.hall ≡ hall.now) }
{
    thread::join(
        rt,
        || -> (HallPass<u32>, u32)
            requires { one.hall ≡ hall.now }
            ensures { result.0.hall ≡ hall.entry.now }
        { take_all(rt, hall, one) },
        || -> (HallPass<u32>, u32)
            requires { other.hall ≡ hall.now }
            ensures { result.0.hall ≡ hall.entry.now }
        { take_all(rt, hall, other) },
    )
}

#[test]
fn two_workers_take_each_visit_once(rt: HostRuntime) -> Result<(), Fail> {
    assert_eq!(rt; serve(&rt, rt.alloc(), 3)?, (6, true));
    assert_eq!(rt; serve(&rt, rt.alloc(), 10)?, (55, true));
    assert_eq!(rt; serve(&rt, rt.alloc(), 100)?, (5050, true));
    Ok(())
}

/// A visit with three bytes.
fn visit(alloc: Global) -> Result<Visit<MemSource, MemSink, ListClock>, NoMemory>
    ensures { IfOk result (λ visit. IsFresh (facts_of memory_visits visit)) }
{
    let content = Text::from_slice(alloc, b"abc".as_slice())?;
    Ok(Visit {
        input: MemSource::new(content, 2, Text::new(alloc)),
        output: MemSink::new(alloc, 64, Text::new(alloc)),
        clock: ListClock::new(Vec::new(alloc)),
    })
}

/// A door with two visits.
fn door(alloc: Global) -> Result<ListDoor, NoMemory> {
    let first = visit(alloc)?;
    let second = visit(alloc)?;
    let mut all = Vec::with_capacity(alloc, 2)?;
    all.push(first)?;
    all.push(second)?;
    Ok(ListDoor::new(all))
}

/// That nothing more is known of a thread's result.
#[derive(Clone, Copy)]
struct NoPromise;

impl Promise<usize> for NoPromise {
    ghost use Rattle.std.specs.Prelude.{⊤};

    ghost kept_by = { λ promise result. ⊤ };
}

/// How many visits come, each of which is settled.
fn count<D: Door>(door: D) -> usize {
    let mut door = door;
    let mut visits = 0usize;
    for _ in 0..100 {
        let Ok(Some(visit)) = door.next() else {
            break;
        };
        let _receipt = D::settle(visit);
        visits = visits.saturating_add(1);
    }
    visits
}

#[test]
fn a_refused_thread_gives_its_work_back(rt: HostRuntime) -> Result<(), Fail> {
    assert_eq!(rt; count(door(rt.alloc())?), 2);
    let door = door(rt.alloc())?;
    let refused = Builder::new()
        .stack_size(usize::MAX)
        .spawn_with(&rt, NoPromise, move || count(door));
    let visits = match refused {
        Ok(_) => 0,
        Err(refused) => (refused.value)(),
    };
    assert_eq!(rt; visits, 2);
    Ok(())
}
