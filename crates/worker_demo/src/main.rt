//! The program `worker_demo`: the small server that answers NULL, with any number of workers, so that turnstile, hall and
//! doors run together. What is proved of it is that it is safe.
//!
//! `worker_demo demo WORKERS CLIENTS CALLS` serves so many clients of its own, in two threads, over a loopback address,
//! each with so many calls one after another, and prints what was answered; `worker_demo serve WORKERS CONNECTIONS ADDRESS`
//! serves so many connections at an address; `worker_demo turns WORKERS TURNS NANOS` takes so many turns with each worker,
//! keeps each for so many nanoseconds, and prints how many were taken. There are at most 64 workers.
#![tactic(auto)]

ghost use Rattle.std.specs.Prelude.{◌≤◌};

mod attending;
mod client;
mod numbers;
mod serving;
mod turning;

use crate::serving::{Served, serve};
use crate::turning::turns;
use anyhow::{Result, bail};
use doors::TcpDoor;
use nfs3_types::NoMemory;
use outside::Text;
use std::alloc::Global;
use std::net::{Net, TcpListener, TcpStream};
use std::rt::Env;
use std::sync::Wait;
use std::thread::Threads;
use std::{env, rt, thread};

/// The words behind the program's name.
fn words<R: Env + AllocGlobal>(rt: &R, alloc: Global) -> Result<Vec<String>> {
    let mut words = Vec::new(alloc);
    for word in env::args(rt)?.skip(1) {
        words.push(word)?;
    }
    Ok(words)
}

/// The number that a word is.
fn number(word: &str) -> Result<u32> {
    match word.parse::<u32>() {
        Ok(number) => Ok(number),
        Err(_) => bail!("{word:?} is no number below 2^32"),
    }
}

/// Serves so many connections at an address.
fn serve_at<R>(
    rt: R,
    alloc: Global,
    workers: u32,
    connections: u32,
    address: &str,
) -> Result<(u64, u32, usize)>
where
    R: Net<Listener = TcpListener, Stream = TcpStream>
        + rt::Clock
        + Threads
        + Wait
        + Copy
        + Send
        + Sync
        + Drop,
{
    if workers > 64 {
        bail!("at most 64 workers");
    }
    let mut door = TcpDoor::new(rt, Text::from_slice(alloc, address.as_bytes())?);
    let served = serve(&rt, alloc, workers, connections, &mut door)?;
    Ok((served.calls, served.visits, served.given))
}

/// Serves clients of its own, and tells how many of their calls they saw answered too.
fn demo<R>(
    rt: R,
    alloc: Global,
    workers: u32,
    clients: u32,
    calls: u32,
) -> Result<(u32, u64, u32, usize)>
where
    R: Net<Listener = TcpListener, Stream = TcpStream>
        + rt::Clock
        + Threads
        + Wait
        + Copy
        + Send
        + Sync
        + Drop,
{
    if workers > 64 {
        bail!("at most 64 workers");
    }
    let mut door = TcpDoor::new(rt, Text::from_slice(alloc, b"127.0.0.1:0".as_slice())?);
    let address = door.bind()?;
    let half = clients / 2;
    let rest = clients - half;
    let ((first, second), served) = thread::join(
        &rt,
        || thread::join(
            &rt,
            || client::ask_all(&rt, address, half, calls),
            || client::ask_all(&rt, address, rest, calls),
        ),
        || -> Result<Served, NoMemory>
            requires { workers ≤ 64 }
        { serve(&rt, alloc, workers, clients, &mut door) },
    );
    let served = served?;
    Ok((
        first.saturating_add(second),
        served.calls,
        served.visits,
        served.given,
    ))
}

/// Takes turns, and tells how many.
fn take_turns<R>(rt: R, alloc: Global, workers: u32, each: u32, nanos: u32) -> Result<u64>
where
    R: rt::Clock + Threads + Wait + Sync + Drop,
{
    if workers > 64 {
        bail!("at most 64 workers");
    }
    Ok(turns(&rt, alloc, workers, each, nanos)?)
}

/// Does what the words say.
fn run<R>(rt: R, alloc: Global, words: &[String]) -> Result<()>
where
    R: Print
        + Net<Listener = TcpListener, Stream = TcpStream>
        + rt::Clock
        + Threads
        + Wait
        + Copy
        + Send
        + Sync
        + Drop,
{
    match words {
        [] => Ok(()),
        [word, workers, clients, calls] if word.as_str() == "demo" => {
            let (seen, answered, visits, given) = demo(
                rt,
                alloc,
                number(workers)?,
                number(clients)?,
                number(calls)?,
            )?;
            println!(rt; "seen {seen}")?;
            println!(rt; "answered {answered}")?;
            println!(rt; "visits {visits}")?;
            println!(rt; "given {given}")?;
            Ok(())
        }
        [word, workers, connections, address] if word.as_str() == "serve" => {
            let (answered, visits, given) = serve_at(
                rt,
                alloc,
                number(workers)?,
                number(connections)?,
                address,
            )?;
            println!(rt; "answered {answered}")?;
            println!(rt; "visits {visits}")?;
            println!(rt; "given {given}")?;
            Ok(())
        }
        [word, workers, each, nanos] if word.as_str() == "turns" => {
            let taken = take_turns(rt, alloc, number(workers)?, number(each)?, number(nanos)?)?;
            println!(rt; "turns {taken}")?;
            Ok(())
        }
        _ => bail!(
            "usage: worker_demo demo W CLIENTS CALLS | serve W CONNECTIONS ADDRESS | turns W TURNS NANOS"
        ),
    }
}

fn main(rt: HostRuntime) -> Result<()> {
    let words = words(&rt, rt.alloc())?;
    run(rt, rt.alloc(), &words)
}
