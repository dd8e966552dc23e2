//! The program `measure`: work of a known size for the layers below, so that scripts can time it. It
//! takes no time itself, and with no word it does nothing. It is a tool: what is proved of it is that
//! it is safe and ends.
//!
//! `measure btree N` inserts N records into a tree in memory and seeks each; `measure paxos REPLICAS
//! BYTES N` appends N commands that each write a page of so many bytes to a group in calm weather, or N
//! `Fresh` where BYTES is 0; `measure stores WHAT REPLICAS N` asks N times of stores behind replicas what
//! WHAT says: `fresh`, `read`, `look`, `write`, or `commit1`, `commit2`, `commit4`, a commit over so many
//! stores; `measure wire N` reads and writes N mixed calls and replies in memory. Each prints a line for a
//! figure. Any other words are answered by a line on standard error and status 1.
#![tactic(auto)]

mod btree;
mod counted;
mod keys;
mod paxos;
mod samples;
mod stores;
mod wire;

use anyhow::{Result, bail};
use std::alloc::Global;
use std::env;
use std::rt::Env;

/// The words behind the program's name.
fn words<R: Env + AllocGlobal>(rt: &R, alloc: Global) -> Result<Vec<String>> {
    let mut words = Vec::new(alloc);
    for word in env::args(rt)?.skip(1) {
        words.push(word)?;
    }
    Ok(words)
}

/// The number that a word is.
fn number(word: &str) -> Result<u64> {
    match word.parse::<u64>() {
        Ok(number) => Ok(number),
        Err(_) => bail!("{word:?} is no number below 2^64"),
    }
}

/// Does what the words say.
fn run(rt: &impl Print, alloc: Global, words: &[String]) -> Result<()> {
    match words {
        [] => Ok(()),
        [word, count] if word.as_str() == "btree" => btree::measure(rt, alloc, number(count)?),
        [word, replicas, bytes, count] if word.as_str() == "paxos" => {
            paxos::measure(rt, alloc, number(replicas)?, number(bytes)?, number(count)?)
        }
        [word, what, replicas, count] if word.as_str() == "stores" => {
            stores::measure(rt, alloc, what, number(replicas)?, number(count)?)
        }
        [word, count] if word.as_str() == "wire" => wire::measure(rt, alloc, number(count)?),
        _ => bail!(
            "usage: measure btree N | measure paxos REPLICAS BYTES N | measure stores WHAT REPLICAS N | measure wire N"
        ),
    }
}

fn main(rt: HostRuntime) -> Result<()> {
    let words = words(&rt, rt.alloc())?;
    run(&rt, rt.alloc(), &words)
}
