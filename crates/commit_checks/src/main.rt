//! The program `commit_checks`: commits of several passes on one fabric, through ports that own it.
//!
//! It does the step of each line of its standard input (`step`), and prints a line for each: what single calls of passes
//! are answered and what the stores keep then, what is left by a commit that stops after so many commands or that loses
//! messages, what a pass is told of a transaction that another one finished, and what many commits of passes in turns come
//! to. A line that is no step ends it with an error that names
//! the line. It promises that it is safe and ends. It stands on `two_phase` and `fabric`.
#![tactic(auto)]

mod calls;
mod crowd;
mod draws;
mod fairness;
mod left;
mod losses;
mod overtaken;
mod parts;
mod reading;
mod script;
mod step;
mod stores;
mod told;

use anyhow::{Context, Result};
use std::io::{BufRead, BufReader};

fn main(rt: HostRuntime) -> Result<()> {
    let alloc = rt.alloc();
    let mut script = script::Script::new();
    for (k, line) in BufReader::new(alloc, rt.reader())?.lines(alloc).enumerate() {
        let said = step::said(alloc, &mut script, &line?).context(format_args!("line {}", k + 1))?;
        println!(rt; "{said}")?;
    }
    Ok(())
}
