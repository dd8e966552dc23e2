//! The program `conformance`: cases that other programs computed, run through the service's top call.
//!
//! It reads cases from its standard input, one on each line, runs `service::run` on each over sources,
//! sinks and a clock in memory, and prints a line for each: the case's name, the exit status, the bytes
//! written, in hexadecimal, and the line on the error sink. The gate compares these lines with what those
//! programs computed. The line `peer` runs it on a peer that waits for each reply, and has the exit status and how many bytes
//! the peer got. A line that is no case ends it with an error that names the line. It promises that it is safe and ends,
//! and that fields are read as they are spelled (`size`, `bytes`). It stands on `service` and `outside`.
#![tactic(auto)]

mod case;
mod peers;
mod play;

use anyhow::{Context, Result};
use std::alloc::Global;
use std::io::{BufRead, BufReader};

/// Runs the case of a line, and prints what came of it.
fn answer(rt: &impl Print, alloc: Global, line: &str) -> Result<()> {
    if line == "peer" {
        let (status, received) = peers::play(alloc)?;
        println!(rt; "peer\t{status}\t{received}")?;
        return Ok(());
    }
    let case = case::read(alloc, line)?;
    let played = play::play(alloc, case)?;
    let written = hex::encode(alloc, played.output.written())?;
    let line = str::from_utf8(played.errors.written())?.trim_end();
    println!(rt; "{}\t{}\t{written}\t{line}", played.name, played.status)?;
    Ok(())
}

fn main(rt: HostRuntime) -> Result<()> {
    let alloc = rt.alloc();
    for (k, line) in BufReader::new(alloc, rt.reader())?.lines(alloc).enumerate() {
        answer(&rt, alloc, &line?).context(format_args!("line {}", k + 1))?;
    }
    Ok(())
}
