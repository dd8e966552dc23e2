//! The program `command_checks`: the words of the command line, and the workload of a number, one step on each line.
//!
//! It does the step of each line of its standard input (`step`), and prints a line for each: what words are read as,
//! the first calls of a number, the fates and the strays of its weather, and the counts that its calls leave on the
//! plain tree. What it is run on, and what it has to print, `steps.py` computed by a small model of its own. A line
//! that is no step ends it with an error that names the line. It promises that it is safe and ends. It stands on
//! `fss_words`, `workload` and `workload_judge`.
#![tactic(auto)]

mod asked;
mod read;
mod step;
mod weather;

use anyhow::{Context, Result};
use std::io::{BufRead, BufReader};

fn main(rt: HostRuntime) -> Result<()> {
    let alloc = rt.alloc();
    for (k, line) in BufReader::new(alloc, rt.reader())?.lines(alloc).enumerate() {
        let said = step::said(alloc, &line?).context(format_args!("line {}", k + 1))?;
        println!(rt; "{said}")?;
    }
    Ok(())
}
