//! The program `fabric_checks`: stores behind replicas, beside a plain model of the rule that they obey.
//!
//! It does the step of each line of its standard input (`step`), and prints a line for each: whether there is a fabric
//! of a shape, what single commands are answered by the stores of a shape, and whether many drawn commands are answered
//! as a plain model, in words of its own, answers them (`model`). A line that is no step ends it with an error that names
//! the line. It promises that it is safe and ends. It stands on `fabric`, `store_group` and `workload`.
#![tactic(auto)]

mod asked;
mod draws;
mod model;
mod run;
mod script;
mod shapes;
mod step;
mod told;

use anyhow::{Context, Result};
use std::io::{BufRead, BufReader};

fn main(rt: HostRuntime) -> Result<()> {
    let alloc = rt.alloc();
    let mut script = script::Script::new(alloc);
    for (k, line) in BufReader::new(alloc, rt.reader())?.lines(alloc).enumerate() {
        let said = step::said(alloc, &mut script, &line?).context(format_args!("line {}", k + 1))?;
        println!(rt; "{said}")?;
    }
    Ok(())
}
