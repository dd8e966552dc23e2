//! The program `page_checks`: edits and searches of a B-tree over pages in memory, one on each line.
//!
//! It runs each line of its standard input (`step`) on one tree, and prints a line for each. What it is
//! run on, and what it has to print, `steps.py` computed with a sorted list in the tree's place. A line
//! that is no step ends it with an error that names the line. It promises that it is safe and ends. It
//! stands on `btree_edit`, `btree_search`, `btree_page` and `pair_types`.
#![tactic(auto)]

mod run;
mod step;

use anyhow::{Context, Result};
use pair_types::MemPages;
use std::io::{BufRead, BufReader};

fn main(rt: HostRuntime) -> Result<()> {
    let alloc = rt.alloc();
    let mut pages = MemPages::new(alloc, 1);
    for (k, line) in BufReader::new(alloc, rt.reader())?.lines(alloc).enumerate() {
        let said = run::line(alloc, &mut pages, &line?).context(format_args!("line {}", k + 1))?;
        println!(rt; "{said}")?;
    }
    Ok(())
}
