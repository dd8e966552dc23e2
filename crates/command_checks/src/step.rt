//! Steps, and how a line says them.

use crate::{asked, read, weather};
use anyhow::{Result, bail};
use std::alloc::Global;
use workload_judge::play;

/// What the calls of a number leave on the plain tree.
fn played(alloc: Global, number: u64, calls: u32) -> Result<String> {
    let counts = play(alloc, number, calls)?;
    Ok(format!(in alloc; "nodes {} bytes {}", counts.nodes, counts.bytes)?)
}

/// What is said of a step: `words W1,W2,..`, `calls NUMBER COUNT`, `fates NUMBER LOST ROUGH COUNT`,
/// `strays NUMBER ROUGH COUNT` or `play NUMBER CALLS`.
pub fn said(alloc: Global, line: &str) -> Result<String> {
    let Some((word, rest)) = line.split_once(' ') else {
        bail!("a step is a word and its fields");
    };
    if word == "words" {
        return read::told(alloc, rest);
    }
    let fields: Vec<&str> = rest.split(' ').collect(alloc)?;
    match (word, &*fields) {
        ("calls", [number, count]) => asked::told(alloc, number.parse()?, count.parse()?),
        ("fates", [number, lost, rough, count]) => {
            weather::fates(
                alloc,
                number.parse()?,
                lost.parse()?,
                rough.parse()?,
                count.parse()?,
            )
        }
        ("strays", [number, rough, count]) => {
            weather::strays(alloc, number.parse()?, rough.parse()?, count.parse()?)
        }
        ("play", [number, calls]) => played(alloc, number.parse()?, calls.parse()?),
        _ => bail!("no step is called {word}, or it has other fields"),
    }
}
