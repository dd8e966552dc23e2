//! Commits that lose messages.

use crate::left::leave;
use crate::stores::fates;
use crate::told::text_of_fault;
use anyhow::Result;
use pair_types::StepFault;
use std::alloc::Global;
use two_phase::Commit;

/// Which ends were seen.
#[derive(Clone, Copy, Debug, PartialEq, Eq)]
struct Ends {
    done: bool,
    crossed: bool,
    old: bool,
    new: bool,
}

impl Ends {
    fn note(&mut self, answer: Commit, is_new: bool) {
        match answer {
            Commit::Done => self.done = true,
            Commit::Crossed(_) => self.crossed = true,
            Commit::Fault(_) if is_new => self.new = true,
            Commit::Fault(_) => self.old = true,
        }
    }
}

fn mark(seen: bool, word: &'static str) -> &'static str {
    if seen { word } else { "" }
}

/// A commit over two stores of three replicas loses so many messages in a row, from each of the places on in turn. What
/// was seen, where each answer agrees with what another pass finds.
pub fn losses(alloc: Global, places: u32, lost: u32) -> Result<String> {
    let mut ends = Ends {
        done: false,
        crossed: false,
        old: false,
        new: false,
    };
    for place in 0..places {
        let (answer, found) = leave(alloc, 2, fates(alloc, place, lost)?, None)?;
        if !found.agrees(answer) {
            return Ok(format!(in alloc; "differs at {place}: {:?}, {}", answer, found.text())?);
        }
        ends.note(answer, found.old == 0);
    }
    Ok(format!(in alloc;
        "agree:{}{}{}{}",
        mark(ends.done, " done"),
        mark(ends.crossed, " crossed"),
        mark(ends.old, " faults-old"),
        mark(ends.new, " faults-new")
    )?)
}
