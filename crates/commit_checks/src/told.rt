//! Answers in short.

use crate::reading::Sight;
use nfs3_types::NoMemory;
use pair_types::{Cross, StepFault};
use std::alloc::Global;
use two_phase::Commit;

/// What is said of how a transaction was ended.
pub fn ended(commit: bool) -> &'static str {
    if commit { "committed" } else { "aborted" }
}

/// What is said of what a pass sees.
pub fn text_of_sight(alloc: Global, sight: Sight) -> Result<String, NoMemory> {
    Ok(match sight {
        Sight::Page(version, value) => format!(in alloc; "version {version} of {value}")?,
        Sight::Busy(tid, first, second) => format!(in alloc;
            "held by {}.{}: {}, {}",
            tid.pass,
            tid.serial,
            ended(first),
            ended(second)
        )?,
        Sight::Other => String::from_str(alloc, "another answer")?,
    })
}

fn text_of_cross(alloc: Global, cross: Cross) -> Result<String, NoMemory> {
    Ok(match cross {
        Cross::Conflict { slot, version, by } => format!(in alloc;
            "{}:{} has version {version} by {}.{}",
            slot.store, slot.number, by.pass, by.serial
        )?,
        Cross::Busy { slot, tid } => format!(in alloc;
            "{}:{} is held by {}.{}",
            slot.store, slot.number, tid.pass, tid.serial
        )?,
        Cross::Aborted { tid } => format!(in alloc; "aborted {}.{}", tid.pass, tid.serial)?,
    })
}

/// What is said of a fault.
pub fn text_of_fault(fault: StepFault) -> &'static str {
    match fault {
        StepFault::Doubt => "in doubt",
        StepFault::NoMemory => "no memory",
        StepFault::Stopped => "stopped",
    }
}

/// What is said of what a commit answered.
pub fn text_of_commit(alloc: Global, commit: Commit) -> Result<String, NoMemory> {
    Ok(match commit {
        Commit::Done => String::from_str(alloc, "done")?,
        Commit::Crossed(cross) => text_of_cross(alloc, cross)?,
        Commit::Fault(fault) => String::from_str(alloc, text_of_fault(fault))?,
    })
}
