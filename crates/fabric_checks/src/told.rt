//! Answers in short.

use nfs3_types::NoMemory;
use page_types::{Answer, Outcome};
use pair_types::Tid;
use std::alloc::Global;

/// An answer over two pages of one byte, and transactions of two stores.
#[derive(Clone, Copy, Debug, PartialEq, Eq)]
pub enum Told {
    Fresh(u64),
    Busy(u64, Tid, u32, u32),
    Page(u64, u8),
    Versions(u64, u64),
    Wrote,
    Decided(bool),
    Ended,
    Conflict(u64, u64, Tid),
    Prepared,
    Resolved,
    Other,
}

fn is_commit(outcome: &Outcome) -> bool {
    matches!(outcome, Outcome::Commit(_))
}

/// The answer in short.
pub fn told_of(answer: &Answer) -> Told {
    match answer {
        Answer::Fresh { number } => Told::Fresh(*number),
        Answer::Busy {
            number,
            tid,
            home,
            parts,
        } => match parts.as_slice() {
            [first, second] if first == home => Told::Busy(*number, *tid, *home, *second),
            _ => Told::Other,
        },
        Answer::Page { version, content } => {
            Told::Page(*version, content.as_slice().first().copied().unwrap_or(0))
        }
        Answer::Versions { versions } => match versions.as_slice() {
            [first, second] => Told::Versions(*first, *second),
            _ => Told::Other,
        },
        Answer::Wrote => Told::Wrote,
        Answer::Decided { outcome } => Told::Decided(is_commit(outcome)),
        Answer::Ended => Told::Ended,
        Answer::Conflict {
            number,
            version,
            by,
        } => Told::Conflict(*number, *version, *by),
        Answer::Prepared => Told::Prepared,
        Answer::Resolved => Told::Resolved,
    }
}

/// What is said of it.
pub fn text_of(alloc: Global, told: Told) -> Result<String, NoMemory> {
    Ok(match told {
        Told::Fresh(number) => format!(in alloc; "Fresh {number}")?,
        Told::Busy(number, tid, home, _) => format!(in alloc;
            "Busy {number} of {} at {home}",
            tid.pass
        )?,
        Told::Page(version, byte) => format!(in alloc; "Page {version} {byte}")?,
        Told::Versions(first, second) => format!(in alloc; "Versions {first} {second}")?,
        Told::Wrote => String::from_str(alloc, "Wrote")?,
        Told::Decided(true) => String::from_str(alloc, "Decided Commit")?,
        Told::Decided(false) => String::from_str(alloc, "Decided Abort")?,
        Told::Ended => String::from_str(alloc, "Ended")?,
        Told::Conflict(number, version, by) => {
            format!(in alloc; "Conflict {number} {version} by {}", by.pass)?
        }
        Told::Prepared => String::from_str(alloc, "Prepared")?,
        Told::Resolved => String::from_str(alloc, "Resolved")?,
        Told::Other => String::from_str(alloc, "another answer")?,
    })
}

/// The place of its kind among the kinds.
pub fn kind_of(told: Told) -> usize {
    match told {
        Told::Fresh(_) => 0,
        Told::Busy(..) => 1,
        Told::Page(..) => 2,
        Told::Versions(..) => 3,
        Told::Wrote => 4,
        Told::Decided(_) => 5,
        Told::Ended => 6,
        Told::Conflict(..) => 7,
        Told::Prepared => 8,
        Told::Resolved => 9,
        Told::Other => 10,
    }
}
