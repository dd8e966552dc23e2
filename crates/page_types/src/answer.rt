//! Answers of a store.

use crate::copying::{copy_numbers, copy_parts};
use crate::outcome::Outcome;
use nfs3_types::{Copies, ListOf, NoMemory};
use pair_types::{Page, Tid};
use std::alloc::Global;

/// What a store answers to a command.
#[derive(Debug, Drop)]
pub enum Answer {
    /// A number that was never given.
    Fresh {
        /// The number.
        number: u64,
    },
    /// A hold of another transaction stands in the way.
    Busy {
        /// The least page on which one stands.
        number: u64,
        /// Whose hold it is.
        tid: Tid,
        /// The store at which that transaction is decided.
        home: u32,
        /// The stores that take part in it.
        parts: ListOf<u32>,
    },
    /// A page as it is.
    Page {
        /// Its version.
        version: u64,
        /// What it holds.
        content: Page,
    },
    /// The versions of the pages, in the order in which they were asked for.
    Versions {
        /// The versions.
        versions: ListOf<u64>,
    },
    /// The transaction is committed, and its pages are written.
    Wrote,
    /// The transaction was decided.
    Decided {
        /// How, the first time.
        outcome: Outcome,
    },
    /// The transaction's part had ended.
    Ended,
    /// A page is not of the version that was read.
    Conflict {
        /// The least such page.
        number: u64,
        /// Its version.
        version: u64,
        /// The transaction that wrote it last.
        by: Tid,
    },
    /// The transaction's part is prepared.
    Prepared,
    /// The transaction's part has ended.
    Resolved,
}

impl Copies for Answer {
    fn copy(&self, alloc: Global) -> Result<Answer, NoMemory> {
        match self {
            Answer::Fresh { number } => Ok(Answer::Fresh { number: *number }),
            Answer::Busy {
                number,
                tid,
                home,
                parts,
            } => Ok(Answer::Busy {
                number: *number,
                tid: *tid,
                home: *home,
                parts: copy_parts(alloc, parts)?,
            }),
            Answer::Page { version, content } => Ok(Answer::Page {
                version: *version,
                content: content.copy()?,
            }),
            Answer::Versions { versions } => Ok(Answer::Versions {
                versions: copy_numbers(alloc, versions)?,
            }),
            Answer::Wrote => Ok(Answer::Wrote),
            Answer::Decided { outcome } => Ok(Answer::Decided {
                outcome: outcome.copy(alloc)?,
            }),
            Answer::Ended => Ok(Answer::Ended),
            Answer::Conflict {
                number,
                version,
                by,
            } => Ok(Answer::Conflict {
                number: *number,
                version: *version,
                by: *by,
            }),
            Answer::Prepared => Ok(Answer::Prepared),
            Answer::Resolved => Ok(Answer::Resolved),
        }
    }
}
