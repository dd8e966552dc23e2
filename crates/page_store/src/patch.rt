//! What a command changes, and what it is answered.

ghost use Rattle.std.specs.Prelude.{◌≡◌, None, []};

use crate::party::Involved;
use crate::row::Change;
use page_types::Answer;
use std::alloc::Global;

/// What a command changes: rows, what is kept of one transaction, and the next number.
#[derive(Drop)]
pub(crate) struct Patch {
    /// The rows by their numbers; of two with one number the first counts.
    pub rows: Vec<Change>,
    pub party: Option<Involved>,
    pub next: u64,
}

/// What a command does.
#[derive(Drop)]
pub(crate) struct Step {
    pub patch: Patch,
    pub answer: Answer,
}

/// What a command does, where there is one.
#[derive(Drop)]
pub(crate) struct First {
    pub patch: Patch,
    pub answer: Option<Answer>,
}

impl Patch {
    /// A patch that changes nothing where this is the next number. It takes no memory.
    pub fn none(alloc: Global, next: u64) -> Patch
        ensures rows { result.rows.items ≡ [] }
        ensures party { result.party ≡ None }
        ensures next { result.next ≡ next }
    {
        Patch {
            rows: Vec::new(alloc),
            party: None,
            next,
        }
    }
}
