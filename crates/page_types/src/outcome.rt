//! How a transaction ends.

ghost use Rattle.std.specs.Prelude.{◌≡◌, IfOk};

use crate::copying::copy_entry;
use crate::shared::Shared;
use nfs3_types::{Copies, Entry, NoMemory};
use std::alloc::Global;

/// How a transaction ends. Copies share the entry.
#[derive(Debug, Drop)]
pub enum Outcome {
    /// It takes effect. Where it serves a call, the entry is that call and its reply.
    Commit(Option<Shared<Entry>>),
    /// It has no effect.
    Abort,
}

impl Copies for Outcome {
    fn copy(&self, alloc: Global) -> Result<Outcome, NoMemory> {
        match self {
            Outcome::Commit(entry) => Ok(Outcome::Commit(copy_entry(alloc, entry)?)),
            Outcome::Abort => Ok(Outcome::Abort),
        }
    }
}
