//! The journal: what was asked of the stores, by whom, and what came of it.

ghost use Rattle.std.specs.Prelude.{List};
ghost use Rattle.page_types.specs.Journals.{Origin};
ghost use Rattle.page_types.specs.declared.journal.JEntry.{JEntry};

use crate::answer::Answer;
use crate::command::Command;
use nfs3_types::{Copies, NoMemory};
use std::alloc::Global;

/// An entry of the journal.
#[derive(Debug, Drop)]
pub enum JEntry {
    /// A command of a pass was settled and answered.
    Took {
        /// The pass that asked.
        pass: u32,
        /// The store.
        store: u32,
        /// What was asked.
        command: Command,
        /// What was answered.
        answer: Answer,
    },
    /// A command of a pass got no answer: it may be settled later.
    Doubted {
        /// The pass that asked.
        pass: u32,
        /// The store.
        store: u32,
        /// What was asked.
        command: Command,
    },
    /// The command that was pending at a store was settled.
    Late {
        /// The store.
        store: u32,
        /// What was asked.
        command: Command,
        /// What it would have been answered.
        answer: Answer,
    },
}

impl Copies for JEntry {
    fn copy(&self, alloc: Global) -> Result<JEntry, NoMemory> {
        match self {
            JEntry::Took {
                pass,
                store,
                command,
                answer,
            } => {
                let command = command.copy(alloc)?;
                let answer = answer.copy(alloc)?;
                Ok(JEntry::Took {
                    pass: *pass,
                    store: *store,
                    command,
                    answer,
                })
            }
            JEntry::Doubted {
                pass,
                store,
                command,
            } => Ok(JEntry::Doubted {
                pass: *pass,
                store: *store,
                command: command.copy(alloc)?,
            }),
            JEntry::Late {
                store,
                command,
                answer,
            } => {
                let command = command.copy(alloc)?;
                let answer = answer.copy(alloc)?;
                Ok(JEntry::Late {
                    store: *store,
                    command,
                    answer,
                })
            }
        }
    }
}

/// A value that keeps a journal of stores: it only grows, and their shape stays.
pub trait Journaled: Drop {
    /// The journal, the newest entry first.
    ghost journal: { Self → List JEntry };

    /// How many stores there are, and the first page.
    ghost origin: { Self → Origin };
}
