//! Commands to a store.

ghost use Rattle.std.specs.Prelude.{◌≡◌, IfOk};

use crate::outcome::Outcome;
use crate::shared::Shared;
use crate::versions::{PageRead, PageWrite};
use nfs3_types::{Copies, Entry, ListOf, NoMemory};
use pair_types::Tid;
use std::alloc::Global;

/// A transaction that one store commits alone. Reads and writes stand in rising number, no number twice in
/// either, and each written number is among the reads.
#[derive(Debug, Drop)]
pub struct Transaction {
    /// Which it is.
    pub tid: Tid,
    /// What it read.
    pub reads: ListOf<PageRead>,
    /// What it writes.
    pub writes: ListOf<PageWrite>,
    /// The call that it serves, and its reply.
    pub entry: Option<Shared<Entry>>,
}

/// The part of one store in a transaction of several. Reads and writes are as in a [`Transaction`].
#[derive(Debug, Drop)]
pub struct Part {
    /// The transaction.
    pub tid: Tid,
    /// The store at which it is decided.
    pub home: u32,
    /// The stores that take part.
    pub parts: ListOf<u32>,
    /// What it read here.
    pub reads: ListOf<PageRead>,
    /// What it writes here.
    pub writes: ListOf<PageWrite>,
}

/// How a transaction is to end.
#[derive(Debug, Drop)]
pub struct Decision {
    /// The transaction.
    pub tid: Tid,
    /// How it is to end.
    pub outcome: Outcome,
}

/// That a transaction's part ends.
#[derive(Clone, Copy, Debug, PartialEq, Eq)]
pub struct Resolution {
    /// The transaction.
    pub tid: Tid,
    /// Whether it was committed.
    pub commit: bool,
}

/// A command to a store. It is small, and its copies share what is large.
#[derive(Debug, Drop)]
pub enum Command {
    /// Asks for a number that was never given.
    Fresh,
    /// Asks for a page.
    Read {
        /// The page's number.
        number: u64,
    },
    /// Asks for the versions of the pages of these numbers.
    Look(Shared<ListOf<u64>>),
    /// Commits a transaction that has this one part.
    Write(Shared<Transaction>),
    /// Prepares a part of a transaction of several.
    Prepare(Shared<Part>),
    /// Decides a transaction, at its home.
    Decide(Shared<Decision>),
    /// Ends a part of a transaction that was decided.
    Resolve(Shared<Resolution>),
}

impl Command {
    ghost use Rattle.page_types.specs.declared.command.Command.TheVariants.{Look, Write, Prepare, Decide, Resolve};

    /// A `Look` at the pages of these numbers.
    pub fn look(alloc: Global, numbers: ListOf<u64>) -> Result<Command, NoMemory>
        ensures { IfOk result (λ command. command ≡ Look numbers) }
    {
        Ok(Command::Look(Shared::new(alloc, numbers)?))
    }

    /// A `Write` of the transaction.
    pub fn write(alloc: Global, transaction: Transaction) -> Result<Command, NoMemory>
        ensures { IfOk result (λ command. command ≡ Write transaction) }
    {
        Ok(Command::Write(Shared::new(alloc, transaction)?))
    }

    /// A `Prepare` of the part.
    pub fn prepare(alloc: Global, part: Part) -> Result<Command, NoMemory>
        ensures { IfOk result (λ command. command ≡ Prepare part) }
    {
        Ok(Command::Prepare(Shared::new(alloc, part)?))
    }

    /// A `Decide` of the transaction.
    pub fn decide(alloc: Global, tid: Tid, outcome: Outcome) -> Result<Command, NoMemory>
        ensures { IfOk result
            (λ command. command ≡ Decide (record { tid = tid; outcome = outcome })) }
    {
        let decision = Decision { tid, outcome };
        Ok(Command::Decide(Shared::new(alloc, decision)?))
    }

    /// A `Resolve` of the transaction.
    pub fn resolve(alloc: Global, tid: Tid, commit: bool) -> Result<Command, NoMemory>
        ensures { IfOk result
            (λ command. command ≡ Resolve (record { tid = tid; commit = commit })) }
    {
        let resolution = Resolution { tid, commit };
        Ok(Command::Resolve(Shared::new(alloc, resolution)?))
    }
}

impl Copies for Command {
    fn copy(&self, alloc: Global) -> Result<Command, NoMemory> {
        match self {
            Command::Fresh => Ok(Command::Fresh),
            Command::Read { number } => Ok(Command::Read { number: *number }),
            Command::Look(numbers) => Ok(Command::Look(numbers.copy(alloc)?)),
            Command::Write(transaction) => Ok(Command::Write(transaction.copy(alloc)?)),
            Command::Prepare(part) => Ok(Command::Prepare(part.copy(alloc)?)),
            Command::Decide(decision) => Ok(Command::Decide(decision.copy(alloc)?)),
            Command::Resolve(resolution) => Ok(Command::Resolve(resolution.copy(alloc)?)),
        }
    }
}
