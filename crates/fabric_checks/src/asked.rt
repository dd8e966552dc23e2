//! Commands over two pages, as they are drawn or read from a line.

ghost use Rattle.std.specs.Prelude.{◌≡◌, ◌<◌, ◌∷◌, [], IfOk};
ghost use Rattle.page_types.specs.Accesses.{AreAccesses};
ghost use Rattle.page_types.specs.Obeys.{IsFormed};

use nfs3_types::{ListOf, NoMemory};
use page_types::{Command, Outcome, PageRead, PageWrite, Part, Transaction};
use pair_types::{Page, Tid};
use std::alloc::Global;

/// What is asked.
#[derive(Clone, Copy, Debug, PartialEq, Eq)]
pub enum Kind {
    Fresh,
    Read,
    Look,
    Write,
    Prepare,
    Decide,
    Resolve,
}

/// Which of the two pages is written.
#[derive(Clone, Copy, Debug, PartialEq, Eq)]
pub enum Written {
    Neither,
    First,
    Second,
}

/// A command: `Fresh`; `Read` of the first page; `Look` at both; `Write` or `Prepare` of a transaction that read both and
/// writes one of them, of one byte, or none; `Decide` or `Resolve`. The transaction's stores are `home` and `other`.
#[derive(Clone, Copy, Debug, PartialEq, Eq)]
pub struct Asked {
    pub kind: Kind,
    pub tid: Tid,
    pub first: PageRead,
    pub second: PageRead,
    pub written: Written,
    pub byte: u8,
    pub home: u32,
    pub other: u32,
    pub commit: bool,
}

fn reads_of(alloc: Global, first: PageRead, second: PageRead) -> Result<ListOf<PageRead>, NoMemory>
    ensures { IfOk result (λ reads. reads ≡ first ∷ second ∷ []) }
{
    let mut reads = Vec::new(alloc);
    reads.push(first)?;
    reads.push(second)?;
    Ok(ListOf::from_vec(reads))
}

fn write_of(alloc: Global, number: u64, byte: u8) -> Result<ListOf<PageWrite>, NoMemory>
    ensures { IfOk result (λ writes. writes ≡ record { number = number; content = byte ∷ [] } ∷ []) }
{
    let content = Page::from_slice(alloc, &[byte])?;
    let mut writes = Vec::new(alloc);
    writes.push(PageWrite { number, content })?;
    Ok(ListOf::from_vec(writes))
}

/// What a transaction of the command writes.
fn writes_of(alloc: Global, asked: &Asked) -> Result<ListOf<PageWrite>, NoMemory>
    requires { asked.now.first.number < asked.now.second.number }
    ensures { IfOk result (AreAccesses (asked.now.first ∷ asked.now.second ∷ [])) }
{
    match asked.written {
        Written::Neither => Ok(ListOf::new(alloc)),
        Written::First => write_of(alloc, asked.first.number, asked.byte),
        Written::Second => write_of(alloc, asked.second.number, asked.byte),
    }
}

fn transaction_of(alloc: Global, asked: &Asked) -> Result<Command, NoMemory>
    requires { asked.now.first.number < asked.now.second.number }
    ensures { IfOk result IsFormed }
{
    let writes = writes_of(alloc, asked)?;
    let transaction = Transaction {
        tid: asked.tid,
        reads: reads_of(alloc, asked.first, asked.second)?,
        writes,
        entry: None,
    };
    Command::write(alloc, transaction)
}

fn part_of(alloc: Global, asked: &Asked) -> Result<Command, NoMemory>
    requires { asked.now.first.number < asked.now.second.number }
    ensures { IfOk result IsFormed }
{
    let writes = writes_of(alloc, asked)?;
    let part = Part {
        tid: asked.tid,
        home: asked.home,
        parts: ListOf::from_vec(vec![in alloc; asked.home, asked.other]?),
        reads: reads_of(alloc, asked.first, asked.second)?,
        writes,
    };
    Command::prepare(alloc, part)
}

fn decision_of(alloc: Global, asked: &Asked) -> Result<Command, NoMemory>
    ensures { IfOk result IsFormed }
{
    let outcome = if asked.commit {
        Outcome::Commit(None)
    } else {
        Outcome::Abort
    };
    Command::decide(alloc, asked.tid, outcome)
}

fn look_of(alloc: Global, asked: &Asked) -> Result<Command, NoMemory>
    ensures { IfOk result IsFormed }
{
    let numbers = vec![in alloc; asked.first.number, asked.second.number]?;
    Command::look(alloc, ListOf::from_vec(numbers))
}

/// The command.
pub fn command_of(alloc: Global, asked: &Asked) -> Result<Command, NoMemory>
    requires { asked.now.first.number < asked.now.second.number }
    ensures { IfOk result IsFormed }
{
    match asked.kind {
        Kind::Fresh => Ok(Command::Fresh),
        Kind::Read => Ok(Command::Read {
            number: asked.first.number,
        }),
        Kind::Look => look_of(alloc, asked),
        Kind::Write => transaction_of(alloc, asked),
        Kind::Prepare => part_of(alloc, asked),
        Kind::Decide => decision_of(alloc, asked),
        Kind::Resolve => Command::resolve(alloc, asked.tid, asked.commit),
    }
}
