//! Commands at stores behind replicas in calm weather, by kind, and commits over several.

ghost use Rattle.std.specs.Prelude.{◌≡◌, ◌∷◌, [], IfOk};
ghost use Rattle.page_types.specs.Obeys.{IsFormed};

use anyhow::{Result, bail, ensure};
use nfs3_types::{ListOf, NoMemory};
use outside::Calm;
use page_types::{Command, Outcome, PageRead, PageWrite, Part, Transaction};
use pair_types::{Page, Tid};
use std::alloc::Global;
use store_group::StoreGroup;

/// The longest log, and the highest round, at which a command is asked.
const MOST: u64 = 1 << 62;

/// How many bytes a page of a `Write` has.
const LARGE: usize = 8192;

/// How many bytes a page of a commit has.
const SMALL: usize = 100;

/// The transaction of this number.
fn tid_of(serial: u64) -> Tid {
    Tid { pass: 1, serial }
}

/// The page of this number, which was never written, is read.
fn reads_of(alloc: Global, number: u64) -> Result<ListOf<PageRead>, NoMemory>
    ensures { IfOk result (λ reads. reads ≡ record { number = number; version = 0 } ∷ []) }
{
    let mut reads = Vec::with_capacity(alloc, 1)?;
    reads.push(PageRead { number, version: 0 })?;
    Ok(ListOf::from_vec(reads))
}

/// And it is written, with so many bytes.
fn writes_of(alloc: Global, page: Page, number: u64) -> Result<ListOf<PageWrite>, NoMemory>
    ensures { IfOk result (λ writes. writes ≡ record { number = number; content = page } ∷ []) }
{
    let mut writes = Vec::with_capacity(alloc, 1)?;
    writes.push(PageWrite {
        number,
        content: page,
    })?;
    Ok(ListOf::from_vec(writes))
}

/// The `Write` of one page.
fn write_of(alloc: Global, serial: u64, page: Page) -> Result<Command, NoMemory>
    ensures { IfOk result IsFormed }
{
    let transaction = Transaction {
        tid: tid_of(serial),
        reads: reads_of(alloc, serial)?,
        writes: writes_of(alloc, page, serial)?,
        entry: None,
    };
    Command::write(alloc, transaction)
}

/// The first stores.
fn first_stores(alloc: Global, stores: u32) -> Result<ListOf<u32>, NoMemory> {
    let mut parts = Vec::new(alloc);
    for store in 0..stores {
        parts.push(store)?;
    }
    Ok(ListOf::from_vec(parts))
}

/// The `Prepare` of one page of a transaction over the first stores.
fn prepare_of(alloc: Global, serial: u64, stores: u32, page: Page) -> Result<Command, NoMemory>
    ensures { IfOk result IsFormed }
{
    let part = Part {
        tid: tid_of(serial),
        home: 0,
        parts: first_stores(alloc, stores)?,
        reads: reads_of(alloc, serial)?,
        writes: writes_of(alloc, page, serial)?,
    };
    Command::prepare(alloc, part)
}

/// A `Look` at one page.
fn look_of(alloc: Global, number: u64) -> Result<Command, NoMemory>
    ensures { IfOk result IsFormed }
{
    let numbers = vec![in alloc; number]?;
    Command::look(alloc, ListOf::from_vec(numbers))
}

/// Asks a command of a store.
fn ask(alloc: Global, group: &mut StoreGroup, command: &Command) -> Result<()>
    requires { IsFormed command.now }
{
    ensure!(group.group().round() < MOST, "too many rounds");
    ensure!(
        (group.group().log().len() as u64) < MOST,
        "too many commands"
    );
    let ready = group.ready(alloc, command)?;
    let stepped = group.step(alloc, command, ready, &mut Calm);
    if let Err(fault) = stepped.own {
        bail!("a command is not answered: {fault}");
    }
    Ok(())
}

/// Asks a command of the first store.
fn ask_first(alloc: Global, groups: &mut [StoreGroup], command: &Command) -> Result<()>
    requires { IsFormed command.now }
{
    let Some(group) = groups.first_mut() else {
        bail!("there is no store");
    };
    ask(alloc, group, command)
}

/// Asks a command of each store.
fn ask_each(alloc: Global, groups: &mut [StoreGroup], command: &Command) -> Result<()>
    requires { IsFormed command.now }
{
    for group in groups.iter_mut() {
        ask(alloc, group, command)?;
    }
    Ok(())
}

/// Commits a transaction that writes a page at each of these stores, as many as are told.
fn commit(alloc: Global, groups: &mut [StoreGroup], stores: u32, serial: u64) -> Result<()> {
    let page = Page::from_vec(vec![in alloc; b'c'; SMALL]?)?;
    let prepare = prepare_of(alloc, serial, stores, page)?;
    ask_each(alloc, groups, &prepare)?;
    let decide = Command::decide(alloc, tid_of(serial), Outcome::Commit(None))?;
    ask_first(alloc, groups, &decide)?;
    let resolve = Command::resolve(alloc, tid_of(serial), true)?;
    ask_each(alloc, groups, &resolve)
}

/// What is asked again and again.
#[derive(Clone, Copy, Debug, PartialEq, Eq)]
enum Kind {
    Fresh,
    Read,
    Look,
    /// A `Write` of a page of so many bytes.
    Write(usize),
    /// A commit over so many stores.
    Commit(u32),
}

/// The kind of a word: a `Write` has 8,192 bytes, and each page of a commit has 100.
fn kind_of(word: &str) -> Result<Kind> {
    match word {
        "fresh" => Ok(Kind::Fresh),
        "read" => Ok(Kind::Read),
        "look" => Ok(Kind::Look),
        "write" => Ok(Kind::Write(LARGE)),
        "commit1" => Ok(Kind::Write(SMALL)),
        "commit2" => Ok(Kind::Commit(2)),
        "commit4" => Ok(Kind::Commit(4)),
        _ => bail!("{word:?} is no kind of command"),
    }
}

/// How many stores that takes.
fn stores_of(kind: Kind) -> u32 {
    match kind {
        Kind::Commit(stores) => stores,
        _ => 1,
    }
}

/// Stores of three or five replicas.
fn groups_of(alloc: Global, stores: u32, replicas: u64) -> Result<Vec<StoreGroup>> {
    let mut groups = Vec::new(alloc);
    for store in 0..stores {
        let group = match replicas {
            3 => StoreGroup::new(alloc, store, 3, None)?,
            5 => StoreGroup::new(alloc, store, 5, None)?,
            _ => bail!("a store has 3 or 5 replicas"),
        };
        groups.push(group)?;
    }
    Ok(groups)
}

/// Asks once; the number is the transaction's and the page's.
fn ask_once(alloc: Global, groups: &mut [StoreGroup], kind: Kind, number: u64) -> Result<()> {
    match kind {
        Kind::Fresh => ask_first(alloc, groups, &Command::Fresh),
        Kind::Read => ask_first(alloc, groups, &Command::Read { number }),
        Kind::Look => ask_first(alloc, groups, &look_of(alloc, number)?),
        Kind::Write(bytes) => {
            let page = Page::from_vec(vec![in alloc; b'c'; bytes]?)?;
            ask_first(alloc, groups, &write_of(alloc, number, page)?)
        }
        Kind::Commit(stores) => commit(alloc, groups, stores, number),
    }
}

/// Asks `count` times of stores of so many replicas what the word says (`fresh`, `read`, `look`, `write`, `commit1`,
/// `commit2`, `commit4`), and prints how often and how many commands the first store settled.
pub fn measure(
    rt: &impl Print,
    alloc: Global,
    word: &str,
    replicas: u64,
    count: u64,
) -> Result<()> {
    let kind = kind_of(word)?;
    let stores = stores_of(kind);
    let mut groups = groups_of(alloc, stores, replicas)?;
    for number in 1..=count {
        ask_once(alloc, &mut groups, kind, number)?;
    }
    println!(rt; "asked {count}")?;
    for group in &groups {
        println!(rt; "settled {}", group.group().log().len())?;
    }
    Ok(())
}
