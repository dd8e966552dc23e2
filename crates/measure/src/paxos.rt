//! Appends of store commands to a group in calm weather.

use anyhow::{Result, bail, ensure};
use nfs3_types::ListOf;
use outside::Calm;
use page_types::{Command, PageRead, PageWrite, Transaction};
use pair_types::{Page, Tid};
use paxos_group::Group;
use std::alloc::Global;

/// The longest log, and the highest round, to which a command is appended.
const MOST: u64 = 1 << 62;

/// The longest page.
const LONGEST: u64 = 8192;

/// A group of three or five replicas.
fn group_of(alloc: Global, replicas: u64) -> Result<Group<Command>> {
    match replicas {
        3 => Ok(Group::new(alloc, 0, 3)?),
        5 => Ok(Group::new(alloc, 0, 5)?),
        _ => bail!("a group has 3 or 5 replicas"),
    }
}

/// A transaction that writes a page of so many bytes.
fn writing(alloc: Global, serial: u64, bytes: usize) -> Result<Transaction> {
    let mut reads = Vec::with_capacity(alloc, 1)?;
    reads.push(PageRead {
        number: serial,
        version: 0,
    })?;
    let mut writes = Vec::with_capacity(alloc, 1)?;
    writes.push(PageWrite {
        number: serial,
        content: Page::from_vec(vec![in alloc; b'c'; bytes]?)?,
    })?;
    Ok(Transaction {
        tid: Tid { pass: 1, serial },
        reads: ListOf::from_vec(reads),
        writes: ListOf::from_vec(writes),
        entry: None,
    })
}

/// The command that writes a page of so many bytes, or that asks for a number where there are none.
fn command_of(alloc: Global, serial: u64, bytes: usize) -> Result<Command> {
    if bytes == 0 {
        return Ok(Command::Fresh);
    }
    let transaction = writing(alloc, serial, bytes)?;
    Ok(Command::write(alloc, transaction)?)
}

/// Appends one command, with a page of so many bytes.
fn append(alloc: Global, group: &mut Group<Command>, serial: u64, bytes: usize) -> Result<()> {
    ensure!(group.round() < MOST, "too many rounds");
    ensure!((group.log().len() as u64) < MOST, "too many commands");
    let command = command_of(alloc, serial, bytes)?;
    let appended = group.append(alloc, &command, &mut Calm);
    match appended.own {
        Ok(()) => Ok(()),
        Err(fault) => bail!("a command is not settled: {fault}"),
    }
}

/// Appends so many commands, each with a page of so many bytes.
fn append_all(alloc: Global, group: &mut Group<Command>, bytes: usize, count: u64) -> Result<()> {
    for serial in 0..count {
        append(alloc, group, serial, bytes)?;
    }
    Ok(())
}

/// Appends `count` commands to a group of so many replicas, each of which writes a page of so many bytes
/// or, where there are none, asks for a number; and prints how many are settled and the next round.
pub fn measure(
    rt: &impl Print,
    alloc: Global,
    replicas: u64,
    bytes: u64,
    count: u64,
) -> Result<()> {
    ensure!(bytes <= LONGEST, "a page has at most 8192 bytes");
    let mut group = group_of(alloc, replicas)?;
    append_all(alloc, &mut group, bytes as usize, count)?;
    println!(rt; "appended {}", group.log().len())?;
    println!(rt; "rounds {}", group.round())?;
    Ok(())
}
