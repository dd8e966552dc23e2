use nfs3_types::{Copies, ListOf};
use page_types::{
    Answer, Command, Hold, JEntry, Outcome, PageRead, PageWrite, Part, Transaction, WriteHold,
};
use pair_types::{Page, Tid};
use std::alloc::Global;
use std::fmt::Debug;
use std::test::*;

const TID: Tid = Tid { pass: 1, serial: 2 };

fn parts(alloc: Global) -> Result<ListOf<u32>, Fail> {
    Ok(ListOf::from_vec(vec![in alloc; 0, 3]?))
}

fn reads(alloc: Global) -> Result<ListOf<PageRead>, Fail> {
    let mut reads = Vec::new(alloc);
    reads.push(PageRead {
        number: 7,
        version: 4,
    })?;
    Ok(ListOf::from_vec(reads))
}

fn writes(alloc: Global) -> Result<ListOf<PageWrite>, Fail> {
    let mut writes = Vec::new(alloc);
    writes.push(PageWrite {
        number: 7,
        content: Page::from_slice(alloc, b"page")?,
    })?;
    Ok(ListOf::from_vec(writes))
}

fn write(alloc: Global) -> Result<Command, Fail> {
    let transaction = Transaction {
        tid: TID,
        reads: reads(alloc)?,
        writes: writes(alloc)?,
        entry: None,
    };
    Ok(Command::write(alloc, transaction)?)
}

fn prepare(alloc: Global) -> Result<Command, Fail> {
    let part = Part {
        tid: TID,
        home: 0,
        parts: parts(alloc)?,
        reads: reads(alloc)?,
        writes: writes(alloc)?,
    };
    Ok(Command::prepare(alloc, part)?)
}

/// Whether a copy prints as the value does.
fn is_copied<V: Copies + Debug>(alloc: Global, value: &V) -> Result<bool, Fail> {
    let copy = value.copy(alloc)?;
    let printed = format!(in alloc; "{copy:?}")?;
    let wanted = format!(in alloc; "{value:?}")?;
    Ok(printed.as_str() == wanted.as_str())
}

#[test]
fn commands_are_copied_whole(rt: HostRuntime) -> Result<(), Fail> {
    let alloc = rt.alloc();
    let numbers = ListOf::from_vec(vec![in alloc; 7, 9]?);
    let look = Command::look(alloc, numbers)?;
    let decide = Command::decide(alloc, TID, Outcome::Commit(None))?;
    let resolve = Command::resolve(alloc, TID, true)?;
    assert!(rt; is_copied(alloc, &look)?);
    assert!(rt; is_copied(alloc, &write(alloc)?)?);
    assert!(rt; is_copied(alloc, &prepare(alloc)?)?);
    assert!(rt; is_copied(alloc, &decide)?);
    assert!(rt; is_copied(alloc, &resolve)?);
    Ok(())
}

#[test]
fn an_entry_of_the_journal_is_copied_whole(rt: HostRuntime) -> Result<(), Fail> {
    let alloc = rt.alloc();
    let entry = JEntry::Took {
        pass: 1,
        store: 2,
        command: prepare(alloc)?,
        answer: Answer::Busy {
            number: 7,
            tid: TID,
            home: 0,
            parts: parts(alloc)?,
        },
    };
    assert!(rt; is_copied(alloc, &entry)?);
    Ok(())
}

#[test]
fn a_writers_hold_is_copied_whole(rt: HostRuntime) -> Result<(), Fail> {
    let alloc = rt.alloc();
    let hold = WriteHold {
        hold: Hold {
            tid: TID,
            home: 3,
            parts: parts(alloc)?,
        },
        content: Page::from_slice(alloc, b"page")?,
    };
    assert!(rt; is_copied(alloc, &hold)?);
    Ok(())
}
