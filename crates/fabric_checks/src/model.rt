//! A plain model of a store, in words of its own: what each command is answered, and what is kept then.

use crate::asked::{Asked, Kind, Written};
use crate::told::Told;
use nfs3_types::NoMemory;
use page_types::PageRead;
use pair_types::Tid;
use std::alloc::Global;
use std::collections::BTreeMap;

/// How many pages a model has.
pub const PAGES: u64 = 1024;

/// Whose hold it is, and the stores of that transaction.
#[derive(Clone, Copy, Debug, PartialEq, Eq)]
struct Owner {
    tid: Tid,
    home: u32,
    other: u32,
}

/// A page: its version, its byte, who wrote it last, who holds it, and what the writer's hold will write.
#[derive(Drop)]
struct Slot {
    version: u64,
    byte: u8,
    by: Tid,
    readers: Vec<Owner>,
    writer: Option<Owner>,
    to_be: u8,
}

/// A store.
#[derive(Drop)]
pub struct Model {
    slots: Vec<Slot>,
    decided: BTreeMap<(u32, u64), bool>,
    ended: BTreeMap<(u32, u64), bool>,
    next: u64,
}

fn owner_of(asked: &Asked) -> Owner {
    Owner {
        tid: asked.tid,
        home: asked.home,
        other: asked.other,
    }
}

fn busy(number: u64, owner: Owner) -> Told {
    Told::Busy(number, owner.tid, owner.home, owner.other)
}

/// The hold of another transaction that the least one has.
fn least_other(readers: &[Owner], tid: Tid) -> Option<Owner> {
    let mut least: Option<Owner> = None;
    for owner in readers {
        if owner.tid == tid {
            continue;
        }
        let is_less = match least {
            Some(other) => (owner.tid.pass, owner.tid.serial) < (other.tid.pass, other.tid.serial),
            None => true,
        };
        if is_less {
            least = Some(*owner);
        }
    }
    least
}

impl Slot {
    fn new(alloc: Global) -> Slot {
        Slot {
            version: 0,
            byte: 0,
            by: Tid { pass: 0, serial: 0 },
            readers: Vec::new(alloc),
            writer: None,
            to_be: 0,
        }
    }

    /// Another transaction's hold that bars this one.
    fn bars(&self, tid: Tid, writes: bool) -> Option<Owner> {
        if let Some(owner) = self.writer
            && owner.tid != tid
        {
            return Some(owner);
        }
        if writes {
            return least_other(&self.readers, tid);
        }
        None
    }

    fn is_held_by(&self, tid: Tid) -> bool {
        if let Some(owner) = self.writer
            && owner.tid == tid
        {
            return true;
        }
        self.readers.iter().any(|owner| owner.tid == tid)
    }

    fn write(&mut self, tid: Tid, byte: u8) {
        self.version = self.version.wrapping_add(1);
        self.byte = byte;
        self.by = tid;
    }

    /// The transaction ends: its holds go, and what it was to write is written if it is committed.
    fn end(&mut self, tid: Tid, commit: bool) {
        if let Some(owner) = self.writer
            && owner.tid == tid
        {
            self.writer = None;
            if commit {
                self.write(tid, self.to_be);
            }
        }
        self.readers.retain(|owner| owner.tid != tid);
    }
}

/// Whether the command writes the page that it read first, or second.
fn writes(asked: &Asked, second: bool) -> bool {
    match asked.written {
        Written::Neither => false,
        Written::First => !second,
        Written::Second => second,
    }
}

impl Model {
    /// A store in which nothing was written, or page 0 with this byte.
    pub fn new(alloc: Global, first: Option<u8>) -> Result<Model, NoMemory> {
        let mut slots = Vec::new(alloc);
        for _ in 0..PAGES {
            slots.push(Slot::new(alloc))?;
        }
        let mut model = Model {
            slots,
            decided: BTreeMap::new(alloc),
            ended: BTreeMap::new(alloc),
            next: 0,
        };
        if let Some(byte) = first
            && let Some(slot) = model.slots.get_mut(0)
        {
            slot.write(Tid { pass: 0, serial: 0 }, byte);
            model.next = 1;
        }
        Ok(model)
    }

    /// The version of a page.
    pub fn version(&self, number: u64) -> u64 {
        match self.slots.get(number as usize) {
            Some(slot) => slot.version,
            None => 0,
        }
    }

    /// The byte of a page.
    pub fn byte(&self, number: u64) -> u8 {
        match self.slots.get(number as usize) {
            Some(slot) => slot.byte,
            None => 0,
        }
    }

    fn read(&self, number: u64) -> Told {
        let Some(slot) = self.slots.get(number as usize) else {
            return Told::Other;
        };
        match slot.writer {
            Some(owner) => busy(number, owner),
            None => Told::Page(slot.version, slot.byte),
        }
    }

    fn look(&self, first: u64, second: u64) -> Told {
        for number in [first, second] {
            if let Some(slot) = self.slots.get(number as usize)
                && let Some(owner) = slot.writer
            {
                return busy(number, owner);
            }
        }
        Told::Versions(self.version(first), self.version(second))
    }

    /// A page that the command read is held by another transaction.
    fn barred(&self, asked: &Asked) -> Option<Told> {
        for (read, second) in [(asked.first, false), (asked.second, true)] {
            let slot = self.slots.get(read.number as usize)?;
            if let Some(owner) = slot.bars(asked.tid, writes(asked, second)) {
                return Some(busy(read.number, owner));
            }
        }
        None
    }

    /// A page is not of the version that was read.
    fn stale(&self, asked: &Asked) -> Option<Told> {
        for read in [asked.first, asked.second] {
            let slot = self.slots.get(read.number as usize)?;
            if slot.version != read.version {
                return Some(Told::Conflict(read.number, slot.version, slot.by));
            }
        }
        None
    }

    fn outcome(&self, tid: Tid) -> Option<bool> {
        self.decided.get(&(tid.pass, tid.serial)).copied()
    }

    fn has_ended(&self, tid: Tid) -> bool {
        self.ended.get(&(tid.pass, tid.serial)).is_some()
    }

    fn write(&mut self, asked: &Asked) -> Result<Told, NoMemory> {
        match self.outcome(asked.tid) {
            Some(true) => return Ok(Told::Wrote),
            Some(false) => return Ok(Told::Decided(false)),
            None => {}
        }
        if self.has_ended(asked.tid) {
            return Ok(Told::Ended);
        }
        if let Some(told) = self.barred(asked) {
            return Ok(told);
        }
        if let Some(told) = self.stale(asked) {
            return Ok(told);
        }
        for (read, second) in [(asked.first, false), (asked.second, true)] {
            if writes(asked, second)
                && let Some(slot) = self.slots.get_mut(read.number as usize)
            {
                slot.write(asked.tid, asked.byte);
            }
        }
        self.decided
            .insert((asked.tid.pass, asked.tid.serial), true)?;
        Ok(Told::Wrote)
    }

    fn is_prepared(&self, asked: &Asked) -> bool {
        [asked.first, asked.second].iter().any(|read| match self.slots.get(read.number as usize) {
            Some(slot) => slot.is_held_by(asked.tid),
            None => false,
        })
    }

    fn hold(&mut self, asked: &Asked, read: PageRead, second: bool) -> Result<(), NoMemory> {
        let Some(slot) = self.slots.get_mut(read.number as usize) else {
            return Ok(());
        };
        if writes(asked, second) {
            slot.writer = Some(owner_of(asked));
            slot.to_be = asked.byte;
            return Ok(());
        }
        slot.readers.push(owner_of(asked))?;
        Ok(())
    }

    fn prepare(&mut self, asked: &Asked) -> Result<Told, NoMemory> {
        if let Some(commit) = self.outcome(asked.tid) {
            return Ok(Told::Decided(commit));
        }
        if self.has_ended(asked.tid) {
            return Ok(Told::Ended);
        }
        if self.is_prepared(asked) {
            return Ok(Told::Prepared);
        }
        if let Some(told) = self.barred(asked) {
            return Ok(told);
        }
        if let Some(told) = self.stale(asked) {
            return Ok(told);
        }
        self.hold(asked, asked.first, false)?;
        self.hold(asked, asked.second, true)?;
        Ok(Told::Prepared)
    }

    fn decide(&mut self, tid: Tid, commit: bool) -> Result<Told, NoMemory> {
        if let Some(earlier) = self.outcome(tid) {
            return Ok(Told::Decided(earlier));
        }
        self.decided.insert((tid.pass, tid.serial), commit)?;
        Ok(Told::Decided(commit))
    }

    fn resolve(&mut self, tid: Tid, commit: bool) -> Result<Told, NoMemory> {
        for slot in &mut self.slots {
            slot.end(tid, commit);
        }
        self.ended.insert((tid.pass, tid.serial), commit)?;
        Ok(Told::Resolved)
    }

    fn fresh(&mut self) -> Told {
        let number = self.next;
        self.next = number.wrapping_add(1);
        Told::Fresh(number)
    }

    /// What the command is answered; what is kept is changed.
    pub fn obey(&mut self, asked: &Asked) -> Result<Told, NoMemory> {
        match asked.kind {
            Kind::Fresh => Ok(self.fresh()),
            Kind::Read => Ok(self.read(asked.first.number)),
            Kind::Look => Ok(self.look(asked.first.number, asked.second.number)),
            Kind::Write => self.write(asked),
            Kind::Prepare => self.prepare(asked),
            Kind::Decide => self.decide(asked.tid, asked.commit),
            Kind::Resolve => self.resolve(asked.tid, asked.commit),
        }
    }
}
