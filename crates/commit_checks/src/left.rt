//! What is left by one transaction, as another pass finds it.

use crate::calls::attempt;
use crate::parts::{Change, parts_of};
use crate::reading::{Sight, look};
use crate::stores::{Stores, stores};
use anyhow::{Result, bail, ensure};
use outside::Fate;
use pair_types::{Slot, StepFault, Tid};
use std::alloc::Global;
use two_phase::{Commit, Part};

/// What a pass writes into each of its slots.
const VALUE: u64 = 7;

/// How often a read is tried that is in doubt, or meets another transaction.
const TRIES: u32 = 1000;

/// What another pass finds: how many slots are written, how many are not, and how many held ones it met.
#[derive(Clone, Copy, Debug, PartialEq, Eq)]
pub struct Found {
    pub new: u32,
    pub old: u32,
    pub met: u32,
}

/// A change in each of the stores.
fn changes_in(alloc: Global, stores: u32) -> Result<Vec<Change>> {
    let mut changes = Vec::new(alloc);
    for store in 0..stores {
        let slot = Slot { store, number: 3 };
        changes.push(Change {
            slot,
            version: 0,
            value: VALUE,
        })?;
    }
    Ok(changes)
}

impl Found {
    fn note(&mut self, version: u64, value: u64) -> Result<()> {
        match (version, value) {
            (0, 0) => self.old = self.old.wrapping_add(1),
            (1, VALUE) => self.new = self.new.wrapping_add(1),
            _ => bail!("a slot has neither content"),
        }
        Ok(())
    }

    /// What is seen of a slot; whether it was read.
    fn see(&mut self, sight: Result<Sight, StepFault>) -> Result<bool> {
        match sight {
            Ok(Sight::Page(version, value)) => {
                self.note(version, value)?;
                Ok(true)
            }
            Ok(Sight::Busy(_, first, second)) => {
                ensure!(first == second, "two answers of one transaction");
                self.met = self.met.wrapping_add(1);
                Ok(false)
            }
            Ok(Sight::Other) => bail!("another answer"),
            Err(StepFault::Doubt) => Ok(false),
            Err(fault) => bail!("{fault}"),
        }
    }

    /// What the answer and what was found come to.
    pub fn text(&self) -> &'static str {
        match (self.old, self.new) {
            (0, _) => "all new",
            (_, 0) => "all old",
            _ => "mixed",
        }
    }

    /// Whether it is all or nothing, and what the answer says.
    pub fn agrees(&self, answer: Commit) -> bool {
        match answer {
            Commit::Done => self.old == 0,
            Commit::Crossed(_) => self.new == 0,
            Commit::Fault(_) => self.old == 0 || self.new == 0,
        }
    }
}

fn unread() -> Result<()> {
    bail!("a slot cannot be read")
}

/// Reads a slot as pass 2, until it is read.
fn find(alloc: Global, fabric: Stores, slot: Slot, found: &mut Found) -> (Stores, Result<()>) {
    let mut fabric = fabric;
    for _ in 0..TRIES {
        let (next, sight) = look(alloc, fabric, 2, slot);
        fabric = next;
        match found.see(sight) {
            Ok(true) => return (fabric, Ok(())),
            Ok(false) => {}
            Err(error) => return (fabric, Err(error)),
        }
    }
    (fabric, unread())
}

/// What pass 2 finds in the slots.
pub fn find_all(alloc: Global, fabric: Stores, stores: u32) -> Result<Found> {
    let mut fabric = fabric;
    let mut found = Found {
        new: 0,
        old: 0,
        met: 0,
    };
    for store in 0..stores {
        let (next, is_read) = find(alloc, fabric, Slot { store, number: 3 }, &mut found);
        fabric = next;
        is_read?;
    }
    Ok(found)
}

/// The parts of a transaction over so many stores.
pub fn parts_in(alloc: Global, stores: u32) -> Result<Vec<Part>> {
    let changes = changes_in(alloc, stores)?;
    Ok(parts_of(alloc, stores, &changes)?)
}

/// Pass 1 commits the parts, and pass 2 finds what is left.
fn left_by(
    alloc: Global,
    fabric: Stores,
    count: u32,
    parts: &[Part],
    steps: Option<u64>,
) -> Result<(Commit, Found)> {
    let tid = Tid { pass: 1, serial: 1 };
    let (fabric, answer) = attempt(alloc, fabric, tid, parts, steps);
    let found = find_all(alloc, fabric, count)?;
    match answer {
        Some(answer) => Ok((answer, found)),
        None => bail!("the transaction may not be committed"),
    }
}

/// Pass 1 commits a transaction over so many stores of three replicas, in a weather over a list of fates, and stops after
/// so many steps, where there is a number. What it is answered, and what pass 2 finds then.
pub fn leave(
    alloc: Global,
    count: u32,
    fates: Vec<Fate>,
    steps: Option<u64>,
) -> Result<(Commit, Found)> {
    let parts = parts_in(alloc, count)?;
    let fabric = stores(alloc, count, 3, fates)?;
    left_by(alloc, fabric, count, &parts, steps)
}
