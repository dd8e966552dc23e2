//! Single calls of passes.

use crate::calls::attempt;
use crate::parts::{Change, parts_of, value_of};
use crate::reading::{fresh, look};
use crate::stores::{Stores, stores};
use crate::told::{text_of_commit, text_of_sight};
use anyhow::{Result, bail};
use page_types::JEntry;
use pair_types::{Slot, Tid};
use std::alloc::Global;

/// The stores, and how many transactions there were.
#[derive(Drop)]
pub struct Script {
    fabric: Option<Stores>,
    serial: u64,
}

/// The slot of `STORE:NUMBER`.
fn slot_of(word: &str) -> Result<Slot> {
    let Some((store, number)) = word.split_once(':') else {
        bail!("a slot is STORE:NUMBER");
    };
    Ok(Slot {
        store: store.parse()?,
        number: number.parse()?,
    })
}

/// The change of `STORE:NUMBER@VERSION=VALUE`.
fn change_of(word: &str) -> Result<Change> {
    let Some((read, value)) = word.split_once('=') else {
        bail!("a change has a value");
    };
    let Some((slot, version)) = read.split_once('@') else {
        bail!("a change has a version");
    };
    Ok(Change {
        slot: slot_of(slot)?,
        version: version.parse()?,
        value: value.parse()?,
    })
}

fn changes_of(alloc: Global, words: &[&str]) -> Result<Vec<Change>> {
    let mut changes = Vec::new(alloc);
    for word in words {
        changes.push(change_of(word)?)?;
    }
    Ok(changes)
}

/// How many entries of each kind the journal has.
fn counts(alloc: Global, journal: &[JEntry]) -> Result<String> {
    let (mut took, mut doubted, mut late) = (0u64, 0u64, 0u64);
    for entry in journal {
        match entry {
            JEntry::Took { .. } => took = took.wrapping_add(1),
            JEntry::Doubted { .. } => doubted = doubted.wrapping_add(1),
            JEntry::Late { .. } => late = late.wrapping_add(1),
        }
    }
    Ok(format!(in alloc; "{took} took, {doubted} doubted, {late} late")?)
}

/// What a store keeps in a slot.
fn kept(alloc: Global, fabric: &Stores, slot: Slot) -> Result<String> {
    if slot.store >= fabric.stores() {
        bail!("no store has this number");
    }
    let store = fabric.store(slot.store);
    let version = store.version(slot.number);
    let value = value_of(store.content(slot.number));
    Ok(format!(in alloc; "version {version} of {value}")?)
}

impl Script {
    /// No stores.
    pub fn new() -> Script {
        Script {
            fabric: None,
            serial: 0,
        }
    }

    /// Begins with the stores of a shape.
    pub fn begin(&mut self, alloc: Global, count: u32, replicas: u32) -> Result<String> {
        let fabric = stores(alloc, count, replicas, Vec::new(alloc))?;
        self.fabric = Some(fabric);
        self.serial = 0;
        Ok(format!(in alloc; "{count} stores of {replicas} replicas")?)
    }

    fn take(&mut self) -> Result<Stores> {
        match self.fabric.take() {
            Some(fabric) => Ok(fabric),
            None => bail!("there are no stores"),
        }
    }

    /// A pass asks for a number.
    pub fn fresh(&mut self, alloc: Global, pass: u32, store: u32) -> Result<String> {
        let (fabric, number) = fresh(self.take()?, pass, store);
        self.fabric = Some(fabric);
        match number? {
            Some(number) => Ok(format!(in alloc; "number {number}")?),
            None => bail!("no number was answered"),
        }
    }

    /// A pass reads a slot.
    pub fn read(&mut self, alloc: Global, pass: u32, slot: &str) -> Result<String> {
        let slot = slot_of(slot)?;
        let (fabric, sight) = look(alloc, self.take()?, pass, slot);
        self.fabric = Some(fabric);
        Ok(text_of_sight(alloc, sight?)?)
    }

    /// A pass commits changes, and stops after so many steps, where there is a number.
    pub fn commit(
        &mut self,
        alloc: Global,
        pass: u32,
        steps: Option<u64>,
        words: &[&str],
    ) -> Result<String> {
        let parts = parts_of(alloc, 16, &changes_of(alloc, words)?)?;
        self.serial = self.serial.wrapping_add(1);
        let tid = Tid {
            pass,
            serial: self.serial,
        };
        let (fabric, answer) = attempt(alloc, self.take()?, tid, &parts, steps);
        self.fabric = Some(fabric);
        match answer {
            Some(answer) => Ok(text_of_commit(alloc, answer)?),
            None => Ok(String::from_str(alloc, "may not be committed")?),
        }
    }

    /// What the stores keep in a slot.
    pub fn kept(&self, alloc: Global, slot: &str) -> Result<String> {
        let slot = slot_of(slot)?;
        match &self.fabric {
            Some(fabric) => kept(alloc, fabric, slot),
            None => bail!("there are no stores"),
        }
    }

    /// How many entries the journal has.
    pub fn entries(&self, alloc: Global) -> Result<String> {
        match &self.fabric {
            Some(fabric) => counts(alloc, fabric.journal()),
            None => bail!("there are no stores"),
        }
    }
}
