//! Four passes in turns.
//!
//! Whether a pass may commit is looked up in the whole journal, so what a commit takes here grows with the journal: new
//! stores come after some rounds.

use crate::calls::attempt;
use crate::draws::Draws;
use crate::parts::{Change, parts_of, value_of};
use crate::reading::{Sight, look};
use crate::stores::{Stores, stores};
use anyhow::{Result, bail};
use pair_types::{Slot, Tid};
use std::alloc::Global;
use two_phase::Commit;

/// How many stores there are.
const STORES: u32 = 4;

/// How many slots each store has.
const SLOTS: u64 = 8;

/// How many passes there are.
const PASSES: u32 = 4;

/// The stores, and what was answered so far.
#[derive(Drop)]
struct Passes {
    fabric: Option<Stores>,
    serial: u64,
    done: u64,
    crossed: u64,
}

/// The slot of a number from 0 to 31.
fn slot_of(drawn: u64) -> Slot {
    Slot {
        store: (drawn / SLOTS % 4) as u32,
        number: drawn % SLOTS,
    }
}

/// Two slots that differ, the lower one first.
fn two_slots(draws: &mut Draws) -> (Slot, Slot) {
    let one = draws.below(32);
    let other = (one + 1 + draws.below(31)) % 32;
    if one < other {
        (slot_of(one), slot_of(other))
    } else {
        (slot_of(other), slot_of(one))
    }
}

impl Passes {
    /// New stores.
    fn new(alloc: Global) -> Result<Passes> {
        Ok(Passes {
            fabric: Some(stores(alloc, STORES, 3, Vec::new(alloc))?),
            serial: 0,
            done: 0,
            crossed: 0,
        })
    }

    /// A pass reads a slot, into which it is to write one more.
    fn read(&mut self, alloc: Global, pass: u32, slot: Slot) -> Result<Change> {
        let Some(fabric) = self.fabric.take() else {
            bail!("there are no stores");
        };
        let (fabric, sight) = look(alloc, fabric, pass, slot);
        self.fabric = Some(fabric);
        match sight {
            Ok(Sight::Page(version, value)) => Ok(Change {
                slot,
                version,
                value: value.wrapping_add(1),
            }),
            _ => bail!("a slot cannot be read"),
        }
    }

    /// A pass reads two slots.
    fn read_two(&mut self, alloc: Global, pass: u32, slots: (Slot, Slot)) -> Result<[Change; 2]> {
        let first = self.read(alloc, pass, slots.0)?;
        let second = self.read(alloc, pass, slots.1)?;
        Ok([first, second])
    }

    fn note(&mut self, answer: Commit) -> Result<()> {
        match answer {
            Commit::Done => self.done = self.done.wrapping_add(1),
            Commit::Crossed(_) => self.crossed = self.crossed.wrapping_add(1),
            Commit::Fault(fault) => bail!("{fault}"),
        }
        Ok(())
    }

    /// A pass commits what it read.
    fn commit(&mut self, alloc: Global, pass: u32, changes: &[Change]) -> Result<()> {
        let parts = parts_of(alloc, STORES, changes)?;
        self.serial = self.serial.wrapping_add(1);
        let tid = Tid {
            pass,
            serial: self.serial,
        };
        let Some(fabric) = self.fabric.take() else {
            bail!("there are no stores");
        };
        let (fabric, answer) = attempt(alloc, fabric, tid, &parts, None);
        self.fabric = Some(fabric);
        match answer {
            Some(answer) => self.note(answer),
            None => bail!("a transaction may not be committed"),
        }
    }

    /// All passes read; then they commit in turn, from the one that is drawn.
    fn round(&mut self, alloc: Global, draws: &mut Draws) -> Result<()> {
        let mut changes = Vec::new(alloc);
        for pass in 0..PASSES {
            let slots = two_slots(draws);
            changes.push(self.read_two(alloc, pass, slots)?)?;
        }
        let first = draws.below(u64::from(PASSES)) as u32;
        for turn in 0..PASSES {
            let pass = (first + turn) % PASSES;
            let Some(own) = changes.get(pass as usize) else {
                bail!("no pass has this number");
            };
            self.commit(alloc, pass, own)?;
        }
        Ok(())
    }

    /// The sum of all slots, as the stores keep them.
    fn sum(&self) -> u64 {
        let mut sum: u64 = 0;
        let Some(fabric) = &self.fabric else {
            return sum;
        };
        for store in 0..fabric.stores() {
            for number in 0..SLOTS {
                sum = sum.wrapping_add(value_of(fabric.store(store).content(number)));
            }
        }
        sum
    }

    fn total(&self) -> Total {
        Total {
            done: self.done,
            crossed: self.crossed,
            sum: self.sum(),
        }
    }
}

/// What came of transactions: how many were done, how many were crossed, and the sum of all slots.
#[derive(Clone, Copy, Debug, PartialEq, Eq)]
struct Total {
    done: u64,
    crossed: u64,
    sum: u64,
}

impl Total {
    fn and(self, other: Total) -> Total {
        Total {
            done: self.done.wrapping_add(other.done),
            crossed: self.crossed.wrapping_add(other.crossed),
            sum: self.sum.wrapping_add(other.sum),
        }
    }
}

/// So many rounds on new stores.
fn rounds_on_new(alloc: Global, draws: &mut Draws, rounds: u32) -> Result<Total> {
    let mut passes = Passes::new(alloc)?;
    for _ in 0..rounds {
        passes.round(alloc, draws)?;
    }
    Ok(passes.total())
}

/// What the transactions of a number come to: on so many new stores in turn there are so many rounds of four.
pub fn crowd(alloc: Global, number: u64, times: u32, rounds: u32) -> Result<String> {
    let mut draws = Draws::new(number);
    let mut total = Total {
        done: 0,
        crossed: 0,
        sum: 0,
    };
    for _ in 0..times {
        total = total.and(rounds_on_new(alloc, &mut draws, rounds)?);
    }
    let Total { done, crossed, sum } = total;
    Ok(format!(in alloc; "{done} done, {crossed} crossed, sum {sum}")?)
}
