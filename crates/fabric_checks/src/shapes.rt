//! Fabrics of shapes, and what a port of one answers.

ghost use Rattle.std.specs.Prelude.{⊤};

use crate::told::{text_of, told_of};
use anyhow::{Result, bail};
use fabric::{Fabric, FabricFault, OwnedPort};
use outside::LostReplicas;
use page_types::{Answer, Command, Meaning, Port};
use pair_types::{Page, StepFault};
use std::alloc::Global;

/// Every transaction is right.
struct Anything;

impl Meaning for Anything {
    ghost State = { ⊤ };

    ghost stands = { λ _ _ _. ⊤ };

    ghost next = { λ _ _ _ _. ⊤ };
}

type Stores = Fabric<Anything, LostReplicas>;

fn made(
    alloc: Global,
    stores: u32,
    replicas: u32,
    lost: u32,
) -> Result<Result<Stores, FabricFault>> {
    let page = Page::from_slice(alloc, &[7])?;
    Ok(Fabric::new(alloc, stores, replicas, page, LostReplicas::new(lost)))
}

/// Whether there is a fabric of the shape.
pub fn shape(alloc: Global, stores: u32, replicas: u32) -> Result<String> {
    match made(alloc, stores, replicas, 0)? {
        Ok(fabric) => Ok(format!(in alloc; "{} stores", fabric.stores())?),
        Err(FabricFault::BadShape) => Ok(String::from_str(alloc, "bad shape")?),
        Err(FabricFault::NoMemory) => bail!("no memory"),
    }
}

/// What is said of what a step answered.
fn told(alloc: Global, answered: &Result<Answer, StepFault>) -> Result<String> {
    match answered {
        Ok(answer) => Ok(text_of(alloc, told_of(answer))?),
        Err(fault) => Ok(format!(in alloc; "{fault}")?),
    }
}

type Way = OwnedPort<Anything, LostReplicas>;

/// What is said of what the last store answers to `Fresh`.
fn fresh(alloc: Global, port: &mut Way) -> Result<String> {
    let last = port.stores() - 1;
    let answered = port.step(last, &Command::Fresh);
    told(alloc, &answered)
}

/// What is said of what the last store answers to `Read` of page 0.
fn read(alloc: Global, port: &mut Way) -> Result<String> {
    let last = port.stores() - 1;
    let answered = port.step(last, &Command::Read { number: 0 });
    told(alloc, &answered)
}

/// What is said of the last store of a fabric.
fn left(alloc: Global, fabric: &Stores) -> Result<String> {
    let last = fabric.stores() - 1;
    let (entries, doubts) = (fabric.journal().len(), fabric.doubts());
    let obeyed = fabric.store(last).obeyed();
    Ok(format!(in alloc; "{entries} entries, {doubts} doubts, {obeyed} obeyed")?)
}

/// What a port of pass 3 answers to `Fresh` and `Read` at the last store, and what the fabric that it gives back has.
pub fn port(alloc: Global, stores: u32, replicas: u32, lost: u32) -> Result<String> {
    let Ok(fabric) = made(alloc, stores, replicas, lost)? else {
        bail!("no fabric");
    };
    let mut port = OwnedPort::new(fabric, 3);
    let fresh = fresh(alloc, &mut port)?;
    let read = read(alloc, &mut port)?;
    let left = left(alloc, &port.part())?;
    Ok(format!(in alloc; "{fresh}, {read}, {left}")?)
}
