//! The stores.

ghost use Rattle.std.specs.Prelude.{⊤};

use anyhow::{Result, bail};
use fabric::{Fabric, FabricFault, OwnedPort};
use outside::{Fate, ListWeather};
use page_types::Meaning;
use pair_types::Page;
use std::alloc::Global;

/// Every transaction is right.
pub struct Anything;

impl Meaning for Anything {
    ghost State = { ⊤ };

    ghost stands = { λ _ _ _. ⊤ };

    ghost next = { λ _ _ _ _. ⊤ };
}

/// The stores of a shape, in a weather over a list of fates.
pub type Stores = Fabric<Anything, ListWeather>;

/// A pass's way to them.
pub type Way = OwnedPort<Anything, ListWeather>;

/// So many messages that come, and then so many that are lost; all later ones come.
pub fn fates(alloc: Global, come: u32, lost: u32) -> Result<Vec<Fate>> {
    let mut fates = Vec::new(alloc);
    for _ in 0..come {
        fates.push(Fate::Deliver)?;
    }
    for _ in 0..lost {
        fates.push(Fate::Lose)?;
    }
    Ok(fates)
}

/// Stores of a shape, in which the first page is empty.
pub fn stores(alloc: Global, stores: u32, replicas: u32, fates: Vec<Fate>) -> Result<Stores> {
    match Fabric::new(
        alloc,
        stores,
        replicas,
        Page::empty(),
        ListWeather::new(fates),
    ) {
        Ok(fabric) => Ok(fabric),
        Err(FabricFault::BadShape) => bail!("bad shape"),
        Err(FabricFault::NoMemory) => bail!("no memory"),
    }
}
