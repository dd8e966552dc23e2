//! Single commands at the stores of a shape.

use crate::asked::{Asked, Kind, Written};
use crate::run::{asked_at, groups};
use crate::told::{text_of, told_of};
use anyhow::{Result, bail, ensure};
use outside::LostReplicas;
use page_types::PageRead;
use pair_types::{StepFault, Tid};
use std::alloc::Global;
use store_group::{Stepped, StoreGroup};

/// The stores, and the weather.
#[derive(Drop)]
pub struct Script {
    groups: Vec<StoreGroup>,
    weather: LostReplicas,
}

fn kind_of(word: &str) -> Result<Kind> {
    Ok(match word {
        "fresh" => Kind::Fresh,
        "read" => Kind::Read,
        "look" => Kind::Look,
        "write" => Kind::Write,
        "prepare" => Kind::Prepare,
        "decide" => Kind::Decide,
        "resolve" => Kind::Resolve,
        _ => bail!("no command is called {word}"),
    })
}

fn written_of(word: &str) -> Result<Written> {
    Ok(match word {
        "none" => Written::Neither,
        "first" => Written::First,
        "second" => Written::Second,
        _ => bail!("no page is called {word}"),
    })
}

/// The command of the fields `KIND PASS NUMBER VERSION NUMBER VERSION WRITTEN BYTE HOME OTHER COMMIT`, where COMMIT is
/// 1 or 0.
fn asked_of(fields: &[&str]) -> Result<Asked> {
    let [
        kind,
        pass,
        first,
        at_first,
        second,
        at_second,
        written,
        byte,
        home,
        other,
        commit,
    ] = fields
    else {
        bail!("a command has 11 fields");
    };
    Ok(Asked {
        kind: kind_of(kind)?,
        tid: Tid {
            pass: pass.parse()?,
            serial: 1,
        },
        first: PageRead {
            number: first.parse()?,
            version: at_first.parse()?,
        },
        second: PageRead {
            number: second.parse()?,
            version: at_second.parse()?,
        },
        written: written_of(written)?,
        byte: byte.parse()?,
        home: home.parse()?,
        other: other.parse()?,
        commit: *commit == "1",
    })
}

/// What is said of a step: what was settled late, and what the command is answered.
fn told(alloc: Global, stepped: &Stepped) -> Result<String> {
    let own = match &stepped.own {
        Ok(answer) => text_of(alloc, told_of(answer))?,
        Err(StepFault::Doubt) => String::from_str(alloc, "in doubt")?,
        Err(_) => bail!("no memory"),
    };
    match &stepped.late {
        Some((_, answer)) => {
            let late = text_of(alloc, told_of(answer))?;
            Ok(format!(in alloc; "late {late}, {own}")?)
        }
        None => Ok(own),
    }
}

impl Script {
    /// No stores.
    pub fn new(alloc: Global) -> Script {
        Script {
            groups: Vec::new(alloc),
            weather: LostReplicas::new(0),
        }
    }

    /// Begins with the stores of a shape.
    pub fn begin(&mut self, alloc: Global, stores: u32, replicas: u32) -> Result<String> {
        self.groups = groups(alloc, stores, replicas)?;
        Ok(format!(in alloc; "{stores} stores of {replicas} replicas")?)
    }

    /// From now on the replicas below this number are lost.
    pub fn lose(&mut self, alloc: Global, lost: u32) -> Result<String> {
        self.weather = LostReplicas::new(lost);
        Ok(format!(in alloc; "{lost} lost")?)
    }

    /// Asks a store.
    pub fn ask(&mut self, alloc: Global, store: u32, fields: &[&str]) -> Result<String> {
        let asked = asked_of(fields)?;
        ensure!(
            asked.first.number < asked.second.number,
            "the pages do not rise"
        );
        let Some(group) = self.groups.get_mut(store as usize) else {
            bail!("no store has this number");
        };
        let stepped = asked_at(alloc, group, &asked, &mut self.weather)?;
        told(alloc, &stepped)
    }

    /// How many commands are settled at all stores.
    pub fn settled(&self, alloc: Global) -> Result<String> {
        let mut count: u64 = 0;
        for group in &self.groups {
            count = count.wrapping_add(group.store().obeyed());
        }
        Ok(format!(in alloc; "{count} settled")?)
    }
}
