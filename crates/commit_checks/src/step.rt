//! Steps, and how a line says them.

use crate::crowd::crowd;
use crate::left::leave;
use crate::losses::losses;
use crate::overtaken::overtake;
use crate::script::Script;
use crate::told::text_of_commit;
use anyhow::{Result, bail};
use std::alloc::Global;

/// What is left of a commit over so many stores that stops after so many steps.
fn stops(alloc: Global, count: u32, steps: u64) -> Result<String> {
    let (answer, found) = leave(alloc, count, Vec::new(alloc), Some(steps))?;
    let said = text_of_commit(alloc, answer)?;
    Ok(format!(in alloc; "{said}, {}, met {}", found.text(), found.met)?)
}

/// After how many steps a pass stops.
fn steps_of(word: &str) -> Result<Option<u64>> {
    match word {
        "all" => Ok(None),
        steps => Ok(Some(steps.parse()?)),
    }
}

/// What is said of a step: `stores STORES REPLICAS`, `fresh PASS STORE`, `read PASS SLOT`, `commit PASS STEPS CHANGE ..`,
/// `kept SLOT`, `entries`, `stop STORES STEPS`, `lose PLACES LOST`, `overtake`, or `crowd NUMBER TIMES ROUNDS`.
pub fn said(alloc: Global, script: &mut Script, line: &str) -> Result<String> {
    let fields: Vec<&str> = line.split(' ').collect(alloc)?;
    match &*fields {
        ["stores", stores, replicas] => script.begin(alloc, stores.parse()?, replicas.parse()?),
        ["fresh", pass, store] => script.fresh(alloc, pass.parse()?, store.parse()?),
        ["read", pass, slot] => script.read(alloc, pass.parse()?, slot),
        ["commit", pass, steps, rest @ ..] => {
            script.commit(alloc, pass.parse()?, steps_of(steps)?, rest)
        }
        ["kept", slot] => script.kept(alloc, slot),
        ["entries"] => script.entries(alloc),
        ["stop", stores, steps] => stops(alloc, stores.parse()?, steps.parse()?),
        ["lose", places, lost] => losses(alloc, places.parse()?, lost.parse()?),
        ["overtake"] => overtake(alloc),
        ["crowd", number, times, rounds] => {
            crowd(alloc, number.parse()?, times.parse()?, rounds.parse()?)
        }
        _ => bail!("no step is said so"),
    }
}
