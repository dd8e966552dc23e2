//! Steps, and how a line says them.

use crate::run::{Plan, run};
use crate::script::Script;
use crate::shapes;
use anyhow::{Result, bail};
use std::alloc::Global;

/// The plan of a run.
fn plan_of(fields: &[&str]) -> Result<Plan> {
    let [stores, replicas, commands, lost, rough, number] = fields else {
        bail!("a run has 6 fields");
    };
    Ok(Plan {
        stores: stores.parse()?,
        replicas: replicas.parse()?,
        commands: commands.parse()?,
        lost: lost.parse()?,
        rough: rough.parse()?,
        number: number.parse()?,
    })
}

/// What is said of a step: `shape STORES REPLICAS`, `port STORES REPLICAS LOST`, `stores STORES REPLICAS`, `lose LOST`,
/// `ask STORE ..` with the fields of a command, `settled`, or `random STORES REPLICAS COMMANDS LOST ROUGH NUMBER`.
pub fn said(alloc: Global, script: &mut Script, line: &str) -> Result<String> {
    let fields: Vec<&str> = line.split(' ').collect(alloc)?;
    match &*fields {
        ["shape", stores, replicas] => shapes::shape(alloc, stores.parse()?, replicas.parse()?),
        ["port", stores, replicas, lost] => {
            shapes::port(alloc, stores.parse()?, replicas.parse()?, lost.parse()?)
        }
        ["stores", stores, replicas] => script.begin(alloc, stores.parse()?, replicas.parse()?),
        ["lose", lost] => script.lose(alloc, lost.parse()?),
        ["ask", store, rest @ ..] => script.ask(alloc, store.parse()?, rest),
        ["settled"] => script.settled(alloc),
        ["random", rest @ ..] => run(alloc, plan_of(rest)?),
        _ => bail!("no step is said so"),
    }
}
