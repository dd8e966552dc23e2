//! One step, and how a line says it.

ghost use Rattle.std.specs.Prelude.{IfOk};
ghost use Rattle.btree_page.specs.Tree.{IsRecord};

use anyhow::{Result, bail, ensure};
use pair_types::{Key, Quad, Value};
use std::alloc::Global;

/// A step: what is done, and with which record. Of a search the key and the birth count alone.
#[derive(Debug, Drop)]
pub struct Step {
    /// What is done: one of the words of [`run`](crate::run).
    pub word: String,
    /// The record.
    pub quad: Quad,
    ghost fits: { IsRecord quad },
}

/// A record of this key, whose value has so many bytes.
fn quad_of(alloc: Global, key: &str, birth: u64, death: u64, length: usize) -> Result<Quad>
    ensures { IfOk result (λ q. IsRecord q) }
{
    ensure!(key.len() <= 264, "a key has at most 264 bytes");
    ensure!(length <= 1200, "a value has at most 1,200 bytes");
    let value = Value::from_vec(vec![in alloc; b'v'; length]?);
    Ok(Quad {
        key: Key::from_slice(alloc, key.as_bytes())?,
        birth,
        death,
        value,
    })
}

/// The step of a line: its word, and the record's key, birth, death and number of bytes of the value,
/// separated by spaces.
pub fn read(alloc: Global, line: &str) -> Result<Step> {
    let fields: Vec<&str> = line.split(' ').collect(alloc)?;
    let [word, key, birth, death, length] = *fields else {
        bail!("a step has 5 fields, and here are {}", fields.len());
    };
    let quad = quad_of(alloc, key, birth.parse()?, death.parse()?, length.parse()?)?;
    Ok(Step {
        word: String::from_str(alloc, word)?,
        quad,
    })
}
