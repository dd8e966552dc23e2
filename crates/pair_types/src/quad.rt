//! Versioned records.

use crate::texts::{Key, Value};

/// A versioned record: a value at a key, from its birth up to, and not including, its death.
#[derive(Debug, Drop)]
pub struct Quad {
    /// What it is found by, together with its birth.
    pub key: Key,
    /// The moment from which it is seen.
    pub birth: u64,
    /// The moment from which it is seen no more.
    pub death: u64,
    /// What it carries.
    pub value: Value,
}
