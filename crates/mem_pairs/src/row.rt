//! A record that fits into a page.

ghost use Rattle.std.specs.Prelude.{◌≡◌, ◌≤◌, length, IfOk};
ghost use Rattle.std.specs.Str.{bytes_eq};
ghost use Rattle.pairs.specs.Lives.{never, sees, is_spent, life_of};

use nfs3_types::NoMemory;
use pair_types::{Key, Quad, Value};
use pairs::At;
use std::alloc::Global;
use std::marker::Model;

/// The death of what lives.
const NEVER: u64 = u64::MAX;

/// A record, whose key has at most 264 bytes, and whose value has at most 1,200.
#[derive(Drop)]
pub(crate) struct Row {
    quad: Quad,
}

impl Model for Row {
    ghost use Rattle.std.specs.Prelude.{◌≤◌, length};
    ghost use Rattle.pair_types.specs.declared.quad.Quad.{Quad};

    ghost Value = { Quad };

    ghost view = { λ row. row.quad };

    ghost invariant = { λ row. (length row.quad.key ≤ 264) × (length row.quad.value ≤ 1200) };
}

impl Row {
    /// A record of a value that lives.
    pub fn born(alloc: Global, epoch: u64, key: &[u8], value: &[u8]) -> Result<Row, NoMemory>
        requires key { length key.now ≤ 264 }
        requires value { length value.now ≤ 1200 }
        ensures { IfOk result (λ row. row ≡ record { key = key.now; birth = epoch; death = never; value = value.now }) }
    {
        let key = Key::from_slice(alloc, key)?;
        let value = Value::from_slice(alloc, value)?;
        Ok(Row {
            quad: Quad {
                key,
                birth: epoch,
                death: NEVER,
                value,
            },
        })
    }

    /// The key.
    pub fn key(&self) -> &[u8]
        ensures key { result.now ≡ self.now.key }
        ensures few { length result.now ≤ 264 }
    {
        self.quad.key.as_slice()
    }

    /// The value.
    pub fn value(&self) -> &[u8]
        ensures value { result.now ≡ self.now.value }
        ensures few { length result.now ≤ 1200 }
    {
        self.quad.value.as_slice()
    }

    /// The moment from which it is seen.
    pub fn birth(&self) -> u64
        ensures { result ≡ self.now.birth }
    {
        self.quad.birth
    }

    /// Whether it is a record of this key.
    pub fn is_of(&self, key: &[u8]) -> bool
        ensures { result ≡ bytes_eq self.now.key key.now }
    {
        self.quad.key.as_slice() == key
    }

    /// Whether a view sees it.
    pub fn is_seen(&self, at: At) -> bool
        ensures { result ≡ sees at (life_of self.now) }
    {
        match at {
            At::Live => self.quad.death == NEVER,
            At::Snap(number) => self.quad.birth <= number && number < self.quad.death,
        }
    }

    /// Whether it is dead, and none of these numbers sees it.
    pub fn is_spent(&self, kept: &[u64]) -> bool
        ensures { result ≡ is_spent kept.now (life_of self.now) }
    {
        if self.quad.death == NEVER {
            return false;
        }
        for number in kept {
            if self.is_seen(At::Snap(*number)) {
                return false;
            }
        }
        true
    }

    /// It is seen no more from an epoch on.
    pub fn end(&mut self, epoch: u64)
        ensures { self.new ≡ record self.old { death = epoch } }
    {
        self.quad.death = epoch;
    }

    /// It carries another value.
    pub fn replace(&mut self, value: Value)
        requires { length value ≤ 1200 }
        ensures { self.new ≡ record self.old { value = value } }
    {
        self.quad.value = value;
    }

    /// What it tells.
    pub fn into_quad(self) -> Quad
        ensures { result ≡ self }
    {
        self.quad
    }
}
