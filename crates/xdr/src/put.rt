//! Writing items at the end of a buffer.

ghost use Rattle.std.specs.Prelude.{◌≡◌, ℕ, ◌+◌, ◌<◌, ◌≤◌, ◌^◌, ◌++◌, length, vec_len, vec_capacity, OnOk, OnErr, IsOk};
ghost use Rattle.xdr_grammar.specs.Writing.{Puts};
ghost use Rattle.xdr_grammar.specs.Items.{word, hyper, truth, fixed, opaque};
ghost use Rattle.xdr_grammar.specs.Items.{padding as padding_of};

use crate::pad::{padding, zeros};
use nfs3_types::NoMemory;

/// Adds a word.
#[tactic(auto, unfolding(xdr_grammar::specs::Items::word))]
pub fn put_word(out: &mut Vec<u8>, v: u32) -> Result<(), NoMemory>
    ensures puts { Puts word v out.old out.new result }
    ensures err { OnErr result (out.new.items ≡ out.old.items) }
{
    out.extend_from_slice(&v.to_be_bytes())?;
    Ok(())
}

/// Adds a hyper.
#[tactic(auto, unfolding(xdr_grammar::specs::Items::hyper))]
pub fn put_hyper(out: &mut Vec<u8>, v: u64) -> Result<(), NoMemory>
    ensures puts { Puts hyper v out.old out.new result }
    ensures err { OnErr result (out.new.items ≡ out.old.items) }
{
    out.extend_from_slice(&v.to_be_bytes())?;
    Ok(())
}

/// Adds a boolean: the word 0 or 1.
#[tactic(auto, unfolding(xdr_grammar::specs::Items::truth))]
pub fn put_truth(out: &mut Vec<u8>, v: bool) -> Result<(), NoMemory>
    ensures puts { Puts truth v out.old out.new result }
    ensures err { OnErr result (out.new.items ≡ out.old.items) }
{
    put_word(out, u32::from(v))
}

/// Adds fixed-length opaque data, and zeros as its padding.
#[tactic(auto, unfolding(xdr_grammar::specs::Items::fixed))]
pub fn put_fixed(out: &mut Vec<u8>, part: &[u8]) -> Result<(), NoMemory>
    ensures puts { Puts (fixed (length part.now)) part.now out.old out.new result }
    ensures err { OnErr result (out.new.items ≡ out.old.items) }
{
    let zeros = zeros(part.len());
    out.reserve(part.len() + zeros.len())?;
    out.extend_from_slice(part)?;
    out.extend_from_slice(zeros)?;
    Ok(())
}

/// Adds variable-length opaque data: its length, and then the bytes as fixed-length opaque data.
#[tactic(auto, unfolding(xdr_grammar::specs::Items::opaque))]
pub fn put_opaque(out: &mut Vec<u8>, part: &[u8]) -> Result<(), NoMemory>
    requires { length part.now < 2 ^ 32 }
    ensures puts { (max : ℕ) → Puts (opaque max) part.now out.old out.new result }
    ensures err { OnErr result (out.new.items ≡ out.old.items) }
{
    out.reserve(4 + part.len() + padding(part.len()))?;
    put_word(out, part.len() as u32)?;
    put_fixed(out, part)
}
