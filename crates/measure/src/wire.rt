//! Calls and a result, read and written in memory.

ghost use Rattle.std.specs.Prelude.{◌-◌, ◌^◌, ◌<◌, ◌≤◌, IfOk};
ghost use Rattle.nfs3_types.specs.Calls.{procedure_of, call_of};
ghost use Rattle.nfs3_res.specs.Spelled.{IsSpelled};

use crate::samples::Samples;
use anyhow::{Result, ensure};
use nfs3_args::{read_args, write_args};
use nfs3_res::{read_reply, write_reply};
use nfs3_types::{Call, Reply};
use std::alloc::Global;

/// The most bytes of a sample.
const LONGEST: usize = 65_536;

/// Reads a call, which can be written again.
fn read_call(procedure: u32, args: &[u8]) -> Result<Call<'_>>
    requires { procedure ≤ 21 }
    ensures fits { IfOk result (λ lent. (call_of (procedure_of lent)).Fits lent) }
    ensures short { IfOk result (λ lent. (call_of (procedure_of lent)).size lent < 2 ^ 31 - 24) }
{
    ensure!(args.len() <= LONGEST, "the arguments are too long");
    Ok(read_args(procedure, args)?)
}

/// Reads a result, which can be written again.
fn read_result(alloc: Global, procedure: u32, text: &[u8]) -> Result<Reply>
    requires { procedure ≤ 21 }
    ensures { IfOk result (λ reply. IsSpelled reply) }
{
    ensure!(text.len() <= LONGEST, "the result is too long");
    Ok(read_reply(alloc, procedure, text)?)
}

/// Reads the n-th text, the samples in turn, and writes what was read.
fn pass_on(alloc: Global, samples: &Samples, out: &mut Vec<u8>, n: u64) -> Result<()> {
    match n % 4 {
        0 => write_args(&read_call(1, &samples.get_attr)?, out)?,
        1 => write_args(&read_call(3, &samples.lookup)?, out)?,
        2 => write_args(&read_call(7, &samples.write)?, out)?,
        _ => write_reply(&read_result(alloc, 17, &samples.listing)?, out)?,
    }
    Ok(())
}

/// Reads so many texts and writes each again. The sum of the bytes that were written.
fn pass_all_on(alloc: Global, samples: &Samples, out: &mut Vec<u8>, count: u64) -> Result<u64> {
    let mut bytes = 0u64;
    for n in 0..count {
        out.clear();
        pass_on(alloc, samples, out, n)?;
        bytes = bytes.saturating_add(out.len() as u64);
    }
    Ok(bytes)
}

/// Reads each sample once, and writes so many values, those of the samples in turn. The sum of their bytes.
fn write_all(alloc: Global, samples: &Samples, out: &mut Vec<u8>, count: u64) -> Result<u64> {
    let get_attr = read_call(1, &samples.get_attr)?;
    let lookup = read_call(3, &samples.lookup)?;
    let write = read_call(7, &samples.write)?;
    let listing = read_result(alloc, 17, &samples.listing)?;
    let mut bytes = 0u64;
    for n in 0..count {
        out.clear();
        match n % 4 {
            0 => write_args(&get_attr, out)?,
            1 => write_args(&lookup, out)?,
            2 => write_args(&write, out)?,
            _ => write_reply(&listing, out)?,
        }
        bytes = bytes.saturating_add(out.len() as u64);
    }
    Ok(bytes)
}

/// Reads `count` texts and writes each again, then writes as many values that were read before, and
/// prints a line for each figure. Both write into the same buffer, which is cleared and keeps its room.
pub fn measure(rt: &impl Print, alloc: Global, count: u64) -> Result<()> {
    let samples = Samples::new(alloc)?;
    let mut out = Vec::with_capacity(alloc, LONGEST)?;
    let bytes = pass_all_on(alloc, &samples, &mut out, count)?;
    println!(rt; "read and written {count}")?;
    println!(rt; "bytes read and written {bytes}")?;
    let bytes = write_all(alloc, &samples, &mut out, count)?;
    println!(rt; "written {count}")?;
    println!(rt; "bytes written {bytes}")?;
    Ok(())
}
