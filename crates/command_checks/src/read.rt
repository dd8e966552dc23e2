//! Words, and what they are read as.

use anyhow::Result;
use fss_words::{ServePlan, Wanted, WordsFault, read_words};
use std::alloc::Global;

/// The number of the file system, and what tells a client that nothing that it wrote was lost.
const FSID: u64 = 1 << 32;

const VERIFIER: [u8; 8] = *b"fss\0\0\0\0\x01";

/// The words of a field, with commas between them: none of an empty field.
fn words_of(alloc: Global, field: &str) -> Result<Vec<String>> {
    let mut words = Vec::new(alloc);
    if field.is_empty() {
        return Ok(words);
    }
    for word in field.split(',') {
        words.push(String::from_str(alloc, word)?)?;
    }
    Ok(words)
}

/// What is said of a server's plan.
fn plan_text(alloc: Global, plan: &ServePlan) -> Result<String> {
    let address = str::from_utf8(plan.address.as_slice())?;
    let known = plan.fsid == FSID && plan.verifier == VERIFIER;
    let of = if known { "serve" } else { "another" };
    let (workers, connections) = (plan.workers, plan.connections);
    let (stores, replicas) = (plan.stores, plan.replicas);
    Ok(format!(in alloc; "{of} {address} {workers} {connections} {stores} {replicas}")?)
}

/// What is said of a command.
fn text_of(alloc: Global, wanted: &Wanted) -> Result<String> {
    match wanted {
        Wanted::Feed { stores, replicas } => Ok(format!(in alloc; "feed {stores} {replicas}")?),
        Wanted::Work {
            number,
            calls,
            stores,
            replicas,
            lost,
            rough,
        } => Ok(format!(in alloc; "work {number} {calls} {stores} {replicas} {lost} {rough}")?),
        Wanted::Serve(plan) => plan_text(alloc, plan),
    }
}

/// What the words of a field are read as.
pub fn told(alloc: Global, field: &str) -> Result<String> {
    let words = words_of(alloc, field)?;
    match read_words(alloc, words.as_slice()) {
        Ok(wanted) => text_of(alloc, &wanted),
        Err(WordsFault::Usage) => Ok(String::from_str(alloc, "usage")?),
        Err(WordsFault::NoMemory) => Ok(String::from_str(alloc, "no memory")?),
    }
}
