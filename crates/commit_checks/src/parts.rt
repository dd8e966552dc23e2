//! What a transaction reads and writes.

use nfs3_types::{ListOf, NoMemory};
use page_types::{PageRead, PageWrite};
use pair_types::{Page, Slot};
use std::alloc::Global;
use two_phase::Part;

/// A slot that was read at a version, and the number that is to be written into it.
#[derive(Clone, Copy, Debug, PartialEq, Eq)]
pub struct Change {
    pub slot: Slot,
    pub version: u64,
    pub value: u64,
}

/// The number that a page holds; an empty page holds 0.
pub fn value_of(content: &[u8]) -> u64 {
    content.iter().fold(
        0u64,
        |value, byte| value.wrapping_mul(256).wrapping_add(u64::from(*byte)),
    )
}

/// A page that holds the number's last two bytes.
fn page_of(alloc: Global, value: u64) -> Result<Page, NoMemory> {
    Page::from_slice(alloc, &[(value / 256 % 256) as u8, (value % 256) as u8])
}

/// What is read and written at one store.
fn part_of(alloc: Global, store: u32, changes: &[Change]) -> Result<Part, NoMemory> {
    let mut reads = Vec::new(alloc);
    let mut writes = Vec::new(alloc);
    for change in changes {
        if change.slot.store == store {
            let number = change.slot.number;
            reads.push(PageRead {
                number,
                version: change.version,
            })?;
            writes.push(PageWrite {
                number,
                content: page_of(alloc, change.value)?,
            })?;
        }
    }
    Ok(Part {
        store,
        reads: ListOf::from_vec(reads),
        writes: ListOf::from_vec(writes),
    })
}

/// The parts of a transaction over stores below `stores` that makes these changes. In each store their numbers rise.
pub fn parts_of(alloc: Global, stores: u32, changes: &[Change]) -> Result<Vec<Part>, NoMemory> {
    let mut parts = Vec::new(alloc);
    for store in 0..stores {
        if changes.iter().any(|change| change.slot.store == store) {
            parts.push(part_of(alloc, store, changes)?)?;
        }
    }
    Ok(parts)
}
