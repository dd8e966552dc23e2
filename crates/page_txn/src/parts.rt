//! What a transaction hands down, store by store.

ghost use Rattle.std.specs.Prelude.{◌≡◌, ◌++◌, ◌≤◌, [], ◌∷◌, OnOk, IfOk};
ghost use Rattle.page_txn.specs.Parts.{reads_in, with_write, writes_in, part_in, where_read, parts_below, or_nothing};

use crate::row::Row;
use nfs3_types::{ListOf, NoMemory};
use page_types::{PageRead, PageWrite};
use pair_types::Page;
use std::alloc::Global;
use std::collections::BTreeMap;
use two_phase::Part;

fn add_read(
    reads: &mut Vec<PageRead>,
    store: u32,
    place: (u32, u64),
    row: &Row,
) -> Result<(), NoMemory>
    ensures { OnOk result (reads.new.items ≡ reads.old.items ++ reads_in store ((place, row.now) ∷ [])) }
{
    if place.0 != store {
        return Ok(());
    }
    reads.push(PageRead {
        number: place.1,
        version: row.version,
    })?;
    Ok(())
}

fn add_write(
    writes: &mut Vec<PageWrite>,
    store: u32,
    place: (u32, u64),
    row: &Row,
) -> Result<(), NoMemory>
    ensures { OnOk result (writes.new.items ≡ writes.old.items ++ writes_in store ((place, row.now) ∷ [])) }
{
    if place.0 != store {
        return Ok(());
    }
    let Some(page) = &row.written else {
        return Ok(());
    };
    let content = page.copy()?;
    writes.push(PageWrite {
        number: place.1,
        content,
    })?;
    Ok(())
}

fn reads_of(
    alloc: Global,
    rows: &BTreeMap<(u32, u64), Row>,
    store: u32,
) -> Result<Vec<PageRead>, NoMemory>
    ensures { IfOk result (λ reads. reads.items ≡ reads_in store rows.now.entries) }
{
    let mut reads = Vec::new(alloc);
    for (place, row) in rows {
        add_read(&mut reads, store, *place, row)?;
    }
    Ok(reads)
}

fn writes_of(
    alloc: Global,
    rows: &BTreeMap<(u32, u64), Row>,
    store: u32,
) -> Result<Vec<PageWrite>, NoMemory>
    ensures { IfOk result (λ writes. writes.items ≡ writes_in store rows.now.entries) }
{
    let mut writes = Vec::new(alloc);
    for (place, row) in rows {
        add_write(&mut writes, store, *place, row)?;
    }
    Ok(writes)
}

// Adds the part of a store, where something was read there.
fn add_part(
    alloc: Global,
    parts: &mut Vec<Part>,
    rows: &BTreeMap<(u32, u64), Row>,
    store: u32,
) -> Result<(), NoMemory>
    ensures { OnOk result (parts.new.items ≡
        parts.old.items ++ where_read (part_in rows.now.entries store) (reads_in store rows.now.entries)) }
{
    let reads = reads_of(alloc, rows, store)?;
    if reads.is_empty() {
        return Ok(());
    }
    let writes = writes_of(alloc, rows, store)?;
    parts.push(Part {
        store,
        reads: ListOf::from_vec(reads),
        writes: ListOf::from_vec(writes),
    })?;
    Ok(())
}

/// The parts of a transaction with these rows, among so many stores.
pub(crate) fn parts_of(
    alloc: Global,
    rows: &BTreeMap<(u32, u64), Row>,
    stores: u32,
) -> Result<Vec<Part>, NoMemory>
    ensures { IfOk result (λ parts. parts.items ≡ or_nothing (parts_below rows.now.entries stores)) }
{
    let mut parts = Vec::new(alloc);
    for store in 0..stores {
        add_part(alloc, &mut parts, rows, store)?;
    }
    if parts.is_empty() {
        parts.push(Part {
            store: 0,
            reads: ListOf::new(alloc),
            writes: ListOf::new(alloc),
        })?;
    }
    Ok(parts)
}
