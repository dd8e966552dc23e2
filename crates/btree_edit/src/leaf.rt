//! Edits of one leaf.

ghost use Rattle.std.specs.Prelude.{◌≡◌, ◌≤◌, length, MatchResult, IfOk};
ghost use Rattle.btree_page.specs.Content.{Fits, IsPage, leaf_entry};
ghost use Rattle.std.specs.Prelude.{true};
ghost use Rattle.btree_page.specs.Tree.{quad_bound, quad_cell, IsRecord};
ghost use Rattle.btree_page.specs.Cells.{entry_of};
ghost use Rattle.btree_edit.specs.Edits.{bound_at};
ghost use Rattle.btree_edit.specs.Changes.{ended, Answers, FitsChange, RemovesCell, EndsCell, ReplacesCell, InsertsCell};
ghost use Rattle.btree_edit.specs.Changes.{IsMissing, IsRefused, EditsLeaf};

use crate::build::{put_in, without};
use crate::change::Change;
use crate::outcome::Edited;
use btree_page::{Cell, PageView};
use btree_search::{find_in, find_past};
use nfs3_types::NoMemory;
use pair_types::{PairFault, Quad};
use std::alloc::Global;

/// A cell of these parts.
fn leaf_cell<'a>(key: &'a [u8], birth: u64, death: u64, value: &'a [u8]) -> Cell<'a>
    requires key { length key.now ≤ 264 }
    requires value { length value.now ≤ 1200 }
    ensures cell { entry_of result ≡ leaf_entry key.now birth death value.now }
    ensures fits { Fits true (leaf_entry key.now birth death value.now) }
{
    Cell::Leaf {
        key,
        birth,
        death,
        value,
    }
}

/// A record as a cell.
fn cell_of(q: &Quad) -> Cell<'_>
    requires { IsRecord q.now }
    ensures cell { entry_of result ≡ quad_cell q.now }
    ensures fits { Fits true (quad_cell q.now) }
{
    leaf_cell(q.key.as_slice(), q.birth, q.death, q.value.as_slice())
}

/// Removes the record at a key and a birth, if it stands there.
fn remove_from(
    alloc: Global,
    view: &PageView<'_>,
    key: &[u8],
    birth: u64,
) -> Result<Edited, NoMemory>
    requires leaf { view.now.level ≡ 0 }
    requires rules { IsPage view.now }
    ensures { IfOk result (λ edited. Answers (RemovesCell (bound_at key.now birth) view.now.cells)
        (IsMissing (bound_at key.now birth) view.now.cells) edited) }
{
    let at = find_in(view, key, birth);
    if at == find_past(view, key, birth) {
        return Ok(Edited::Missing);
    }
    let page = without(alloc, view, at)?;
    Ok(Edited::Page(page))
}

/// A cell of a leaf with another death.
fn with_death<'a>(cell: &Cell<'a>, death: u64) -> Cell<'a>
    ensures { entry_of result ≡ ended death (entry_of cell.now) }
{
    match *cell {
        Cell::Leaf {
            key,
            birth,
            value,
            ..
        } => Cell::Leaf {
            key,
            birth,
            death,
            value,
        },
        Cell::Inner { .. } => *cell,
    }
}

/// Sets the death of the record at a key and a birth, if it stands there.
fn end_in(
    alloc: Global,
    view: &PageView<'_>,
    key: &[u8],
    birth: u64,
    death: u64,
) -> Result<Edited, NoMemory>
    requires leaf { view.now.level ≡ 0 }
    requires rules { IsPage view.now }
    ensures { IfOk result (λ edited. Answers (EndsCell (bound_at key.now birth) death view.now.cells)
        (IsMissing (bound_at key.now birth) view.now.cells) edited) }
{
    let at = find_in(view, key, birth);
    if at == find_past(view, key, birth) {
        return Ok(Edited::Missing);
    }
    let cell = with_death(&view.cell(at).unwrap(), death);
    put_in(alloc, view, at, at + 1, &cell)
}

/// Puts a record in the place of the one at its key and birth, if one stands there.
fn replace_in<'a>(alloc: Global, view: &PageView<'a>, q: &'a Quad) -> Result<Edited, NoMemory>
    requires leaf { view.now.level ≡ 0 }
    requires rules { IsPage view.now }
    requires fits { IsRecord q.now }
    ensures { IfOk result (λ edited. Answers (ReplacesCell q.now view.now.cells)
        (IsMissing (quad_bound q.now) view.now.cells) edited) }
{
    let at = find_in(view, q.key.as_slice(), q.birth);
    if at == find_past(view, q.key.as_slice(), q.birth) {
        return Ok(Edited::Missing);
    }
    put_in(alloc, view, at, at + 1, &cell_of(q))
}

/// Puts a record in, or answers `Odd` where one stands at its key and birth.
fn insert_into<'a>(alloc: Global, view: &PageView<'a>, q: &'a Quad) -> Result<Edited, PairFault>
    requires leaf { view.now.level ≡ 0 }
    requires rules { IsPage view.now }
    requires fits { IsRecord q.now }
    ensures { MatchResult result
        (λ edited. Answers (InsertsCell q.now view.now.cells) ⊥ edited)
        (λ fault. IsRefused (quad_bound q.now) view.now.cells fault) }
{
    let at = find_in(view, q.key.as_slice(), q.birth);
    if at != find_past(view, q.key.as_slice(), q.birth) {
        return Err(PairFault::Odd);
    }
    match put_in(alloc, view, at, at, &cell_of(q)) {
        Ok(edited) => Ok(edited),
        Err(fault) => Err(PairFault::from(fault)),
    }
}

/// Edits a leaf.
pub(crate) fn edit_leaf<'a>(
    alloc: Global,
    view: &PageView<'a>,
    change: &Change<'a>,
) -> Result<Edited, PairFault>
    requires leaf { view.now.level ≡ 0 }
    requires rules { IsPage view.now }
    requires fits { FitsChange change.now }
    ensures { EditsLeaf change.now view.now.cells result }
{
    match change {
        Change::Remove { key, birth } => match remove_from(alloc, view, key, *birth) {
            Ok(edited) => Ok(edited),
            Err(fault) => Err(PairFault::from(fault)),
        },
        Change::End { key, birth, death } => match end_in(alloc, view, key, *birth, *death) {
            Ok(edited) => Ok(edited),
            Err(fault) => Err(PairFault::from(fault)),
        },
        Change::Replace(q) => match replace_in(alloc, view, q) {
            Ok(edited) => Ok(edited),
            Err(fault) => Err(PairFault::from(fault)),
        },
        Change::Insert(q) => insert_into(alloc, view, q),
    }
}
