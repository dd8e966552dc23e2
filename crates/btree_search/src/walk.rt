//! The walk down a tree.

ghost use Rattle.std.specs.Prelude.{◌≡◌, ◌≤◌, length, IfSome, IfOk, IfErr};
ghost use Rattle.btree_page.specs.Tree.{quad_cell, IsRecord};
ghost use Rattle.btree_page.specs.Content.{IsPage, leaf_entry};
ghost use Rattle.btree_search.specs.Found.{IsFound, IsFloor};
ghost use Rattle.btree_search.specs.Way.{FindsFrom};
ghost use Rattle.btree_search.specs.Walk.{IsFirst, IsFinal, IsLeafFault, Walks};

use crate::aim::Aim;
use crate::find::first_sought;
use crate::steps::{load_child, view_of};
use btree_page::{Cell, PageView};
use nfs3_types::NoMemory;
use pair_types::{Key, Pages, PairFault, Quad, Value};
use std::alloc::Global;

/// A record with copies of these parts of a page.
fn copy_of(
    alloc: Global,
    key: &[u8],
    birth: u64,
    death: u64,
    value: &[u8],
) -> Result<Quad, NoMemory>
    requires key { length key.now ≤ 264 }
    requires value { length value.now ≤ 1200 }
    ensures cell { IfOk result (λ q. quad_cell q ≡ leaf_entry key.now birth death value.now) }
    ensures record_fits { IfOk result (λ q. IsRecord q) }
{
    let key = Key::from_slice(alloc, key)?;
    let value = Value::from_slice(alloc, value)?;
    Ok(Quad {
        key,
        birth,
        death,
        value,
    })
}

/// The first sought record of a leaf.
fn first_in(
    alloc: Global,
    view: &PageView<'_>,
    aim: Aim,
    key: &[u8],
    birth: u64,
) -> Result<Option<Quad>, PairFault>
    ensures rules { IsPage view.now }
    ensures first { IfOk result (λ found. IsFirst aim (record { key = key.now; birth = birth }) view.now.cells found) }
    ensures record_fits { IfOk result (λ found. IfSome found (λ q. IsRecord q)) }
    ensures fault { IfErr result (λ fault. IsLeafFault view.now.cells fault) }
{
    match view.cell(first_sought(view, aim, key, birth)) {
        Some(
            Cell::Leaf {
                key,
                birth,
                death,
                value,
            },
        ) => Ok(Some(copy_of(alloc, key, birth, death, value)?)),
        Some(Cell::Inner { .. }) => Err(PairFault::Odd),
        None => Ok(None),
    }
}

/// The last record of a leaf at or below a key and a birth.
fn last_in(
    alloc: Global,
    view: &PageView<'_>,
    key: &[u8],
    birth: u64,
) -> Result<Option<Quad>, PairFault>
    ensures last { IfOk result (λ found. IsFinal (record { key = key.now; birth = birth }) view.now.cells found) }
    ensures record_fits { IfOk result (λ found. IfSome found (λ q. IsRecord q)) }
    ensures fault { IfErr result (λ fault. IsLeafFault view.now.cells fault) }
{
    let past = first_sought(view, Aim::After, key, birth);
    if past == 0 {
        return Ok(None);
    }
    match view.cell(past - 1) {
        Some(
            Cell::Leaf {
                key,
                birth,
                death,
                value,
            },
        ) => Ok(Some(copy_of(alloc, key, birth, death, value)?)),
        Some(Cell::Inner { .. }) => Err(PairFault::Odd),
        None => Err(PairFault::Odd),
    }
}

/// The least sought record below a page: where the child into which the key and the birth fall has
/// none, the first of the children behind it that has one.
pub(crate) fn walk<G: Pages>(
    alloc: Global,
    pages: &mut G,
    view: &PageView<'_>,
    aim: Aim,
    key: &[u8],
    birth: u64,
) -> Result<Option<Quad>, PairFault>
    ensures walks { Walks (IsFound aim (record { key = key.now; birth = birth })) (G.state pages.old) (G.state pages.new) view.now
        result }
    ensures met { IfOk result (λ found.
        FindsFrom aim (record { key = key.now; birth = birth }) (G.state pages.new) view.now found) }
    ensures record_fits { IfOk result (λ found. IfSome found (λ q. IsRecord q)) }
{
    let level = view.level();
    if level == 0 {
        return first_in(alloc, view, aim, key, birth);
    }
    let past = first_sought(view, Aim::After, key, birth);
    for i in past.saturating_sub(1)..view.count() {
        let page = match load_child(pages, view, i) {
            Ok(page) => page,
            Err(fault) => return Err(fault),
        };
        let below = match view_of(&page, level - 1, level - 1) {
            Ok(below) => below,
            Err(fault) => return Err(fault),
        };
        match walk(alloc, pages, &below, aim, key, birth) {
            Ok(found) => {
                if found.is_some() {
                    return Ok(found);
                }
            }
            Err(fault) => return Err(fault),
        }
    }
    Ok(None)
}

/// The greatest record at or below a key and a birth below a page: where the child into which they
/// fall has none, the last of the children before it that has one.
pub(crate) fn walk_back<G: Pages>(
    alloc: Global,
    pages: &mut G,
    view: &PageView<'_>,
    key: &[u8],
    birth: u64,
) -> Result<Option<Quad>, PairFault>
    ensures walks { Walks (IsFloor (record { key = key.now; birth = birth })) (G.state pages.old) (G.state pages.new) view.now
        result }
    ensures record_fits { IfOk result (λ found. IfSome found (λ q. IsRecord q)) }
{
    let level = view.level();
    if level == 0 {
        return last_in(alloc, view, key, birth);
    }
    // Of an inner page the first cell lies at or below every place.
    let past = first_sought(view, Aim::After, key, birth).max(1);
    for back in 0..past {
        let i = past - 1 - back;
        let page = match load_child(pages, view, i) {
            Ok(page) => page,
            Err(fault) => return Err(fault),
        };
        let below = match view_of(&page, level - 1, level - 1) {
            Ok(below) => below,
            Err(fault) => return Err(fault),
        };
        match walk_back(alloc, pages, &below, key, birth) {
            Ok(found) => {
                if found.is_some() {
                    return Ok(found);
                }
            }
            Err(fault) => return Err(fault),
        }
    }
    Ok(None)
}
