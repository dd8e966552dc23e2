//! Edits of a tree.

ghost use Rattle.std.specs.Prelude.{◌≡◌, ◌<◌, ◌≤◌, true, false, length, Some, None, OnOk, IfOk, IfErr, MatchResult};
ghost use Rattle.pair_types.specs.PageMaps.{PageMap, Agrees, over};
ghost use Rattle.pair_types.specs.declared.quad.Quad.{Quad};
ghost use Rattle.pair_types.specs.declared.slot.Slot.{Slot};
ghost use Rattle.btree_page.specs.Content.{IsBelow};
ghost use Rattle.btree_page.specs.Tree.{quad_bound, least, IsRecord, IsFormed};
ghost use Rattle.btree_search.specs.Found.{HasCause};
ghost use Rattle.btree_edit.specs.Changes.{FitsChange, edit_of, given_of, open_of};
ghost use Rattle.btree_edit.specs.Edits.{bound_at, Nothing, Lacks, Removes, Ends, Replaces, Inserts};
ghost use Rattle.btree_edit.specs.Edited.{GoesOn, EditsIn, LacksIn, RootStays, RootGrows, StaysWhere, HadNoTree, HasPutCause};
ghost use Rattle.std.specs.Prelude.{List};
ghost use Rattle.btree_edit.specs.Roots.{Raises, FailsSo, NeverGrows, MissesIn, PutsIn};

use crate::below::{edit_below, inner_cell, put_two};
use crate::build::build;
use crate::change::Change;
use crate::outcome::Edited;
use btree_search::{load, view_of};
use pair_types::{Page, Pages, PairFault, Quad, Slot};
use std::alloc::Global;

/// Where the root of a tree lies.
const ROOT: Slot = Slot {
    store: 0,
    number: 0,
};

/// The highest level of a root.
const HEIGHT: u32 = 64;

/// Puts a record into the tree, in which none has its key and birth. New pages go to the store.
pub fn insert<G: Pages>(alloc: Global, pages: &mut G, q: &Quad, store: u32) -> Result<(), PairFault>
    requires record_fits { IsRecord q.now }
    requires store { store < (G.state pages.old).stores }
    // The list of records has it from now on, if none had its key and birth.
    ensures inserted { OnOk result (EditsIn (Inserts q.now) (Lacks (quad_bound q.now)) (Some store) (G.state pages.old)
        (G.state pages.new)) }
    ensures goes_on { GoesOn (G.state pages.old) (G.state pages.new) }
    ensures root { OnOk result (RootGrows (G.state pages.old) (G.state pages.new)) }
    // `Odd` where the pages were not those of a tree that lacks the record, `HeightFull` where the
    // root is full, and any other fault where a call over pages answered it.
    ensures fault { IfErr result (λ fault. HasPutCause (G.state pages.old) (G.state pages.new)
        (HadNoTree (Lacks (quad_bound q.now)) (G.state pages.old) (G.state pages.new)) fault) }
{
    match put(alloc, pages, &Change::Insert(q), store) {
        Ok(_) => Ok(()),
        Err(fault) => Err(fault),
    }
}

/// Puts a record in the place of the one at its key and birth, and answers whether one was there.
/// New pages go to the store.
pub fn replace<G: Pages>(
    alloc: Global,
    pages: &mut G,
    q: &Quad,
    store: u32,
) -> Result<bool, PairFault>
    requires record_fits { IsRecord q.now }
    requires store { store < (G.state pages.old).stores }
    // The list of records has it in the other's place from now on.
    ensures replaced { IfOk result (λ found. found ≡ true
        → EditsIn (Replaces q.now) Nothing (Some store) (G.state pages.old) (G.state pages.new)) }
    // No record is there, and nothing was written.
    ensures lacking { IfOk result (λ found. found ≡ false
        → LacksIn (quad_bound q.now) (G.state pages.old) (G.state pages.new)) }
    ensures goes_on { GoesOn (G.state pages.old) (G.state pages.new) }
    ensures root { IfOk result (λ _. RootGrows (G.state pages.old) (G.state pages.new)) }
    // The record that it replaced is the one to which the way of its key and birth leads, whatever the
    // pages are, and a value that is no longer lets the root page stay.
    ensures root_stays { IfOk result (λ found. StaysWhere q.now (G.state pages.old) (G.state pages.new) found) }
    // `Odd` where the pages were not those of a tree, `HeightFull` where the root is full, and any
    // other fault where a call over pages answered it.
    ensures fault { IfErr result (λ fault. HasPutCause (G.state pages.old) (G.state pages.new)
        (HadNoTree Nothing (G.state pages.old) (G.state pages.new)) fault) }
{
    put(alloc, pages, &Change::Replace(q), store)
}

/// Removes the record at a key and a birth from the tree, and answers whether it was there. The leaf
/// in which it lay may be left empty.
pub fn remove<G: Pages>(
    alloc: Global,
    pages: &mut G,
    key: &[u8],
    birth: u64,
) -> Result<bool, PairFault>
    // The list of records is without it from now on, and no page comes to the tree.
    ensures removed { IfOk result (λ found. found ≡ true
        → EditsIn (Removes (bound_at key.now birth)) Nothing None (G.state pages.old) (G.state pages.new)) }
    // No record is there, and nothing was written.
    ensures lacking { IfOk result (λ found. found ≡ false
        → LacksIn (bound_at key.now birth) (G.state pages.old) (G.state pages.new)) }
    ensures goes_on { GoesOn (G.state pages.old) (G.state pages.new) }
    // The root page keeps its level, and has no cell more.
    ensures root { IfOk result (λ _. RootStays (G.state pages.old) (G.state pages.new)) }
    // `Odd` where the pages were not those of a tree, and any other fault where a call over pages
    // answered it.
    ensures fault { IfErr result (λ fault.
        HasCause (G.state pages.old) (G.state pages.new) (HadNoTree Nothing (G.state pages.old) (G.state pages.new)) fault) }
{
    in_place(alloc, pages, &Change::Remove { key, birth })
}

/// Sets the death of the record at a key and a birth, and answers whether it was there. Nothing grows,
/// and no page comes to the tree.
pub fn end<G: Pages>(
    alloc: Global,
    pages: &mut G,
    key: &[u8],
    birth: u64,
    death: u64,
) -> Result<bool, PairFault>
    // The list of records has it with this death from now on.
    ensures ended { IfOk result (λ found. found ≡ true
        → EditsIn (Ends (bound_at key.now birth) death) Nothing None (G.state pages.old) (G.state pages.new)) }
    // No record is there, and nothing was written.
    ensures lacking { IfOk result (λ found. found ≡ false
        → LacksIn (bound_at key.now birth) (G.state pages.old) (G.state pages.new)) }
    ensures goes_on { GoesOn (G.state pages.old) (G.state pages.new) }
    // The root page keeps its level, and has no cell more.
    ensures root { IfOk result (λ _. RootStays (G.state pages.old) (G.state pages.new)) }
    // `Odd` where the pages were not those of a tree, and any other fault where a call over pages
    // answered it.
    ensures fault { IfErr result (λ fault.
        HasCause (G.state pages.old) (G.state pages.new) (HadNoTree Nothing (G.state pages.old) (G.state pages.new)) fault) }
{
    in_place(alloc, pages, &Change::End { key, birth, death })
}

/// Edits the tree from its root down by a change that lets nothing grow.
fn in_place<G: Pages>(alloc: Global, pages: &mut G, change: &Change<'_>) -> Result<bool, PairFault>
    requires fits { FitsChange change.now }
    requires never { NeverGrows change.now }
    ensures edited { IfOk result (λ found. found ≡ true
        → EditsIn (edit_of change.now) (given_of change.now) (open_of change.now 0) (G.state pages.old) (G.state pages.new)) }
    ensures lacking { IfOk result (λ found. found ≡ false
        → MissesIn change.now (G.state pages.old) (G.state pages.new)) }
    ensures goes_on { GoesOn (G.state pages.old) (G.state pages.new) }
    ensures root { IfOk result (λ _. RootStays (G.state pages.old) (G.state pages.new)) }
    ensures fault { IfErr result (λ fault. HasCause (G.state pages.old) (G.state pages.new)
        (HadNoTree (given_of change.now) (G.state pages.old) (G.state pages.new)) fault) }
{
    let page = match load(pages, ROOT) {
        Ok(page) => page,
        Err(fault) => return Err(fault),
    };
    let view = match view_of(&page, 0, HEIGHT) {
        Ok(view) => view,
        Err(fault) => return Err(fault),
    };
    match edit_below(alloc, pages, &view, change, ROOT.store) {
        Ok(Edited::Missing) => Ok(false),
        Ok(Edited::Below) => Ok(true),
        Ok(Edited::Page(page)) => match pages.write(ROOT, page) {
            Ok(()) => Ok(true),
            Err(fault) => Err(PairFault::Page(fault)),
        },
        // A page to which nothing comes is never divided.
        Ok(Edited::Two { .. }) => Err(PairFault::Odd),
        Err(fault) => Err(fault),
    }
}

/// Edits the tree from its root down, and lets it grow by a level where the root is divided.
fn put<G: Pages>(
    alloc: Global,
    pages: &mut G,
    change: &Change<'_>,
    store: u32,
) -> Result<bool, PairFault>
    requires fits { FitsChange change.now }
    requires store { store < (G.state pages.old).stores }
    ensures { PutsIn change.now store (G.state pages.old) (G.state pages.new) result }
{
    let page = match load(pages, ROOT) {
        Ok(page) => page,
        Err(fault) => return Err(fault),
    };
    let view = match view_of(&page, 0, HEIGHT) {
        Ok(view) => view,
        Err(fault) => return Err(fault),
    };
    match edit_below(alloc, pages, &view, change, store) {
        Ok(Edited::Missing) => Ok(false),
        Ok(Edited::Below) => Ok(true),
        Ok(Edited::Page(page)) => match pages.write(ROOT, page) {
            Ok(()) => Ok(true),
            Err(fault) => Err(PairFault::Page(fault)),
        },
        Ok(
            Edited::Two {
                left,
                key,
                birth,
                right,
            },
        ) => {
            let level = view.level();
            if level == HEIGHT {
                return Err(PairFault::HeightFull);
            }
            match raise(
                alloc,
                pages,
                level + 1,
                left,
                key.as_slice(),
                birth,
                right,
                store,
            ) {
                Ok(()) => Ok(true),
                Err(fault) => Err(fault),
            }
        }
        Err(fault) => Err(fault),
    }
}

/// Puts the parts of the root into fresh slots, and a page of this level that leads to them into the
/// root.
fn raise<G: Pages>(
    alloc: Global,
    pages: &mut G,
    level: u32,
    left: Page,
    key: &[u8],
    birth: u64,
    right: Page,
    store: u32,
) -> Result<(), PairFault>
    requires low { 0 < level }
    requires high { level ≤ 64 }
    requires key { length key.now ≤ 264 }
    requires above { IsBelow least (bound_at key.now birth) }
    requires store { store < (G.state pages.old).stores }
    ensures { MatchResult result
        (λ _. Raises (G.state pages.old) (G.state pages.new) level left (bound_at key.now birth) right store)
        (λ fault. FailsSo (G.state pages.old) (G.state pages.new) fault) }
{
    let first = match pages.fresh(store) {
        Ok(first) => first,
        Err(fault) => return Err(PairFault::Page(fault)),
    };
    let second = match put_two(pages, first, left, right, store) {
        Ok(second) => second,
        Err(fault) => return Err(PairFault::Page(fault)),
    };
    let cells = [
        inner_cell(b"", 0, first.store, first.number),
        inner_cell(key, birth, second.store, second.number),
    ];
    let page = match build(alloc, level, &cells) {
        Ok(page) => page,
        Err(fault) => return Err(PairFault::from(fault)),
    };
    match pages.write(ROOT, page) {
        Ok(()) => Ok(()),
        Err(fault) => Err(PairFault::Page(fault)),
    }
}
