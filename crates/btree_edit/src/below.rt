//! The way down to the leaf of an edit, and up again.

ghost use Rattle.std.specs.Prelude.{◌≡◌, ◌<◌, ◌≤◌, false, length, MatchResult};
ghost use Rattle.btree_page.specs.Content.{Fits, IsPage, inner_entry};
ghost use Rattle.btree_page.specs.Cells.{entry_of};
ghost use Rattle.btree_edit.specs.Below.{EditsBelow, PutsTwo, GaveUp, Grafts, IsNoGraft};
ghost use Rattle.btree_edit.specs.Changes.{FitsChange};
ghost use Rattle.btree_edit.specs.Edits.{bound_at};

use crate::build::put_in;
use crate::change::Change;
use crate::leaf::edit_leaf;
use crate::outcome::Edited;
use btree_page::{Cell, PageView};
use btree_search::{child_at, find_in, find_past, load, view_of};
use pair_types::{Page, PageFault, Pages, PairFault, Slot};
use std::alloc::Global;

/// Writes the parts of a page: the left one into its slot, the right one into a fresh one.
pub(crate) fn put_two<G: Pages>(
    pages: &mut G,
    slot: Slot,
    left: Page,
    right: Page,
    store: u32,
) -> Result<Slot, PageFault>
    requires slot { slot.store < (G.state pages.old).stores }
    requires store { store < (G.state pages.old).stores }
    ensures { MatchResult result
        (λ fresh. PutsTwo (G.state pages.old) (G.state pages.new) slot left store fresh right)
        (λ fault. GaveUp (G.state pages.old) (G.state pages.new) fault) }
{
    let fresh = match pages.fresh(store) {
        Ok(fresh) => fresh,
        Err(fault) => return Err(fault),
    };
    match pages.write(fresh, right) {
        Ok(()) => {}
        Err(fault) => return Err(fault),
    }
    match pages.write(slot, left) {
        Ok(()) => Ok(fresh),
        Err(fault) => Err(fault),
    }
}

/// A cell that leads to a child.
pub(crate) fn inner_cell(key: &[u8], birth: u64, store: u32, number: u64) -> Cell<'_>
    requires { length key.now ≤ 264 }
    ensures cell { entry_of result ≡ inner_entry key.now birth (record { store = store; number = number }) }
    ensures fits { Fits false (inner_entry key.now birth (record { store = store; number = number })) }
{
    Cell::Inner {
        key,
        birth,
        child: Slot { store, number },
    }
}

/// Adds a child at an index of an inner page, or answers `Odd` where its bound does not fall there.
fn graft<'a>(
    alloc: Global,
    view: &PageView<'a>,
    at: usize,
    key: &'a [u8],
    birth: u64,
    child: Slot,
) -> Result<Edited, PairFault>
    requires rules { IsPage view.now }
    requires inner { 0 < view.now.level }
    requires behind { 0 < at }
    requires key { length key.now ≤ 264 }
    ensures { MatchResult result
        (λ edited. Grafts view.now at (bound_at key.now birth) child edited)
        (λ fault. IsNoGraft view.now at (bound_at key.now birth) fault) }
{
    let here = find_in(view, key, birth);
    let past = find_past(view, key, birth);
    if here != at || past != at {
        return Err(PairFault::Odd);
    }
    let cell = inner_cell(key, birth, child.store, child.number);
    match put_in(alloc, view, at, at, &cell) {
        Ok(edited) => Ok(edited),
        Err(fault) => Err(PairFault::from(fault)),
    }
}

/// Edits what lies below a page, and answers what becomes of the page itself. New pages go to the
/// store.
pub(crate) fn edit_below<G: Pages>(
    alloc: Global,
    pages: &mut G,
    view: &PageView<'_>,
    change: &Change<'_>,
    store: u32,
) -> Result<Edited, PairFault>
    requires fits { FitsChange change.now }
    requires store { store < (G.state pages.old).stores }
    ensures { EditsBelow change.now store (G.state pages.old) (G.state pages.new) view.now result }
{
    let level = view.level();
    if level == 0 {
        return edit_leaf(alloc, &*view, &*change);
    }
    let i = find_past(view, change.key(), change.birth()).saturating_sub(1);
    let slot = match child_at(view, i) {
        Ok(slot) => slot,
        Err(fault) => return Err(fault),
    };
    let page = match load(pages, slot) {
        Ok(page) => page,
        Err(fault) => return Err(fault),
    };
    let below = match view_of(&page, level - 1, level - 1) {
        Ok(below) => below,
        Err(fault) => return Err(fault),
    };
    match edit_below(alloc, pages, &below, &*change, store) {
        Ok(Edited::Missing) => Ok(Edited::Missing),
        Ok(Edited::Below) => Ok(Edited::Below),
        Ok(Edited::Page(page)) => match pages.write(slot, page) {
            Ok(()) => Ok(Edited::Below),
            Err(fault) => Err(PairFault::Page(fault)),
        },
        Ok(
            Edited::Two {
                left,
                key,
                birth,
                right,
            },
        ) => match put_two(pages, slot, left, right, store) {
            Ok(fresh) => graft(alloc, &*view, i + 1, key.as_slice(), birth, fresh),
            Err(fault) => Err(PairFault::Page(fault)),
        },
        Err(fault) => Err(fault),
    }
}
