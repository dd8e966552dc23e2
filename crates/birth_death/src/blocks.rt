//! Blocks: pages beside the tree.

ghost use Rattle.std.specs.Prelude.{◌≡◌, ◌<◌, ◌≤◌, ⊤, ℕ, List, [], length, Some, None, OnOk, IfOk, IfErr};
ghost use Rattle.pair_types.specs.PageState.{Writes};
ghost use Rattle.pair_types.specs.declared.slot.Slot.{Slot};
ghost use Rattle.btree_search.specs.Found.{OnlyReads};
ghost use Rattle.btree_edit.specs.Edited.{GoesOn};
ghost use Rattle.pair_types.specs.PageMaps.{PageMap, Agrees};
ghost use Rattle.pairs.specs.Versions.{Versions, IsBlock, with_block};
ghost use Rattle.pairs.specs.Found.{Fills, IsFresh};
ghost use Rattle.birth_death.specs.Roots.{KeepsRoot};
ghost use Rattle.birth_death.specs.Shows.{Shows, FindsIn, MovesIn, GivesUpIn};

use btree_search::load;
use pair_types::{Page, Pages, PairFault, Slot};
use pairs::store_for;
use std::alloc::Global;

/// Where the root of a tree lies, which is no block.
const ROOT: Slot = Slot {
    store: 0,
    number: 0,
};

/// Puts the first bytes of a block into the room, as many as it has room for, and answers how many they are.
pub(crate) fn read_block<G: Pages>(
    pages: &mut G,
    s: Slot,
    room: &mut [u8],
) -> Result<usize, PairFault>
    ensures only_reads { OnlyReads (G.state pages.old) (G.state pages.new) }
    ensures within { IfOk result (λ n. n ≤ length room.new) }
    ensures ok { IfOk result (λ n. FindsIn (G.state pages.old) (G.state pages.new)
        (λ v. (block : List ℕ) → v.blocks s ≡ Some block → Fills block room.old room.new n)) }
    ensures fault { IfErr result (GivesUpIn (G.state pages.old) (G.state pages.new) (λ _. ⊤)) }
{
    match load(pages, s) {
        Ok(page) => Ok(fill(page.as_slice(), room)),
        Err(fault) => Err(fault),
    }
}

/// Copies the first bytes, as many as there is room for.
fn fill(bytes: &[u8], room: &mut [u8]) -> usize
    ensures { Fills bytes.now room.old room.new result }
{
    let n = room.len().min(bytes.len());
    room[..n].copy_from_slice(&bytes[..n]);
    n
}

/// Writes a page into a slot that a block may have: one of the stores, and not the root's.
fn write_page<G: Pages>(pages: &mut G, s: Slot, page: Page) -> Result<(), PairFault>
    ensures goes_on { GoesOn (G.state pages.old) (G.state pages.new) }
    ensures ok { OnOk result (Writes (G.state pages.old) (G.state pages.new) s page) }
    ensures root { KeepsRoot 0 (G.state pages.old) (G.state pages.new) }
    ensures fault { IfErr result (GivesUpIn (G.state pages.old) (G.state pages.new) (IsBlock s)) }
{
    if s == ROOT || s.store >= pages.stores() {
        return Err(PairFault::Odd);
    }
    match pages.write(s, page) {
        Ok(()) => Ok(()),
        Err(fault) => Err(PairFault::Page(fault)),
    }
}

/// Writes a block into a slot that has one.
pub(crate) fn write_block<G: Pages>(
    alloc: Global,
    pages: &mut G,
    s: Slot,
    part: &[u8],
) -> Result<(), PairFault>
    ensures goes_on { GoesOn (G.state pages.old) (G.state pages.new) }
    ensures ok { OnOk result (MovesIn (G.state pages.old) (G.state pages.new) (IsBlock s) (with_block s (Some part.now))) }
    ensures root { KeepsRoot 0 (G.state pages.old) (G.state pages.new) }
    ensures fault { IfErr result (GivesUpIn (G.state pages.old) (G.state pages.new) (IsBlock s)) }
{
    match Page::from_slice(alloc, part) {
        Ok(page) => write_page(pages, s, page),
        Err(fault) => Err(PairFault::from(fault)),
    }
}

/// An empty block in a slot that had none, in the store where a file's block of this index belongs.
pub(crate) fn fresh_block<G: Pages>(pages: &mut G, file: u64, index: u64) -> Result<Slot, PairFault>
    requires { 0 < (G.state pages.old).stores }
    ensures goes_on { GoesOn (G.state pages.old) (G.state pages.new) }
    ensures ok { IfOk result (λ s. MovesIn (G.state pages.old) (G.state pages.new) (λ _. ⊤) (with_block s (Some []))) }
    ensures fresh { IfOk result (λ s. (under : PageMap) (v : Versions) →
        Agrees (G.state pages.new).reads under → Shows (G.state pages.old) under v → IsFresh file index s v) }
    ensures root { KeepsRoot 0 (G.state pages.old) (G.state pages.new) }
    ensures fault { IfErr result (GivesUpIn (G.state pages.old) (G.state pages.new) (λ _. ⊤)) }
{
    let store = store_for(file, index, pages.stores());
    let s = match pages.fresh(store) {
        Ok(s) => s,
        Err(fault) => return Err(PairFault::Page(fault)),
    };
    // Where the root is absent, there is no tree.
    if s == ROOT {
        return Err(PairFault::Odd);
    }
    match pages.write(s, Page::empty()) {
        Ok(()) => Ok(s),
        Err(fault) => Err(PairFault::Page(fault)),
    }
}

/// Lets a block go: its slot has none, and an empty page.
pub(crate) fn drop_block<G: Pages>(pages: &mut G, s: Slot) -> Result<(), PairFault>
    ensures goes_on { GoesOn (G.state pages.old) (G.state pages.new) }
    ensures ok { OnOk result (MovesIn (G.state pages.old) (G.state pages.new) (IsBlock s) (with_block s None)) }
    ensures root { KeepsRoot 0 (G.state pages.old) (G.state pages.new) }
    ensures fault { IfErr result (GivesUpIn (G.state pages.old) (G.state pages.new) (IsBlock s)) }
{
    write_page(pages, s, Page::empty())
}
