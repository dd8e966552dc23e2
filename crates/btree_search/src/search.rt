//! Search in a tree.

ghost use Rattle.std.specs.Prelude.{◌≡◌, IfSome, IfOk, IfErr};
ghost use Rattle.btree_search.specs.declared.aim.Aim.TheVariants.{AtOrAfter, After};
ghost use Rattle.btree_search.specs.Found.{IsFound, IsFloor, IsFoundIn, HasNoTree, OnlyReads, HasCause};
ghost use Rattle.btree_search.specs.Way.{FindsMet};
ghost use Rattle.btree_page.specs.Tree.{IsRecord};

use crate::aim::Aim;
use crate::steps::{load, view_of};
use crate::walk::{walk, walk_back};
use pair_types::{Pages, PairFault, Quad, Slot};
use std::alloc::Global;

/// Where the root of a tree lies.
const ROOT: Slot = Slot {
    store: 0,
    number: 0,
};

/// The highest level of a root.
const HEIGHT: u32 = 64;

/// The least record of the tree at or after a key and a birth. It writes nothing.
pub fn seek<G: Pages>(
    alloc: Global,
    pages: &mut G,
    key: &[u8],
    birth: u64,
) -> Result<Option<Quad>, PairFault>
    // `None` where no record is at or after them.
    ensures found { IfOk result (λ found.
        IsFoundIn (IsFound AtOrAfter (record { key = key.now; birth = birth })) (G.state pages.new) found) }
    // The record to which the way of the key and the birth leads is found, whatever the pages are.
    ensures met { IfOk result (λ found. FindsMet (record { key = key.now; birth = birth }) (G.state pages.new) found) }
    // What is given is a record, whatever the pages are.
    ensures record_fits { IfOk result (λ found. IfSome found (λ q. IsRecord q)) }
    ensures only_reads { OnlyReads (G.state pages.old) (G.state pages.new) }
    // `Odd` where the pages are not those of a tree, and any other fault where a read answered it.
    ensures fault { IfErr result (λ fault.
        HasCause (G.state pages.old) (G.state pages.new) (HasNoTree (G.state pages.new)) fault) }
{
    search(alloc, pages, Aim::AtOrAfter, key, birth)
}

/// The least record of the tree after a key and a birth. It writes nothing.
pub fn next<G: Pages>(
    alloc: Global,
    pages: &mut G,
    key: &[u8],
    birth: u64,
) -> Result<Option<Quad>, PairFault>
    // `None` where no record is after them.
    ensures found { IfOk result (λ found.
        IsFoundIn (IsFound After (record { key = key.now; birth = birth })) (G.state pages.new) found) }
    // What is given is a record, whatever the pages are.
    ensures record_fits { IfOk result (λ found. IfSome found (λ q. IsRecord q)) }
    ensures only_reads { OnlyReads (G.state pages.old) (G.state pages.new) }
    // `Odd` where the pages are not those of a tree, and any other fault where a read answered it.
    ensures fault { IfErr result (λ fault.
        HasCause (G.state pages.old) (G.state pages.new) (HasNoTree (G.state pages.new)) fault) }
{
    search(alloc, pages, Aim::After, key, birth)
}

/// The greatest record of the tree at or below a key and a birth. It writes nothing.
pub fn seek_back<G: Pages>(
    alloc: Global,
    pages: &mut G,
    key: &[u8],
    birth: u64,
) -> Result<Option<Quad>, PairFault>
    // `None` where every record is above them.
    ensures found { IfOk result (λ found.
        IsFoundIn (IsFloor (record { key = key.now; birth = birth })) (G.state pages.new) found) }
    // What is given is a record, whatever the pages are.
    ensures record_fits { IfOk result (λ found. IfSome found (λ q. IsRecord q)) }
    ensures only_reads { OnlyReads (G.state pages.old) (G.state pages.new) }
    // `Odd` where the pages are not those of a tree, and any other fault where a read answered it.
    ensures fault { IfErr result (λ fault.
        HasCause (G.state pages.old) (G.state pages.new) (HasNoTree (G.state pages.new)) fault) }
{
    let page = match load(pages, ROOT) {
        Ok(page) => page,
        Err(fault) => return Err(fault),
    };
    let view = match view_of(&page, 0, HEIGHT) {
        Ok(view) => view,
        Err(fault) => return Err(fault),
    };
    walk_back(alloc, pages, &view, key, birth)
}

/// The least sought record of the tree.
fn search<G: Pages>(
    alloc: Global,
    pages: &mut G,
    aim: Aim,
    key: &[u8],
    birth: u64,
) -> Result<Option<Quad>, PairFault>
    ensures found { IfOk result (λ found.
        IsFoundIn (IsFound aim (record { key = key.now; birth = birth })) (G.state pages.new) found) }
    ensures met { aim ≡ AtOrAfter → IfOk result (λ found.
        FindsMet (record { key = key.now; birth = birth }) (G.state pages.new) found) }
    ensures record_fits { IfOk result (λ found. IfSome found (λ q. IsRecord q)) }
    ensures only_reads { OnlyReads (G.state pages.old) (G.state pages.new) }
    ensures fault { IfErr result (λ fault.
        HasCause (G.state pages.old) (G.state pages.new) (HasNoTree (G.state pages.new)) fault) }
{
    let page = match load(pages, ROOT) {
        Ok(page) => page,
        Err(fault) => return Err(fault),
    };
    let view = match view_of(&page, 0, HEIGHT) {
        Ok(view) => view,
        Err(fault) => return Err(fault),
    };
    walk(alloc, pages, &view, aim, key, birth)
}
