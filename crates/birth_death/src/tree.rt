//! The tree.

ghost use Rattle.std.specs.Prelude.{◌≡◌, ◌<◌, ◌||◌, ℕ, List, None, OnOk, IfOk, IfErr, is_err};
ghost use Rattle.btree_page.specs.Tree.{root};
ghost use Rattle.btree_edit.specs.Edited.{GoesOn};
ghost use Rattle.pairs.specs.Versions.{with_purge};
ghost use Rattle.birth_death.specs.Changes.{GoesFirst};
ghost use Rattle.birth_death.specs.Roots.{KeepsRoot};
ghost use Rattle.birth_death.specs.Shows.{IsClean, MovesIn, GivesUpIn};

use crate::{blocks, edits, lookups, purges, walks};
use nfs3_types::NoMemory;
use pair_types::{Key, Pages, PairFault, Quad, Slot, Value};
use pairs::{At, Blocks, Pairs, Purged};
use std::alloc::Global;

/// A tree of versioned records and the blocks beside it, over a transaction over pages. After a fault of a change it is to
/// be given up: a later put answers want of memory.
#[derive(Drop)]
pub struct Tree<P: Pages> {
    alloc: Global,
    pages: P,
    store: u32,
    puts: u64,
    failed: bool,
    ghost within: { store < (P.state pages).stores },
}

/// Whether a change failed, before or now.
fn either(before: bool, now: bool) -> bool
    ensures { result ≡ (before || now) }
{
    before || now
}

impl<P: Pages + Drop> Tree<P> {
    /// A tree over these pages, whose new pages go to the store. It takes no memory.
    pub fn new(alloc: Global, pages: P, store: u32) -> Tree<P>
        requires { store < (P.state pages).stores }
        ensures pages { result.pages ≡ pages }
        ensures puts { result.puts ≡ 0 }
        ensures clean { (P.state pages).writes root ≡ None →
            IsClean (record { state = P.state result.pages; puts = result.puts; failed = result.failed }) }
    {
        Tree {
            alloc,
            pages,
            store,
            puts: 0,
            failed: false,
        }
    }

    /// Gives the pages back.
    pub fn part(self) -> P
        ensures { result ≡ self.pages }
    {
        self.pages
    }

    /// Takes a record away, the first of its key that is dead and that some numbers do not see, and gives it back.
    fn take(&mut self, q: Quad) -> Result<Quad, PairFault>
        ensures same { IfOk result (λ taken. taken ≡ q) }
        ensures puts { self.new.puts ≡ self.old.puts }
        ensures failed { self.new.failed ≡ (self.old.failed || is_err result) }
        ensures goes_on { GoesOn (P.state self.old.pages) (P.state self.new.pages) }
        ensures ok { OnOk result ((kept : List ℕ) →
            MovesIn (P.state self.old.pages) (P.state self.new.pages) (GoesFirst kept q) (with_purge kept q.key)) }
        ensures root { OnOk result (KeepsRoot 0 (P.state self.old.pages) (P.state self.new.pages)) }
        ensures fault { IfErr result (λ fault. (kept : List ℕ) →
            GivesUpIn (P.state self.old.pages) (P.state self.new.pages) (GoesFirst kept q) fault) }
    {
        match edits::take(self.alloc, &mut self.pages, &q) {
            Ok(()) => Ok(q),
            Err(fault) => {
                self.failed = true;
                Err(fault)
            }
        }
    }
}

impl<P: Pages + Drop> Pairs for Tree<P> {
    ghost use Rattle.pair_types.specs.PageMaps.{PageMap};
    ghost use Rattle.birth_death.specs.Shows.{told_by};

    ghost World = { PageMap };

    ghost told = { told_by (λ tree. record { state = P.state tree.pages; puts = tree.puts; failed = tree.failed }) };

    fn get_at(&mut self, key: &[u8], at: At) -> Result<Option<Value>, PairFault> {
        lookups::get_at(self.alloc, &mut self.pages, key, at)
    }

    fn born(&mut self, key: &[u8]) -> Result<Option<u64>, PairFault> {
        lookups::born(self.alloc, &mut self.pages, key)
    }

    fn next_at(&mut self, after: &[u8], at: At) -> Result<Option<(Key, Value)>, PairFault> {
        walks::next_at(self.alloc, &mut self.pages, after, at)
    }

    fn put(&mut self, key: &[u8], value: &[u8]) -> Result<(), PairFault> {
        let puts = self.puts;
        self.puts = puts.saturating_add(1);
        // Behind a change that failed nothing is known of the root.
        if self.failed {
            return Err(PairFault::from(NoMemory));
        }
        let put = edits::put(self.alloc, &mut self.pages, key, value, self.store);
        self.failed = put.is_err();
        put
    }

    fn del(&mut self, key: &[u8]) -> Result<bool, PairFault> {
        let was = edits::del(self.alloc, &mut self.pages, key);
        self.failed = either(self.failed, was.is_err());
        was
    }

    fn purge(&mut self, kept: &[u64], from: &[u8]) -> Result<Option<Quad>, PairFault> {
        let found = match purges::find_spent(self.alloc, &mut self.pages, kept, from) {
            Ok(found) => found,
            Err(fault) => return Err(fault),
        };
        match found {
            Some(q) => match self.take(q) {
                Ok(q) => Ok(Some(q)),
                Err(fault) => Err(fault),
            },
            None => Ok(None),
        }
    }

    fn purge_some(&mut self, kept: &[u64], from: &[u8], leaves: u32) -> Result<Purged, PairFault> {
        let found = match purges::find_some(self.alloc, &mut self.pages, kept, from, leaves) {
            Ok(found) => found,
            Err(fault) => return Err(fault),
        };
        match found {
            Purged::Took(q) => match self.take(q) {
                Ok(q) => Ok(Purged::Took(q)),
                Err(fault) => Err(fault),
            },
            Purged::Stopped(key) => Ok(Purged::Stopped(key)),
            Purged::Ended => Ok(Purged::Ended),
        }
    }
}

impl<P: Pages + Drop> Blocks for Tree<P> {
    fn stores(&self) -> u32 {
        self.pages.stores()
    }

    fn read_block(&mut self, s: Slot, room: &mut [u8]) -> Result<usize, PairFault> {
        blocks::read_block(&mut self.pages, s, room)
    }

    fn write_block(&mut self, s: Slot, part: &[u8]) -> Result<(), PairFault> {
        blocks::write_block(self.alloc, &mut self.pages, s, part)
    }

    fn fresh_block(&mut self, file: u64, index: u64) -> Result<Slot, PairFault> {
        blocks::fresh_block(&mut self.pages, file, index)
    }

    fn drop_block(&mut self, s: Slot) -> Result<(), PairFault> {
        blocks::drop_block(&mut self.pages, s)
    }
}
