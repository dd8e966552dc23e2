//! Pages in memory.

ghost use Rattle.std.specs.Bool.{OnTrue};
ghost use Rattle.std.specs.Prelude.{◌≡◌, ◌+◌, ◌^◌, ◌<◌, ◌≤◌, [], IfSome, OnOk, OnErr, IfErr};

use crate::fault::{PageFault, StepFault};
use crate::page::Page;
use crate::pages::Pages;
use crate::slot::Slot;
use std::alloc::Global;
use std::collections::{BTreeMap, BTreeSet};

/// A transaction over pages that lie in memory. It answers no fault but want of memory.
#[derive(Drop)]
pub struct MemPages {
    stores: u32,
    /// Where the search for a free number begins.
    free: u64,
    empty: Page,
    held: BTreeMap<(u32, u64), Page>,
    read: BTreeSet<(u32, u64)>,
    written: BTreeMap<(u32, u64), Page>,
    ghost is_empty: { empty ≡ [] },
}

impl MemPages {
    ghost use Rattle.pair_types.specs.PageMaps.{Learns, page_of, laid};
    ghost use Rattle.pair_types.specs.PageState.{no_memory};
    ghost use Rattle.pair_types.specs.MemPages.{IsNew, Sets, IsMarked, IsFreeIn, state_of, held_of, writes_of};

    /// No pages, in this many stores. It takes no memory.
    pub fn new(alloc: Global, stores: u32) -> MemPages
        requires { 1 ≤ stores }
        ensures stores { (state_of result).stores ≡ stores }
        ensures empty { IsNew result }
    {
        MemPages {
            stores,
            free: 0,
            empty: Page::empty(),
            held: BTreeMap::new(alloc),
            read: BTreeSet::new(alloc),
            written: BTreeMap::new(alloc),
        }
    }

    /// Lets a page lie in a slot as if it had from the start: the slot is then unread and unwritten.
    pub fn set(&mut self, s: Slot, p: Page) -> Result<(), PageFault>
        requires { s.store < (state_of self.old).stores }
        ensures ok { OnOk result (Sets self.old self.new s p) }
        ensures err { OnErr result (state_of self.new ≡ state_of self.old) }
        ensures fault { IfErr result (λ fault. fault ≡ no_memory) }
    {
        let place = (s.store, s.number);
        let Ok(_) = self.held.insert(place, p) else {
            return Err(PageFault::Step(StepFault::NoMemory));
        };
        self.read.remove(&place);
        self.written.remove(&place);
        Ok(())
    }

    /// Marks a slot as read, unless it lies beyond the stores.
    fn mark(&mut self, s: Slot) -> Result<(), PageFault>
        ensures ok { OnOk result (s.store < self.old.stores → IsMarked self.old self.new s) }
        ensures beyond { self.old.stores ≤ s.store → state_of self.new ≡ state_of self.old }
        ensures err { OnErr result (state_of self.new ≡ state_of self.old) }
        ensures fault { IfErr result (λ fault. fault ≡ no_memory) }
        ensures within { OnErr result (s.store < self.old.stores) }
    {
        if s.store >= self.stores {
            return Ok(());
        }
        let Ok(_) = self.read.insert((s.store, s.number)) else {
            return Err(PageFault::Step(StepFault::NoMemory));
        };
        Ok(())
    }

    /// The page in a slot.
    fn page(&self, s: Slot) -> &Page
        ensures within { s.store < self.now.stores
            → result.now ≡ page_of (laid (writes_of self.now s) (held_of self.now s)) }
        ensures beyond { self.now.stores ≤ s.store → result.now ≡ [] }
    {
        if s.store >= self.stores {
            return &self.empty;
        }
        let place = (s.store, s.number);
        if let Some(page) = self.written.get(&place) {
            return page;
        }
        match self.held.get(&place) {
            Some(page) => page,
            None => &self.empty,
        }
    }

    /// Whether nothing lies in a slot, and it was neither read nor written.
    fn is_free(&self, s: Slot) -> bool
        ensures { OnTrue result (IsFreeIn self.now s.store s) }
    {
        let place = (s.store, s.number);
        !self.held.contains_key(&place)
            && !self.written.contains_key(&place)
            && !self.read.contains(&place)
    }

    /// The first free slot of a store, from where the search begins.
    fn first_free(&self, store: u32) -> Option<Slot>
        ensures found { IfSome result (IsFreeIn self.now store) }
        ensures more { IfSome result (λ s. s.number + 1 < 2 ^ 64) }
    {
        for number in self.free..u64::MAX {
            let s = Slot { store, number };
            if self.is_free(s) {
                return Some(s);
            }
        }
        None
    }
}

impl Pages for MemPages {
    ghost use Rattle.pair_types.specs.MemPages.{state_of};
    ghost use Rattle.pair_types.specs.MemPagesSound.{state_of-sound};

    ghost state = { state_of };

    ghost sound = { state_of-sound };

    fn stores(&self) -> u32 {
        self.stores
    }

    fn read(&mut self, s: Slot) -> Result<&Page, PageFault> {
        match self.mark(s) {
            Ok(()) => Ok(self.page(s)),
            Err(fault) => Err(fault),
        }
    }

    fn write(&mut self, s: Slot, p: Page) -> Result<(), PageFault> {
        let Ok(_) = self.written.insert((s.store, s.number), p) else {
            return Err(PageFault::Step(StepFault::NoMemory));
        };
        Ok(())
    }

    fn fresh(&mut self, store: u32) -> Result<Slot, PageFault> {
        // There is none only where as many slots as there are numbers are in use.
        let Some(s) = self.first_free(store) else {
            return Err(PageFault::Step(StepFault::NoMemory));
        };
        match self.mark(s) {
            Ok(()) => {
                self.free = s.number + 1;
                Ok(s)
            }
            Err(fault) => Err(fault),
        }
    }
}
