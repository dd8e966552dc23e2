//! Blocks in memory.

ghost use Rattle.std.specs.Prelude.{◌≡◌, ◌+◌, ◌%◌, ◌^◌, ◌<◌, ◌≤◌, List, ℕ, [], length, Some, None, OnOk, IfOk, IfSome};
ghost use Rattle.pairs.specs.Found.{Fills};

use nfs3_types::NoMemory;
use pair_types::{Page, Slot};
use pairs::store_for;
use std::alloc::Global;
use std::collections::BTreeMap;

/// Blocks of bytes in the slots of stores.
#[derive(Drop)]
pub struct MemBlocks {
    alloc: Global,
    stores: u32,
    /// Where the search for a free number begins.
    free: u64,
    held: BTreeMap<(u32, u64), Page>,
    ghost some: { 1 ≤ stores },
}

/// Copies the first bytes, as many as there is room for.
fn fill(bytes: &[u8], room: &mut [u8]) -> usize
    ensures { Fills bytes.now room.old room.new result }
{
    let n = room.len().min(bytes.len());
    room[..n].copy_from_slice(&bytes[..n]);
    n
}

impl MemBlocks {
    ghost use Rattle.mem_pairs.specs.Blocks.{blocks_of, Holds};

    /// No blocks, in this many stores. It takes no memory.
    pub fn new(alloc: Global, stores: u32) -> MemBlocks
        requires { 1 ≤ stores }
        ensures stores { result.stores ≡ stores }
        ensures empty { blocks_of result ≡ (λ s. None) }
    {
        MemBlocks {
            alloc,
            stores,
            free: 0,
            held: BTreeMap::new(alloc),
        }
    }

    /// The number of stores, at least one. It takes no memory.
    pub fn stores(&self) -> u32
        ensures some { 0 < result }
        ensures stores { result ≡ self.now.stores }
    {
        self.stores
    }

    /// Puts the first bytes of a block into the room, as many as it has room for, and answers how many they are; of a
    /// slot that has none no byte. It takes no memory.
    pub fn read(&self, s: Slot, room: &mut [u8]) -> usize
        ensures within { result ≤ length room.new }
        ensures ok { (block : List ℕ) → blocks_of self.now s ≡ Some block → Fills block room.old room.new result }
    {
        match self.held.get(&(s.store, s.number)) {
            Some(page) => fill(page.as_slice(), room),
            None => 0,
        }
    }

    /// Writes a block into a slot.
    pub fn write(&mut self, s: Slot, part: &[u8]) -> Result<(), NoMemory>
        ensures { OnOk result (Holds s (Some part.now) self.old self.new) }
    {
        let page = Page::from_slice(self.alloc, part)?;
        self.held.insert((s.store, s.number), page)?;
        Ok(())
    }

    /// The first number of a store, from where the search begins, whose slot has no block.
    fn first_free(&self, store: u32) -> Option<Slot>
        ensures found { IfSome result (λ s. blocks_of self.now s ≡ None) }
        ensures store { IfSome result (λ s. s.store ≡ store) }
        ensures more { IfSome result (λ s. s.number + 1 < 2 ^ 64) }
    {
        for number in self.free..u64::MAX {
            if !self.held.contains_key(&(store, number)) {
                return Some(Slot { store, number });
            }
        }
        None
    }

    /// An empty block in a slot that had none, in the store where a file's block of this index belongs.
    pub fn fresh(&mut self, file: u64, index: u64) -> Result<Slot, NoMemory>
        ensures ok { IfOk result (λ s. Holds s (Some []) self.old self.new) }
        ensures absent { IfOk result (λ s. blocks_of self.old s ≡ None) }
        ensures store { IfOk result (λ s. s.store ≡ (file + index) % self.old.stores) }
    {
        // There is none only where a store has as many blocks as there are numbers.
        let Some(s) = self.first_free(store_for(file, index, self.stores)) else {
            return Err(NoMemory);
        };
        self.held.insert((s.store, s.number), Page::empty())?;
        self.free = s.number + 1;
        Ok(s)
    }

    /// Lets a block go: its slot has none. It takes no memory.
    pub fn remove(&mut self, s: Slot)
        ensures { Holds s None self.old self.new }
    {
        self.held.remove(&(s.store, s.number));
    }
}
