//! Pairs and blocks in memory.

ghost use Rattle.std.specs.Prelude.{◌≡◌, ◌≤◌, [], None};

use crate::mem_blocks::MemBlocks;
use crate::row::Row;
use crate::{edits, scans};
use pair_types::{Key, PairFault, Quad, Slot, Value};
use pairs::{At, Blocks, Pairs, Purged};
use std::alloc::Global;

/// Pairs and blocks in memory, with no transaction below. It answers no fault but want of memory.
#[derive(Drop)]
pub struct MemPairs {
    alloc: Global,
    rows: Vec<Row>,
    blocks: MemBlocks,
}

impl MemPairs {
    ghost use Rattle.mem_pairs.specs.Shown.{versions_of};

    /// No pairs, and no blocks, in this many stores. It takes no memory.
    pub fn new(alloc: Global, stores: u32) -> MemPairs
        requires { 1 ≤ stores }
        ensures { versions_of result ≡ record { stores = stores; lives = λ key. []; blocks = λ s. None } }
    {
        MemPairs {
            alloc,
            rows: Vec::new(alloc),
            blocks: MemBlocks::new(alloc, stores),
        }
    }
}

impl Pairs for MemPairs {
    ghost use Rattle.std.specs.Prelude.{⊤};
    ghost use Rattle.mem_pairs.specs.Shown.{told_of};

    ghost World = { ⊤ };

    ghost told = { told_of };

    fn get_at(&mut self, key: &[u8], at: At) -> Result<Option<Value>, PairFault> {
        let found = scans::get(self.alloc, &self.rows, key, at)?;
        Ok(found)
    }

    fn born(&mut self, key: &[u8]) -> Result<Option<u64>, PairFault> {
        Ok(scans::birth(&self.rows, key))
    }

    fn next_at(&mut self, after: &[u8], at: At) -> Result<Option<(Key, Value)>, PairFault> {
        let found = scans::next(self.alloc, &self.rows, after, at)?;
        Ok(found)
    }

    fn put(&mut self, key: &[u8], value: &[u8]) -> Result<(), PairFault> {
        let epoch = scans::epoch(&self.rows);
        edits::put(self.alloc, &mut self.rows, epoch, key, value)?;
        Ok(())
    }

    fn del(&mut self, key: &[u8]) -> Result<bool, PairFault> {
        let epoch = scans::epoch(&self.rows);
        Ok(edits::del(&mut self.rows, epoch, key))
    }

    fn purge(&mut self, kept: &[u64], from: &[u8]) -> Result<Option<Quad>, PairFault> {
        Ok(edits::purge(&mut self.rows, kept, from))
    }

    /// It never stops.
    fn purge_some(&mut self, kept: &[u64], from: &[u8], _leaves: u32) -> Result<Purged, PairFault> {
        match edits::purge(&mut self.rows, kept, from) {
            Some(q) => Ok(Purged::Took(q)),
            None => Ok(Purged::Ended),
        }
    }
}

impl Blocks for MemPairs {
    fn stores(&self) -> u32 {
        self.blocks.stores()
    }

    fn read_block(&mut self, s: Slot, room: &mut [u8]) -> Result<usize, PairFault> {
        Ok(self.blocks.read(s, room))
    }

    fn write_block(&mut self, s: Slot, part: &[u8]) -> Result<(), PairFault> {
        self.blocks.write(s, part)?;
        Ok(())
    }

    fn fresh_block(&mut self, file: u64, index: u64) -> Result<Slot, PairFault> {
        let s = self.blocks.fresh(file, index)?;
        Ok(s)
    }

    fn drop_block(&mut self, s: Slot) -> Result<(), PairFault> {
        self.blocks.remove(s);
        Ok(())
    }
}
