//! Pages in memory whose calls are counted.

use pair_types::{MemPages, Page, PageFault, Pages, Slot};

/// Pages in memory. It hands each call on, and counts it.
#[derive(Drop)]
pub struct Counted {
    /// The pages.
    pub pages: MemPages,
    /// How many pages were read.
    pub reads: u64,
    /// How many pages were written.
    pub writes: u64,
}

impl Pages for Counted {
    ghost use Rattle.pair_types.specs.MemPages.{state_of};
    ghost use Rattle.pair_types.specs.MemPagesSound.{state_of-sound};

    ghost state = { λ counted. state_of counted.pages };

    ghost sound = { λ counted. state_of-sound counted.pages };

    fn stores(&self) -> u32 {
        self.pages.stores()
    }

    fn read(&mut self, s: Slot) -> Result<&Page, PageFault> {
        self.reads = self.reads.saturating_add(1);
        self.pages.read(s)
    }

    fn write(&mut self, s: Slot, p: Page) -> Result<(), PageFault> {
        self.writes = self.writes.saturating_add(1);
        self.pages.write(s, p)
    }

    fn fresh(&mut self, store: u32) -> Result<Slot, PageFault> {
        self.pages.fresh(store)
    }
}
