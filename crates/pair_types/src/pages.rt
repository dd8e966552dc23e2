//! A transaction over pages.

ghost use Rattle.std.specs.Prelude.{◌≡◌, ◌<◌, ◌≤◌, MatchResult};
ghost use Rattle.std.specs.Borrow.{sem};
ghost use Rattle.std.specs.Io.BufRead.{Rests};
ghost use Rattle.pair_types.specs.PageState.{PageState, IsSound, Reads, ReadFails, Writes, Freshens, GivesUp};

use crate::fault::PageFault;
use crate::page::Page;
use crate::slot::Slot;

/// A transaction over pages in slots. It knows what it has read and written, as `state` says: reads
/// are facts about the pages that lie below, and writes lie over these until they are committed.
pub trait Pages {
    /// What was read and written so far.
    ghost state: { Self → PageState };

    /// The number of stores, which no call changes. It takes no memory.
    fn stores(&self) -> u32
        ensures { result ≡ (state self.now).stores };

    /// The page in a slot: what was written there last, else what lies there. An absent slot reads
    /// as the empty page, and so does a slot beyond the stores, of which nothing is asked.
    fn read(&mut self, s: Slot) -> Result<&Page, PageFault>
        ensures* after_borrow { sem 𝓛 (Rests Self.row self.entry (λ now. MatchResult result
            (λ page. Reads (state self.old) (state now) s page.now)
            (λ fault. ReadFails (state self.old) (state now) s fault))) };

    /// Writes a page into a slot, which is read first where it was not yet read.
    fn write(&mut self, s: Slot, p: Page) -> Result<(), PageFault>
        requires { s.store < (state self.old).stores }
        ensures { MatchResult result
            (λ _. Writes (state self.old) (state self.new) s p)
            (λ fault. GivesUp (state self.old) (state self.new) fault) };

    /// A slot of a store that was neither read nor written, and that is now known to be absent.
    fn fresh(&mut self, store: u32) -> Result<Slot, PageFault>
        requires { store < (state self.old).stores }
        ensures { MatchResult result
            (λ s. Freshens (state self.old) (state self.new) store s)
            (λ fault. GivesUp (state self.old) (state self.new) fault) };

    /// Each written slot was read, and the reads are true of what lies below.
    ghost sound: { (pages : Self) → IsSound (state pages) };
}
