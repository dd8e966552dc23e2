//! Blocks beside the pairs.

ghost use Rattle.std.specs.Prelude.{◌≡◌, ◌<◌, ◌≤◌, ◌+◌, ◌%◌, ⊤, ℕ, List, [], length, Some, None, IfOk, OnOk, IfErr};
ghost use Rattle.pairs.specs.Versions.{Versions, IsBlock, with_block};
ghost use Rattle.pairs.specs.Told.{Goes, Tells, Moves, GivesUp};
ghost use Rattle.pairs.specs.Found.{Fills, IsFresh};

use crate::pairs::Pairs;
use pair_types::{PairFault, Slot};

/// The store where a file's block of this index belongs, among so many.
pub fn store_for(file: u64, index: u64, stores: u32) -> u32
    requires { 0 < stores }
    ensures { result ≡ (file + index) % stores }
{
    let sum = u128::from(file) + u128::from(index);
    (sum % u128::from(stores)) as u32
}

/// Blocks of bytes, of at most 8,192 bytes each, in slots of the stores beside the pairs.
pub trait Blocks: Pairs {
    /// The number of stores, at least one, which no call changes. It takes no memory.
    fn stores(&self) -> u32
        ensures some { 0 < result }
        ensures shown { (w : Self.World) (v : Versions) → Self.told.agrees self.now w → Self.told.shows self.now w v
            → v.stores ≡ result };

    /// Puts the first bytes of a block into the room, as many as it has room for, and answers how many they are.
    fn read_block(&mut self, s: Slot, room: &mut [u8]) -> Result<usize, PairFault>
        ensures goes { Goes Self.told self.old self.new 0 }
        ensures within { IfOk result (λ n. n ≤ length room.new) }
        ensures ok { IfOk result (λ n. Tells Self.told self.old self.new
            (λ v. (block : List ℕ) → v.blocks s ≡ Some block → Fills block room.old room.new n)) }
        ensures fault { IfErr result (GivesUp Self.told self.old self.new (λ _. ⊤)) };

    /// Writes a block into a slot that has one.
    fn write_block(&mut self, s: Slot, part: &[u8]) -> Result<(), PairFault>
        requires { length part.now ≤ 8192 }
        ensures goes { Goes Self.told self.old self.new 0 }
        ensures ok { OnOk result (Moves Self.told self.old self.new (IsBlock s) (with_block s (Some part.now))) }
        ensures fault { IfErr result (GivesUp Self.told self.old self.new (IsBlock s)) };

    /// An empty block in a slot that had none, in the store where a file's block of this index belongs.
    fn fresh_block(&mut self, file: u64, index: u64) -> Result<Slot, PairFault>
        ensures goes { Goes Self.told self.old self.new 0 }
        ensures ok { IfOk result (λ s. Moves Self.told self.old self.new (λ _. ⊤) (with_block s (Some []))) }
        ensures fresh { IfOk result (λ s. (w : Self.World) (v : Versions)
            → Self.told.agrees self.new w → Self.told.shows self.old w v → IsFresh file index s v) }
        ensures fault { IfErr result (GivesUp Self.told self.old self.new (λ _. ⊤)) };

    /// Lets a block go: its slot has none.
    fn drop_block(&mut self, s: Slot) -> Result<(), PairFault>
        ensures goes { Goes Self.told self.old self.new 0 }
        ensures ok { OnOk result (Moves Self.told self.old self.new (IsBlock s) (with_block s None)) }
        ensures fault { IfErr result (GivesUp Self.told self.old self.new (IsBlock s)) };
}
