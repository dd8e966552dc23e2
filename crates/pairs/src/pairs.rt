//! A transaction over pairs.

ghost use Rattle.std.specs.Prelude.{◌≡◌, ◌≢◌, ◌≤◌, length, option_map, is_some, IfOk, OnOk, IfErr, IfSome};
ghost use Rattle.pairs.specs.Lives.{born};
ghost use Rattle.pairs.specs.Versions.{HasLives, CanPut, epoch_key, value_at, with_put, with_del};
ghost use Rattle.pairs.specs.Told.{PairsTold, Goes, Finds, Tells, Moves, GivesUp, PutGivesUp};
ghost use Rattle.pairs.specs.Found.{Follows, Purges, PurgesSome};

use crate::at::{At, Purged};
use pair_types::{Key, PairFault, Quad, Value};

/// Pairs of key and value, with their births and deaths, read and written in one transaction. A contract says what each
/// call tells of everything that may lie below; after a fault the transaction is to be given up.
pub trait Pairs {
    /// What may lie below.
    ghost World: { Type 0 };

    /// What a transaction tells.
    ghost told: { PairsTold Self World };

    /// The value of a key in a view. It has at most 1,200 bytes.
    fn get_at(&mut self, key: &[u8], at: At) -> Result<Option<Value>, PairFault>
        ensures goes { Goes told self.old self.new 0 }
        ensures ok { IfOk result (λ found. Tells told self.old self.new (λ v. value_at at v key.now ≡ found)) }
        ensures few { IfOk result (λ found. IfSome found (λ value. length value ≤ 1200)) }
        ensures fault { IfErr result (GivesUp told self.old self.new HasLives) };

    /// The birth of the live value of a key.
    fn born(&mut self, key: &[u8]) -> Result<Option<u64>, PairFault>
        ensures goes { Goes told self.old self.new 0 }
        ensures ok { IfOk result (λ birth. Tells told self.old self.new (λ v. born (v.lives key.now) ≡ birth)) }
        ensures fault { IfErr result (GivesUp told self.old self.new HasLives) };

    /// The first key behind one that a view has, with its value, which has at most 1,200 bytes.
    fn next_at(&mut self, after: &[u8], at: At) -> Result<Option<(Key, Value)>, PairFault>
        ensures goes { Goes told self.old self.new 0 }
        ensures ok { IfOk result (λ found. Tells told self.old self.new (Follows at after.now found)) }
        ensures few { IfOk result (λ found. IfSome found (λ pair. (length pair.0 ≤ 264) × (length pair.1 ≤ 1200))) }
        ensures fault { IfErr result (GivesUp told self.old self.new HasLives) };

    /// Puts a value at a key, as of the epoch: the value that was born in it is replaced, an older one ends.
    fn put(&mut self, key: &[u8], value: &[u8]) -> Result<(), PairFault>
        requires key { length key.now ≤ 264 }
        requires value { length value.now ≤ 1200 }
        ensures goes { Goes told self.old self.new 1 }
        ensures ok { OnOk result (Moves told self.old self.new (CanPut key.now value.now) (with_put key.now value.now)) }
        ensures fault { IfErr result (PutGivesUp told self.old self.new (CanPut key.now value.now)) };

    /// Ends the value of a key, as of the epoch, and answers whether there was one: one that was born in it goes.
    fn del(&mut self, key: &[u8]) -> Result<bool, PairFault>
        requires { key.now ≢ epoch_key }
        ensures goes { Goes told self.old self.new 0 }
        ensures ok { OnOk result (Moves told self.old self.new HasLives (with_del key.now)) }
        ensures was { IfOk result (λ was. Finds told self.old self.new (λ v. is_some (born (v.lives key.now)) ≡ was)) }
        ensures fault { IfErr result (GivesUp told self.old self.new HasLives) };

    /// Takes away the first record, of keys from one on, that is dead and that none of these numbers sees.
    fn purge(&mut self, kept: &[u64], from: &[u8]) -> Result<Option<Quad>, PairFault>
        ensures goes { Goes told self.old self.new 0 }
        ensures ok { IfOk result (Purges told self.old self.new kept.now from.now) }
        ensures fault { IfErr result (GivesUp told self.old self.new HasLives) };

    /// The same, but it may stop behind so many leaves: then none was found before the key that it answers, which has a
    /// record and lies behind the one from which it began.
    fn purge_some(&mut self, kept: &[u64], from: &[u8], leaves: u32) -> Result<Purged, PairFault>
        ensures goes { Goes told self.old self.new 0 }
        ensures ok { IfOk result (PurgesSome told self.old self.new kept.now from.now) }
        ensures fault { IfErr result (GivesUp told self.old self.new HasLives) };
}
