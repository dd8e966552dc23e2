//! Records of the file tree, over pairs.

ghost use Rattle.std.specs.Prelude.{◌≡◌, ◌≢◌, ◌≤◌, length, IfOk, OnOk, IfErr};
ghost use Rattle.pairs.specs.Versions.{HasLives, with_put, with_del};
ghost use Rattle.pairs.specs.Told.{Goes, Tells, Moves, GivesUp, PutGivesUp};
ghost use Rattle.fs_keys.specs.declared.key_parts.KeyParts.TheVariants.{First};
ghost use Rattle.fs_keys.specs.Keys.{HasBounds, key_of as bytes_of};
ghost use Rattle.fs_shows.specs.Extents.{row};

use fs_keys::{KeyParts, key_of};
use nfs3_types::TextRef;
use pair_types::{PairFault, Value};
use pairs::{At, Pairs};
use std::alloc::Global;

/// What a view has at the key of these parts.
pub fn get_row<P: Pairs>(
    alloc: Global,
    pairs: &mut P,
    at: At,
    parts: &KeyParts<TextRef<'_>>,
) -> Result<Option<Value>, PairFault>
    requires { HasBounds parts.now }
    ensures goes { Goes P.told pairs.old pairs.new 0 }
    ensures ok { IfOk result (λ found. Tells P.told pairs.old pairs.new (λ v. row v at parts.now ≡ found)) }
    ensures fault { IfErr result (GivesUp P.told pairs.old pairs.new HasLives) }
{
    match key_of(alloc, parts) {
        Ok(key) => pairs.get_at(key.as_slice(), at),
        Err(fault) => Err(PairFault::from(fault)),
    }
}

/// Puts a value at the key of these parts, which is not that of the epoch.
pub fn put_row<P: Pairs>(
    alloc: Global,
    pairs: &mut P,
    parts: &KeyParts<TextRef<'_>>,
    value: &[u8],
) -> Result<(), PairFault>
    requires bounds { HasBounds parts.now }
    requires other { First ≢ parts.now }
    requires value { length value.now ≤ 1200 }
    ensures goes { Goes P.told pairs.old pairs.new 1 }
    ensures ok { OnOk result (Moves P.told pairs.old pairs.new HasLives (with_put (bytes_of parts.now) value.now)) }
    ensures fault { IfErr result (PutGivesUp P.told pairs.old pairs.new HasLives) }
{
    match key_of(alloc, parts) {
        Ok(key) => pairs.put(key.as_slice(), value),
        Err(fault) => Err(PairFault::from(fault)),
    }
}

/// Ends the value at the key of these parts, which is not that of the epoch.
pub fn del_row<P: Pairs>(
    alloc: Global,
    pairs: &mut P,
    parts: &KeyParts<TextRef<'_>>,
) -> Result<(), PairFault>
    requires bounds { HasBounds parts.now }
    requires other { First ≢ parts.now }
    ensures goes { Goes P.told pairs.old pairs.new 0 }
    ensures ok { OnOk result (Moves P.told pairs.old pairs.new HasLives (with_del (bytes_of parts.now))) }
    ensures fault { IfErr result (GivesUp P.told pairs.old pairs.new HasLives) }
{
    let key = match key_of(alloc, parts) {
        Ok(key) => key,
        Err(fault) => return Err(PairFault::from(fault)),
    };
    match pairs.del(key.as_slice()) {
        Ok(_was) => Ok(()),
        Err(fault) => Err(fault),
    }
}
