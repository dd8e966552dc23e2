//! Whether a snapshot is kept, and the times of the directory `.snapshot`.

ghost use Rattle.std.specs.Prelude.{◌≡◌, ⊤, is_some, IfOk, IfErr};
ghost use Rattle.fs_rules.specs.Places.{snapshot_numbered};
ghost use Rattle.pairs.specs.Told.{Goes};
ghost use Rattle.fs_shows.specs.Steps.{Reads, GivesUpOn};

use fs_keys::{KeyParts, times_of};
use fs_rules::Times;
use inode_ops::get_row;
use pair_types::PairFault;
use pairs::{At, Pairs};
use std::alloc::Global;

/// Whether a snapshot of this number is kept.
pub fn kept<P: Pairs>(alloc: Global, pairs: &mut P, number: u64) -> Result<bool, PairFault>
    ensures goes { Goes P.told pairs.old pairs.new 0 }
    ensures ok { IfOk result (λ is. Reads P.told pairs.old pairs.new (λ t. ⊤) (λ t. is_some (snapshot_numbered t number) ≡ is)) }
    ensures fault { IfErr result (GivesUpOn P.told pairs.old pairs.new (λ t. ⊤)) }
{
    match get_row(alloc, pairs, At::Live, &KeyParts::Snapshot(number)) {
        Ok(found) => Ok(found.is_some()),
        Err(fault) => Err(fault),
    }
}

/// The times of the directory `.snapshot`.
pub fn snapshot_times<P: Pairs>(alloc: Global, pairs: &mut P) -> Result<Times, PairFault>
    ensures goes { Goes P.told pairs.old pairs.new 0 }
    ensures ok { IfOk result (λ times. Reads P.told pairs.old pairs.new (λ t. ⊤) (λ t. t.snapshot_times ≡ times)) }
    ensures fault { IfErr result (GivesUpOn P.told pairs.old pairs.new (λ t. ⊤)) }
{
    let found = match get_row(alloc, pairs, At::Live, &KeyParts::Times) {
        Ok(found) => found,
        Err(fault) => return Err(fault),
    };
    let value = match found {
        Some(value) => value,
        None => return Err(PairFault::Odd),
    };
    match times_of(value.as_slice()) {
        Some(times) => Ok(times),
        None => Err(PairFault::Odd),
    }
}
