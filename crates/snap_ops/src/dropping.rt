//! A snapshot that is dropped.

ghost use Rattle.std.specs.Prelude.{ℕ, List, ⊤, OnOk, IfErr};
ghost use Rattle.fs_rules.specs.Snapshots.{drop_named};
ghost use Rattle.pairs.specs.Told.{Goes};
ghost use Rattle.fs_shows.specs.Steps.{Edits, EditGivesUp};
ghost use Rattle.snap_ops.specs.Dropping.{IsNamed};

use crate::reading::snapshot_times;
use crate::taking::{put_times, touched};
use fs_keys::KeyParts;
use inode_ops::del_row;
use nfs3_types::Moment;
use pair_types::PairFault;
use pairs::Pairs;
use std::alloc::Global;

/// Drops the snapshot of this number, whatever its name.
pub fn drop_snap<P: Pairs>(
    alloc: Global,
    pairs: &mut P,
    now: Moment,
    number: u64,
) -> Result<(), PairFault>
    ensures goes { Goes P.told pairs.old pairs.new 1 }
    ensures ok { OnOk result ((name : List ℕ) → Edits P.told pairs.old pairs.new (IsNamed number name) (drop_named now name)) }
    ensures fault { IfErr result (EditGivesUp P.told pairs.old pairs.new (λ t. ⊤)) }
{
    let times = match snapshot_times(alloc, pairs) {
        Ok(times) => times,
        Err(fault) => return Err(fault),
    };
    match put_times(alloc, pairs, touched(now, times)) {
        Ok(()) => {}
        Err(fault) => return Err(fault),
    }
    del_row(alloc, pairs, &KeyParts::Snapshot(number))
}
