//! A snapshot that is taken.

ghost use Rattle.std.specs.Prelude.{◌≡◌, ◌≤◌, ◌<◌, ◌^◌, length, OnOk, IfOk, IfErr};
ghost use Rattle.fs_rules.specs.Limits.{last_epoch, longest_name};
ghost use Rattle.fs_rules.specs.Snapshots.{add_snapshot, touch_times};
ghost use Rattle.pairs.specs.Versions.{HasLives};
ghost use Rattle.pairs.specs.Told.{Goes, PutGivesUp};
ghost use Rattle.fs_shows.specs.Steps.{Learns, Edits, EditGivesUp};
ghost use Rattle.snap_ops.specs.Taking.{next_first, MayTake, IsNow, Rises, PutsFirst, PutsTimes, PutsSnapshot};

use crate::reading::snapshot_times;
use fs_keys::{First, KeyParts, first_value, times_value};
use fs_rules::Times;
use fs_rules::limits::LAST_EPOCH;
use inode_ops::{first, put_row};
use nfs3_types::Moment;
use pair_types::PairFault;
use pairs::Pairs;
use std::alloc::Global;

/// The key at which the epoch lies.
const EPOCH_KEY: [u8; 1] = [1];

/// The times of what is changed now.
pub(crate) fn touched(now: Moment, times: Times) -> Times
    ensures { result ≡ touch_times now times }
{
    Times {
        mtime: now,
        ctime: now,
        ..times
    }
}

/// Puts the times of the directory `.snapshot`.
pub(crate) fn put_times<P: Pairs>(
    alloc: Global,
    pairs: &mut P,
    times: Times,
) -> Result<(), PairFault>
    ensures goes { Goes P.told pairs.old pairs.new 1 }
    ensures ok { OnOk result (PutsTimes P.told pairs.old pairs.new times) }
    ensures fault { IfErr result (PutGivesUp P.told pairs.old pairs.new HasLives) }
{
    match times_value(alloc, times) {
        Ok(value) => put_row(alloc, pairs, &KeyParts::Times, value.as_slice()),
        Err(fault) => Err(PairFault::from(fault)),
    }
}

/// Puts the first record, whose epoch is to be no earlier than the one that is.
fn put_first<P: Pairs>(alloc: Global, pairs: &mut P, row: &First) -> Result<(), PairFault>
    requires { row.now.epoch < 2 ^ 64 }
    ensures goes { Goes P.told pairs.old pairs.new 1 }
    ensures ok { OnOk result (PutsFirst P.told pairs.old pairs.new row.now) }
    ensures fault { IfErr result (PutGivesUp P.told pairs.old pairs.new (Rises row.now.epoch)) }
{
    match first_value(alloc, row) {
        Ok(value) => pairs.put(&EPOCH_KEY, value.as_slice()),
        Err(fault) => Err(PairFault::from(fault)),
    }
}

/// Puts the records of a new snapshot: its name, at the number that is the epoch, then the next epoch, and the times of
/// the directory.
fn put_snapshot<P: Pairs>(
    alloc: Global,
    pairs: &mut P,
    row: &First,
    name: &[u8],
    times: Times,
) -> Result<(), PairFault>
    requires name { length name.now ≤ longest_name }
    requires early { row.now.epoch < last_epoch }
    ensures goes { Goes P.told pairs.old pairs.new 3 }
    ensures ok { OnOk result (PutsSnapshot P.told pairs.old pairs.new row.now name.now times) }
    ensures fault { IfErr result (PutGivesUp P.told pairs.old pairs.new (IsNow row.now.epoch)) }
{
    match put_row(alloc, pairs, &KeyParts::Snapshot(row.epoch), name) {
        Ok(()) => {}
        Err(fault) => return Err(fault),
    }
    let next = First {
        epoch: row.epoch + 1,
        ..*row
    };
    match put_first(alloc, pairs, &next) {
        Ok(()) => {}
        Err(fault) => return Err(fault),
    }
    put_times(alloc, pairs, times)
}

/// Takes a snapshot of this name, and answers its number.
pub fn add_snap<P: Pairs>(
    alloc: Global,
    pairs: &mut P,
    now: Moment,
    name: &[u8],
) -> Result<u64, PairFault>
    requires { length name.now ≤ longest_name }
    ensures goes { Goes P.told pairs.old pairs.new 3 }
    ensures ok { OnOk result (Edits P.told pairs.old pairs.new MayTake (add_snapshot now name.now)) }
    ensures number { IfOk result (λ number. Learns P.told pairs.old pairs.new MayTake (λ t. t.epoch ≡ number)) }
    ensures fault { IfErr result (EditGivesUp P.told pairs.old pairs.new MayTake) }
{
    let row = match first(alloc, pairs) {
        Ok(row) => row,
        Err(fault) => return Err(fault),
    };
    let times = match snapshot_times(alloc, pairs) {
        Ok(times) => times,
        Err(fault) => return Err(fault),
    };
    if row.epoch >= LAST_EPOCH {
        return Err(PairFault::Odd);
    }
    match put_snapshot(alloc, pairs, &row, name, touched(now, times)) {
        Ok(()) => Ok(row.epoch),
        Err(fault) => Err(fault),
    }
}
