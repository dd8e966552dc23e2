//! Sweeps.

ghost use Rattle.std.specs.Prelude.{◌≡◌, ◌<◌, ◌≤◌, ⊤, Bool, true, false, Some, IfOk, IfErr};
ghost use Rattle.fs_rules.specs.Sound.{IsSound};
ghost use Rattle.pairs.specs.Told.{Goes};
ghost use Rattle.fs_shows.specs.Steps.{Edits, GivesUpOn};
ghost use Rattle.sweeper.specs.Keeping.{Keeps};
ghost use Rattle.sweeper.specs.Knowing.{AreKept, IsSwept, Knows};
ghost use Rattle.sweeper.specs.Sweeping.{is_whole, walk_of, EndsKnown, FileFits};

use crate::finding::kept_numbers;
use crate::place::{SweepPlace, Swept, Walk};
use crate::steps::step;
use nfs3_types::NoMemory;
use pair_types::PairFault;
use pairs::Blocks;
use std::alloc::Global;

/// Whether no extent lies before a place among the extents of a file.
fn is_whole(place: &SweepPlace) -> bool
    ensures is { result ≡ is_whole place.now }
    ensures fits { FileFits place.now }
{
    match place {
        SweepPlace::Files(_) => true,
        SweepPlace::Extents { file, after } => {
            let _file = *file;
            after.is_none()
        }
        SweepPlace::Dead(_) => true,
    }
}

/// Walks on from a place, so many steps at most, until so many extents are ended and records purged.
#[tactic(none)]
fn walk<P: Blocks>(
    alloc: Global,
    pairs: &mut P,
    kept: &[u64],
    place: SweepPlace,
    budget: u32,
    steps: u64,
) -> Result<Swept, PairFault>
    ensures goes { Goes P.told pairs.old pairs.new 0 }
    ensures fits { FileFits place }
    ensures few { IfOk result (λ swept. swept.count ≤ budget) }
    ensures ok { IfOk result (λ swept. (trusted : Bool) → Keeps P.told pairs.old pairs.new
        (Knows trusted kept.now (Some (walk_of place))) (EndsKnown trusted kept.now swept.next)) }
    ensures fault { IfErr result (GivesUpOn P.told pairs.old pairs.new (AreKept kept.now)) }
{
    let mut count = 0;
    let whole = is_whole(&place);
    let mut walk = Walk { place, whole };
    for _ in 0..steps {
        if count == budget {
            return Ok(Swept {
                count,
                next: Some(walk.place),
            });
        }
        let step = match step(alloc, pairs, kept, &walk) {
            Ok(step) => step,
            Err(fault) => return Err(fault),
        };
        if step.ended {
            count += 1;
        }
        match step.next {
            Some(next) => walk = next,
            None => return Ok(Swept { count, next: None }),
        }
    }
    Ok(Swept {
        count,
        next: Some(walk.place),
    })
}

/// Sweeps on from a place: ends at most `budget` stale extents or purges as many dead records that no kept snapshot sees, in at
/// most so many steps, each of which finds one record; and answers how many, and where to go on. Every tree that may lie below
/// stays as it was. A mark of a file goes only where the sweep, in this call, saw all of its extents.
#[tactic(none)]
pub fn sweep_from<P: Blocks>(
    alloc: Global,
    pairs: &mut P,
    place: SweepPlace,
    budget: u32,
    leaves: u32,
) -> Result<Swept, PairFault>
    ensures goes { Goes P.told pairs.old pairs.new 0 }
    ensures few { IfOk result (λ swept. swept.count ≤ budget) }
    ensures ok { IfOk result (λ swept. Edits P.told pairs.old pairs.new (λ t. ⊤) (λ t. t)) }
    ensures fault { IfErr result (GivesUpOn P.told pairs.old pairs.new IsSound) }
{
    let kept = match kept_numbers(alloc, pairs) {
        Ok(kept) => kept,
        Err(fault) => return Err(fault),
    };
    match walk(alloc, pairs, &kept, place, budget, u64::from(leaves)) {
        Ok(swept) => Ok(swept),
        Err(fault) => Err(fault),
    }
}

/// Sweeps from the start to the end: at most `budget` extents are ended or records purged. Every tree that may lie below stays
/// as it was; and where it were fewer, none is left.
#[tactic(none)]
pub fn sweep_some<P: Blocks>(alloc: Global, pairs: &mut P, budget: u32) -> Result<u32, PairFault>
    ensures goes { Goes P.told pairs.old pairs.new 0 }
    ensures few { IfOk result (λ count. count ≤ budget) }
    ensures ok { IfOk result (λ count. Edits P.told pairs.old pairs.new (λ t. ⊤) (λ t. t)) }
    ensures done { IfOk result (λ count. count < budget → Keeps P.told pairs.old pairs.new (λ v t. ⊤) IsSwept) }
    ensures fault { IfErr result (GivesUpOn P.told pairs.old pairs.new IsSound) }
{
    let kept = match kept_numbers(alloc, pairs) {
        Ok(kept) => kept,
        Err(fault) => return Err(fault),
    };
    let swept = match walk(alloc, pairs, &kept, SweepPlace::start(), budget, u64::MAX) {
        Ok(swept) => swept,
        Err(fault) => return Err(fault),
    };
    match swept.next {
        None => Ok(swept.count),
        Some(_) => {
            // (2^64 steps, each behind the one before, do not come in practice)
            if swept.count < budget {
                return Err(PairFault::from(NoMemory));
            }
            Ok(swept.count)
        }
    }
}
