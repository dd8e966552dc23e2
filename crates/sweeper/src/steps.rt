//! The steps of a sweep.

ghost use Rattle.std.specs.Prelude.{◌≡◌, ◌<◌, ◌^◌, ⊤, ℕ, Bool, List, IfOk, OnOk, IfErr, option_map};
ghost use Rattle.xdr_grammar.specs.Laws.{AreBytes};
ghost use Rattle.pairs.specs.Versions.{HasLives, with_del};
ghost use Rattle.pairs.specs.Told.{Goes, Tells, Moves, GivesUp};
ghost use Rattle.fs_keys.specs.declared.key_parts.KeyParts.TheVariants.{Extent as ExtentKey, Stale as StaleKey};
ghost use Rattle.fs_keys.specs.Keys.{key_of as bytes_of};
ghost use Rattle.fs_shows.specs.Shows.{live_marks, counts_by};
ghost use Rattle.fs_shows.specs.Steps.{GivesUpOn};
ghost use Rattle.extent_ops.specs.Marking.{as_marks};
ghost use Rattle.extent_ops.specs.Steps.{Makes};
ghost use Rattle.sweeper.specs.declared.place.SweepPlace.TheVariants.{Files, Extents, Dead};
ghost use Rattle.sweeper.specs.Dropping.{slot_named as slot_in_record, NamesThere, without_named};
ghost use Rattle.sweeper.specs.Ending.{StaleOr, EndsOr, unmarked};
ghost use Rattle.sweeper.specs.Knowing.{Walks};

use crate::finding::{extent_front, next_in};
use crate::place::{Step, SweepPlace, Walk};
use extent_ops::Marks;
use fs_keys::{KeyParts, extent_of, key_of, parts_of};
use inode_ops::load;
use pair_types::{Key, PairFault, Slot};
use pairs::{At, Blocks, Pairs, Purged, store_for};
use std::alloc::Global;

/// The marks of a live file, where it is there.
fn marks_of<P: Pairs>(alloc: Global, pairs: &mut P, file: u64) -> Result<Option<Marks>, PairFault>
    ensures goes { Goes P.told pairs.old pairs.new 0 }
    ensures ok { IfOk result (λ found. Tells P.told pairs.old pairs.new (λ v. live_marks v file ≡ option_map as_marks found)) }
    ensures fault { IfErr result (GivesUpOn P.told pairs.old pairs.new (λ t. ⊤)) }
{
    match load(alloc, pairs, At::Live, file) {
        Ok(Some(inode)) => Ok(Some(Marks::of(&inode.head))),
        Ok(None) => Ok(None),
        Err(fault) => Err(fault),
    }
}

/// Whether an extent counts, by the marks of its file, where that is there.
fn counts(marks: Option<Marks>, index: u64, stamp: u64) -> bool
    ensures { (number : ℕ) → result ≡ counts_by (option_map as_marks marks) index (record { number = number; stamp = stamp }) }
{
    match marks {
        Some(marks) => index < marks.floor || stamp == marks.stamp,
        None => false,
    }
}

/// Whether a value is that of an extent that does not count.
fn is_stale(marks: Option<Marks>, index: u64, value: &[u8]) -> bool
    ensures { StaleOr result (option_map as_marks marks) index value.now }
{
    match extent_of(value) {
        Some(extent) => !counts(marks, index, extent.stamp),
        None => false,
    }
}

/// Ends a live extent.
fn end_extent<P: Pairs>(
    alloc: Global,
    pairs: &mut P,
    file: u64,
    index: u64,
) -> Result<(), PairFault>
    ensures goes { Goes P.told pairs.old pairs.new 0 }
    ensures ok { OnOk result (Moves P.told pairs.old pairs.new HasLives (with_del (bytes_of (ExtentKey file index)))) }
    ensures fault { IfErr result (GivesUp P.told pairs.old pairs.new HasLives) }
{
    let key = match key_of(alloc, &KeyParts::Extent { file, index }) {
        Ok(key) => key,
        Err(lack) => return Err(PairFault::from(lack)),
    };
    match pairs.del(key.as_slice()) {
        Ok(_) => Ok(()),
        Err(fault) => Err(fault),
    }
}

/// Takes the mark of a live file away.
fn end_mark<P: Pairs>(alloc: Global, pairs: &mut P, file: u64) -> Result<(), PairFault>
    ensures goes { Goes P.told pairs.old pairs.new 0 }
    ensures ok { OnOk result (Moves P.told pairs.old pairs.new HasLives (with_del (bytes_of (StaleKey file)))) }
    ensures fault { IfErr result (GivesUp P.told pairs.old pairs.new HasLives) }
{
    let key = match key_of(alloc, &KeyParts::Stale(file)) {
        Ok(key) => key,
        Err(lack) => return Err(PairFault::from(lack)),
    };
    match pairs.del(key.as_slice()) {
        Ok(_) => Ok(()),
        Err(fault) => Err(fault),
    }
}

/// Ends a live extent that was found, if it does not count, and answers whether it did.
fn end_stale<P: Pairs>(
    alloc: Global,
    pairs: &mut P,
    file: u64,
    index: u64,
    value: &[u8],
) -> Result<bool, PairFault>
    ensures goes { Goes P.told pairs.old pairs.new 0 }
    ensures ok { IfOk result (λ ended. Makes P.told pairs.old pairs.new HasLives (EndsOr file index value.now ended)) }
    ensures fault { IfErr result (GivesUpOn P.told pairs.old pairs.new (λ t. ⊤)) }
{
    let marks = match marks_of(alloc, pairs, file) {
        Ok(marks) => marks,
        Err(fault) => return Err(fault),
    };
    if !is_stale(marks, index, value) {
        return Ok(false);
    }
    match end_extent(alloc, pairs, file, index) {
        Ok(()) => Ok(true),
        Err(fault) => Err(fault),
    }
}

/// Takes the mark of a file away that was walked through from its first extent on.
fn leave_file<P: Pairs>(
    alloc: Global,
    pairs: &mut P,
    file: u64,
    whole: bool,
) -> Result<(), PairFault>
    ensures goes { Goes P.told pairs.old pairs.new 0 }
    ensures ok { OnOk result (Moves P.told pairs.old pairs.new HasLives (unmarked whole file)) }
    ensures fault { IfErr result (GivesUp P.told pairs.old pairs.new HasLives) }
{
    if whole {
        match end_mark(alloc, pairs, file) {
            Ok(()) => Ok(()),
            Err(fault) => Err(fault),
        }
    } else {
        Ok(())
    }
}

/// Goes on to the extents of the next file that is marked, or, where there is none, to the dead records.
#[tactic(none)]
fn step_files<P: Pairs>(alloc: Global, pairs: &mut P, after: Option<u64>) -> Result<Step, PairFault>
    ensures goes { Goes P.told pairs.old pairs.new 0 }
    ensures ok { IfOk result (λ step. (kept : List ℕ) (whole : Bool)
        → Walks P.told pairs.old pairs.new kept (record { place = Files after; whole = whole }) step.next) }
    ensures fault { IfErr result (GivesUpOn P.told pairs.old pairs.new (λ t. ⊤)) }
{
    let found = match next_in(alloc, pairs, &[8], after) {
        Ok(found) => found,
        Err(fault) => return Err(fault),
    };
    match found {
        Some(pair) => Ok(Step {
            ended: false,
            next: Some(Walk {
                place: SweepPlace::Extents {
                    file: pair.0,
                    after: None,
                },
                whole: true,
            }),
        }),
        None => Ok(Step {
            ended: false,
            next: Some(Walk {
                place: SweepPlace::Dead(Key::new(alloc)),
                whole: true,
            }),
        }),
    }
}

/// Ends the next extent of a file, if it does not count; behind the last one it takes the file's mark away.
#[tactic(none)]
fn step_extents<P: Pairs>(
    alloc: Global,
    pairs: &mut P,
    file: u64,
    after: Option<u64>,
    whole: bool,
) -> Result<Step, PairFault>
    ensures goes { Goes P.told pairs.old pairs.new 0 }
    ensures ok { IfOk result (λ step. (kept : List ℕ)
        → Walks P.told pairs.old pairs.new kept (record { place = Extents file after; whole = whole }) step.next) }
    ensures fault { IfErr result (GivesUpOn P.told pairs.old pairs.new (λ t. ⊤)) }
{
    let front = match extent_front(alloc, file) {
        Ok(front) => front,
        Err(lack) => return Err(PairFault::from(lack)),
    };
    let found = match next_in(alloc, pairs, front.as_slice(), after) {
        Ok(found) => found,
        Err(fault) => return Err(fault),
    };
    match found {
        Some(pair) => match end_stale(alloc, pairs, file, pair.0, pair.1.as_slice()) {
            Ok(ended) => Ok(Step {
                ended,
                next: Some(Walk {
                    place: SweepPlace::Extents {
                        file,
                        after: Some(pair.0),
                    },
                    whole,
                }),
            }),
            Err(fault) => Err(fault),
        },
        None => match leave_file(alloc, pairs, file, whole) {
            Ok(()) => Ok(Step {
                ended: false,
                next: Some(Walk {
                    place: SweepPlace::Files(Some(file)),
                    whole,
                }),
            }),
            Err(fault) => Err(fault),
        },
    }
}

/// Where the block lies that a record names, if it is an extent's.
fn slot_named(stores: u32, key: &[u8], value: &[u8]) -> Option<Slot>
    requires { 0 < stores }
    ensures is { result ≡ slot_in_record stores key.now value.now }
    ensures bytes { AreBytes key.now }
{
    match parts_of(key) {
        Some(KeyParts::Extent { file, index }) => match extent_of(value) {
            Some(extent) => Some(Slot {
                store: store_for(file, index, stores),
                number: extent.number,
            }),
            None => None,
        },
        _ => None,
    }
}

/// Drops the block that a purged record named, if it was an extent's.
fn drop_named<P: Blocks>(pairs: &mut P, key: &[u8], value: &[u8]) -> Result<(), PairFault>
    ensures goes { Goes P.told pairs.old pairs.new 0 }
    ensures bytes { AreBytes key.now }
    ensures ok { OnOk result (Moves P.told pairs.old pairs.new (NamesThere key.now value.now)
        (without_named key.now value.now)) }
    ensures fault { IfErr result (GivesUp P.told pairs.old pairs.new (NamesThere key.now value.now)) }
{
    let stores = pairs.stores();
    match slot_named(stores, key, value) {
        Some(slot) => match pairs.drop_block(slot) {
            Ok(()) => Ok(()),
            Err(fault) => Err(fault),
        },
        None => Ok(()),
    }
}

/// Purges the next dead record that none of these numbers sees, with the block that it names.
#[tactic(none)]
fn step_dead<P: Blocks>(pairs: &mut P, kept: &[u64], from: &Key) -> Result<Step, PairFault>
    ensures goes { Goes P.told pairs.old pairs.new 0 }
    ensures ok { IfOk result (λ step. (whole : Bool)
        → Walks P.told pairs.old pairs.new kept.now (record { place = Dead from.now; whole = whole }) step.next) }
    ensures fault { IfErr result (GivesUpOn P.told pairs.old pairs.new (λ t. ⊤)) }
{
    let purged = match pairs.purge_some(kept, from.as_slice(), 1) {
        Ok(purged) => purged,
        Err(fault) => return Err(fault),
    };
    match purged {
        Purged::Took(quad) => match drop_named(pairs, quad.key.as_slice(), quad.value.as_slice()) {
            Ok(()) => Ok(Step {
                ended: true,
                next: Some(Walk {
                    place: SweepPlace::Dead(quad.key),
                    whole: true,
                }),
            }),
            Err(fault) => Err(fault),
        },
        Purged::Stopped(key) => Ok(Step {
            ended: false,
            next: Some(Walk {
                place: SweepPlace::Dead(key),
                whole: true,
            }),
        }),
        Purged::Ended => Ok(Step {
            ended: false,
            next: None,
        }),
    }
}

/// One step of a walk: at most one extent ends, or one record is purged.
#[tactic(none)]
pub(crate) fn step<P: Blocks>(
    alloc: Global,
    pairs: &mut P,
    kept: &[u64],
    walk: &Walk,
) -> Result<Step, PairFault>
    ensures goes { Goes P.told pairs.old pairs.new 0 }
    ensures ok { IfOk result (λ step. Walks P.told pairs.old pairs.new kept.now walk.now step.next) }
    ensures fault { IfErr result (GivesUpOn P.told pairs.old pairs.new (λ t. ⊤)) }
{
    match &walk.place {
        SweepPlace::Files(after) => step_files(alloc, pairs, *after),
        SweepPlace::Extents { file, after } => {
            step_extents(alloc, pairs, *file, *after, walk.whole)
        }
        SweepPlace::Dead(from) => step_dead(pairs, kept, from),
    }
}
