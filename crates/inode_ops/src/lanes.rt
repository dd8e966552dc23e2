//! The lanes that give numbers to new files, and the first record.

ghost use Rattle.std.specs.Prelude.{◌≡◌, ⊤, Some, OnOk, IfOk, IfErr};
ghost use Rattle.fs_rules.specs.Edits.{give_number};
ghost use Rattle.fs_rules.specs.Tree.{next_fileid};
ghost use Rattle.pairs.specs.declared.at.At.TheVariants.{Live};
ghost use Rattle.pairs.specs.Told.{Goes, Tells};
ghost use Rattle.fs_keys.specs.declared.key_parts.KeyParts.TheVariants.{Lane};
ghost use Rattle.fs_keys.specs.Values.{lane_in};
ghost use Rattle.fs_shows.specs.Extents.{row};
ghost use Rattle.fs_shows.specs.Nodes.{Holds};
ghost use Rattle.fs_shows.specs.Shows.{first_of as record_of};
ghost use Rattle.fs_shows.specs.Steps.{Reads, Edits, GivesUpOn, EditGivesUp};
ghost use Rattle.inode_ops.specs.Giving.{HasLane, CanGive};

use crate::rows::{get_row, put_row};
use fs_keys::{First, KeyParts, first_of, lane_of, lane_value};
use pair_types::PairFault;
use pairs::{At, Pairs};
use std::alloc::Global;

/// The distance of the numbers of a lane.
const LANES: u64 = 16;

/// The number that a lane gives next.
pub fn peek<P: Pairs>(alloc: Global, pairs: &mut P, lane: u8) -> Result<u64, PairFault>
    ensures goes { Goes P.told pairs.old pairs.new 0 }
    ensures ok { IfOk result (λ next. Reads P.told pairs.old pairs.new (HasLane lane) (λ t. next_fileid t lane ≡ next)) }
    ensures record { IfOk result (λ next. Tells P.told pairs.old pairs.new
        (λ v. Holds lane_in (row v Live (Lane lane)) (Some next))) }
    ensures fault { IfErr result (GivesUpOn P.told pairs.old pairs.new (HasLane lane)) }
{
    let found = match get_row(alloc, pairs, At::Live, &KeyParts::Lane(lane)) {
        Ok(found) => found,
        Err(fault) => return Err(fault),
    };
    let value = match found {
        Some(value) => value,
        None => return Err(PairFault::Odd),
    };
    match lane_of(value.as_slice()) {
        Some(next) => Ok(next),
        None => Err(PairFault::Odd),
    }
}

/// A lane gives its next number. The node of that number is to be saved before.
pub fn give<P: Pairs>(alloc: Global, pairs: &mut P, lane: u8) -> Result<(), PairFault>
    ensures goes { Goes P.told pairs.old pairs.new 1 }
    ensures ok { OnOk result (Edits P.told pairs.old pairs.new (CanGive lane) (give_number lane)) }
    ensures fault { IfErr result (EditGivesUp P.told pairs.old pairs.new (CanGive lane)) }
{
    let next = match peek(alloc, pairs, lane) {
        Ok(next) => next,
        Err(fault) => return Err(fault),
    };
    let after = match next.checked_add(LANES) {
        Some(after) => after,
        None => return Err(PairFault::Odd),
    };
    match lane_value(alloc, after) {
        Ok(value) => put_row(alloc, pairs, &KeyParts::Lane(lane), value.as_slice()),
        Err(fault) => Err(PairFault::from(fault)),
    }
}

/// The epoch, the number of the file system and its verifier.
pub fn first<P: Pairs>(alloc: Global, pairs: &mut P) -> Result<First, PairFault>
    ensures goes { Goes P.told pairs.old pairs.new 0 }
    ensures ok { IfOk result (λ found. Reads P.told pairs.old pairs.new (λ t. ⊤) (λ t. record_of t ≡ found)) }
    ensures fault { IfErr result (GivesUpOn P.told pairs.old pairs.new (λ t. ⊤)) }
{
    let found = match get_row(alloc, pairs, At::Live, &KeyParts::First) {
        Ok(found) => found,
        Err(fault) => return Err(fault),
    };
    let value = match found {
        Some(value) => value,
        None => return Err(PairFault::Odd),
    };
    match first_of(value.as_slice()) {
        Some(row) => Ok(row),
        None => Err(PairFault::Odd),
    }
}
