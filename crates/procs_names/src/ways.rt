//! Where names lead, in any directory.

ghost use Rattle.std.specs.Prelude.{◌≡◌, ◌≤◌, length, Option, option_map, IfOk, IfErr};
ghost use Rattle.fs_rules.specs.Limits.{longest_name};
ghost use Rattle.fs_rules.specs.Names as names;
ghost use Rattle.fs_rules.specs.Places.{entry_at, place_named, beside as place_beside};
ghost use Rattle.fs_rules.specs.Sound.{IsSound};
ghost use Rattle.fs_rules.specs.declared.name_entry.NameEntry.{NameEntry as Entry};
ghost use Rattle.fs_rules.specs.declared.place.Place.TheVariants.{SnapshotDirectory};
ghost use Rattle.pairs.specs.Told.{Goes};
ghost use Rattle.fs_shows.specs.Steps.{Reads, GivesUpOn};
ghost use Rattle.fs_shows.specs.Views.{place_in, IsKept};
ghost use Rattle.procs_object.specs.Finding.{Begins, HasPlace, IsObject, CheckedOn};
ghost use Rattle.procs_names.specs.Naming as naming;
ghost use Rattle.procs_names.specs.Naming.{IsReady, fileid_of as number_of, leads_at, seen, stands_at};

use dir_ops::look_up;
use fs_keys::{First, NameRow};
use fs_rules::checks::{is_dot, is_dot_dot, is_snapshots_name};
use fs_rules::{Inode, NameEntry, Place};
use fs_shows::Halt;
use nfs3_types::Status;
use pair_types::PairFault;
use pairs::{At, Pairs};
use procs_object::{Found, above, beside, find_place};
use snap_ops::snapshots;
use std::alloc::Global;

// ---- names without an entry

/// Where a name leads without an entry: to the directory itself, to the one above, and from the live root to `.snapshot`.
fn own_place(place: Place, i: &Inode, name: &[u8]) -> Option<Place>
    ensures { result ≡ naming.own_place place i.now name.now }
{
    if is_dot(name) {
        Some(place)
    } else if is_dot_dot(name) {
        Some(above(place, i))
    } else if is_snapshots_name(place, name) {
        Some(Place::SnapshotDirectory)
    } else {
        None
    }
}

// ---- entries

/// The number that a row says.
fn fileid_of(found: Option<NameRow>) -> Option<u64>
    ensures { result ≡ option_map (λ r. r.fileid) found }
{
    match found {
        Some(row) => Some(row.fileid),
        None => None,
    }
}

/// The number that the entry of a name says.
#[tactic(auto, unfolding(fs_rules::specs::Names::named, fs_rules::specs::Names::has_name))]
fn number_in(entries: &[NameEntry], name: &[u8]) -> Option<u64>
    ensures { option_map number_of (names.named name.now entries.now) ≡ result }
{
    let mut rest = entries;
    while !rest.is_empty() {
        if rest[0].name.as_slice() == name {
            return Some(rest[0].fileid);
        }
        rest = &rest[1..];
    }
    None
}

/// The number that the entry of a name says, in a directory of a view.
#[tactic(none)]
fn row_named<P: Pairs>(
    alloc: Global,
    pairs: &mut P,
    at: At,
    directory: u64,
    name: &[u8],
) -> Result<Option<u64>, PairFault>
    requires { length name.now ≤ longest_name }
    ensures goes { Goes P.told pairs.old pairs.new 0 }
    ensures ok { IfOk result (λ found. Reads P.told pairs.old pairs.new (IsKept at)
        (λ t. option_map number_of (entry_at t (place_in at directory) name.now) ≡ found)) }
    ensures fault { IfErr result (GivesUpOn P.told pairs.old pairs.new (IsKept at)) }
{
    match look_up(alloc, pairs, at, directory, name) {
        Ok(found) => Ok(fileid_of(found)),
        Err(fault) => Err(fault),
    }
}

/// The number of the snapshot of a name.
#[tactic(none)]
pub(crate) fn snapshot_named<P: Pairs>(
    alloc: Global,
    pairs: &mut P,
    name: &[u8],
) -> Result<Option<u64>, PairFault>
    ensures goes { Goes P.told pairs.old pairs.new 0 }
    ensures ok { IfOk result (λ found. Reads P.told pairs.old pairs.new IsSound
        (λ t. option_map number_of (entry_at t SnapshotDirectory name.now) ≡ found)) }
    ensures fault { IfErr result (GivesUpOn P.told pairs.old pairs.new IsSound) }
{
    match snapshots(alloc, pairs) {
        Ok(entries) => Ok(number_in(entries.as_slice(), name)),
        Err(fault) => Err(fault),
    }
}

/// The number that the entry of a name says, in any directory.
#[tactic(none)]
fn fileid_named<P: Pairs>(
    alloc: Global,
    pairs: &mut P,
    place: Place,
    name: &[u8],
) -> Result<Option<u64>, PairFault>
    requires { length name.now ≤ longest_name }
    ensures goes { Goes P.told pairs.old pairs.new 0 }
    ensures ok { IfOk result (λ found. Reads P.told pairs.old pairs.new (HasPlace place)
        (λ t. option_map number_of (entry_at t place name.now) ≡ found)) }
    ensures fault { IfErr result (GivesUpOn P.told pairs.old pairs.new (HasPlace place)) }
{
    match place {
        Place::Live(fileid) => row_named(alloc, pairs, At::Live, fileid, name),
        Place::SnapshotDirectory => snapshot_named(alloc, pairs, name),
        Place::Kept(number, fileid) => row_named(alloc, pairs, At::Snap(number), fileid, name),
    }
}

/// Where an entry leads that says this number, if there is one.
fn beside_if(directory: Place, found: Option<u64>) -> Option<Place>
    ensures { (o : Option Entry) → option_map number_of o ≡ found → option_map (place_beside directory) o ≡ result }
{
    match found {
        Some(fileid) => Some(beside(directory, fileid)),
        None => None,
    }
}

// ---- both

/// Where a name of a directory leads.
#[tactic(none)]
fn way<P: Pairs>(
    alloc: Global,
    pairs: &mut P,
    d: &Found,
    name: &[u8],
) -> Result<Option<Place>, PairFault>
    requires { length name.now ≤ longest_name }
    ensures goes { Goes P.told pairs.old pairs.new 0 }
    ensures ok { IfOk result (λ found. Reads P.told pairs.old pairs.new (HasPlace d.now.place)
        (λ t. place_named t (seen d.now) name.now ≡ found)) }
    ensures fault { IfErr result (GivesUpOn P.told pairs.old pairs.new (HasPlace d.now.place)) }
{
    let place = d.place;
    let own = own_place(place, &d.inode.head.kept, name);
    if own.is_some() {
        return Ok(own);
    }
    match fileid_named(alloc, pairs, place, name) {
        Ok(found) => Ok(beside_if(place, found)),
        Err(fault) => Err(fault),
    }
}

/// What stands at a place, where this is the first record: NOENT where nothing does.
#[tactic(none)]
fn stand_at<P: Pairs>(
    alloc: Global,
    pairs: &mut P,
    begins: &First,
    place: Place,
) -> Result<Found, Halt>
    ensures goes { Goes P.told pairs.old pairs.new 0 }
    ensures check { CheckedOn P.told pairs.old pairs.new (Begins begins.now) IsObject (λ t. stands_at t place) result }
{
    let found = match find_place(alloc, pairs, begins, place) {
        Ok(found) => found,
        Err(fault) => return Err(Halt::Fault(fault)),
    };
    match found {
        Some(o) => Ok(o),
        None => Err(Halt::Refused(Status::NoEnt)),
    }
}

/// What a name of a directory leads to, where this is the first record: NOENT where there is nothing.
#[tactic(none)]
pub(crate) fn named<P: Pairs>(
    alloc: Global,
    pairs: &mut P,
    begins: &First,
    d: &Found,
    name: &[u8],
) -> Result<Found, Halt>
    requires { length name.now ≤ longest_name }
    ensures goes { Goes P.told pairs.old pairs.new 0 }
    ensures check { CheckedOn P.told pairs.old pairs.new (IsReady begins.now d.now.place) IsObject
        (λ t. leads_at t (seen d.now) name.now) result }
{
    let found = match way(alloc, pairs, d, name) {
        Ok(found) => found,
        Err(fault) => return Err(Halt::Fault(fault)),
    };
    match found {
        Some(place) => stand_at(alloc, pairs, begins, place),
        None => Err(Halt::Refused(Status::NoEnt)),
    }
}
