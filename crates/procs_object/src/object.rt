//! What handles lead to, and file numbers.

ghost use Rattle.std.specs.Prelude.{◌≡◌, IfSome, IfOk, IfErr};
ghost use Rattle.fs_rules.specs.Checks.{find_object as object_found};
ghost use Rattle.fs_rules.specs.Places.{leads_to};
ghost use Rattle.fs_rules.specs.Tree.{Tree};
ghost use Rattle.fs_rules.specs.declared.place.Place.TheVariants.{Live as LivePlace};
ghost use Rattle.fs_rules.specs.Sound.{IsSound};
ghost use Rattle.pairs.specs.Told.{Goes};
ghost use Rattle.fs_shows.specs.Steps.{Reads, GivesUpOn};
ghost use Rattle.fs_rules.specs.Snapshots.{is_snapshot_directory};
ghost use Rattle.procs_object.specs.Finding.{Begins, IsBegun, IsObject, IsLed, CheckedOn, says_snapshots as says_it};

use crate::snapshot::{find_kept, find_snapshots};
use fs_keys::{First, Inode};
use fs_rules::Place;
use fs_shows::Halt;
use inode_ops::{first, load};
use nfs3_types::{Fattr, Handle, Status};
use pair_types::PairFault;
use pairs::{At, Pairs};
use std::alloc::Global;

/// What was found.
#[derive(Drop)]
pub struct Found {
    /// Where it stands.
    pub place: Place,
    /// Its inode.
    pub inode: Inode,
    /// Its attributes.
    pub attributes: Fattr,
}

/// The first record that lies below, and what was found by it.
#[derive(Drop)]
pub struct Begun {
    /// The first record.
    pub begins: First,
    /// What was found.
    pub found: Found,
}

/// Whether it is `.snapshot`.
fn is_snapshots(place: Place) -> bool
    ensures { result ≡ is_snapshot_directory place }
{
    match place {
        Place::Live(_) => false,
        Place::SnapshotDirectory => true,
        Place::Kept(_, _) => false,
    }
}

/// Whether a handle is that of `.snapshot`.
pub fn says_snapshots(handle: &[u8]) -> bool
    ensures { result ≡ says_it handle.now }
{
    match Handle::of(handle) {
        Some(h) => is_snapshots(Place::of(&h)),
        None => false,
    }
}

/// What a number leads to in the live tree, where this is the number of the file system, or that it leads to nothing.
#[tactic(none)]
pub fn find_child<P: Pairs>(
    alloc: Global,
    pairs: &mut P,
    fsid: u64,
    fileid: u64,
) -> Result<Option<Found>, PairFault>
    ensures goes { Goes P.told pairs.old pairs.new 0 }
    ensures ok { IfOk result (λ found. Reads P.told pairs.old pairs.new (λ t. t.fsid ≡ fsid)
        (λ t. IsLed t found (leads_to t (LivePlace fileid)))) }
    ensures place { IfOk result (λ found. IfSome found (λ x. x.place ≡ LivePlace fileid)) }
    ensures fault { IfErr result (GivesUpOn P.told pairs.old pairs.new (λ (t : Tree). t.fsid ≡ fsid)) }
{
    let found = match load(alloc, pairs, At::Live, fileid) {
        Ok(found) => found,
        Err(fault) => return Err(fault),
    };
    let Some(inode) = found else {
        return Ok(None);
    };
    let attributes = inode.head.kept.attributes(fsid, fileid, inode.head.size);
    Ok(Some(Found {
        place: Place::Live(fileid),
        inode,
        attributes,
    }))
}

/// What stands at a place, where this is the first record, or that nothing does.
#[tactic(none)]
pub fn find_place<P: Pairs>(
    alloc: Global,
    pairs: &mut P,
    begins: &First,
    place: Place,
) -> Result<Option<Found>, PairFault>
    ensures goes { Goes P.told pairs.old pairs.new 0 }
    ensures ok { IfOk result (λ found. Reads P.told pairs.old pairs.new (Begins begins.now)
        (λ t. IsLed t found (leads_to t place))) }
    ensures place { IfOk result (λ found. IfSome found (λ x. x.place ≡ place)) }
    ensures fault { IfErr result (GivesUpOn P.told pairs.old pairs.new (Begins begins.now)) }
{
    match place {
        Place::Live(fileid) => find_child(alloc, pairs, begins.fsid, fileid),
        Place::SnapshotDirectory => match find_snapshots(alloc, pairs, begins) {
            Ok(x) => Ok(Some(x)),
            Err(fault) => Err(fault),
        },
        Place::Kept(number, fileid) => find_kept(alloc, pairs, begins, number, fileid),
    }
}

/// What a handle leads to, where this is the first record: BADHANDLE where it is not 24 bytes long, and STALE where it names
/// nothing.
#[tactic(none)]
pub fn find_object<P: Pairs>(
    alloc: Global,
    pairs: &mut P,
    begins: &First,
    handle: &[u8],
) -> Result<Found, Halt>
    ensures goes { Goes P.told pairs.old pairs.new 0 }
    ensures check { CheckedOn P.told pairs.old pairs.new (Begins begins.now) IsObject
        (λ t. object_found t handle.now) result }
{
    let Some(h) = Handle::of(handle) else {
        return Err(Halt::Refused(Status::BadHandle));
    };
    if h.fsid != begins.fsid {
        return Err(Halt::Refused(Status::Stale));
    }
    let found = match find_place(alloc, pairs, begins, Place::of(&h)) {
        Ok(found) => found,
        Err(fault) => return Err(Halt::Fault(fault)),
    };
    match found {
        Some(x) => Ok(x),
        None => Err(Halt::Refused(Status::Stale)),
    }
}

/// What a handle leads to, by the first record that lies below.
#[tactic(none)]
pub fn see<P: Pairs>(alloc: Global, pairs: &mut P, handle: &[u8]) -> Result<Found, Halt>
    ensures goes { Goes P.told pairs.old pairs.new 0 }
    ensures check { CheckedOn P.told pairs.old pairs.new IsSound IsObject (λ t. object_found t handle.now) result }
{
    let begins = match first(alloc, pairs) {
        Ok(begins) => begins,
        Err(fault) => return Err(Halt::Fault(fault)),
    };
    find_object(alloc, pairs, &begins, handle)
}

/// What a handle leads to, with the first record that lies below.
#[tactic(none)]
pub fn look<P: Pairs>(alloc: Global, pairs: &mut P, handle: &[u8]) -> Result<Begun, Halt>
    ensures goes { Goes P.told pairs.old pairs.new 0 }
    ensures check { CheckedOn P.told pairs.old pairs.new IsSound IsBegun (λ t. object_found t handle.now) result }
{
    let begins = match first(alloc, pairs) {
        Ok(begins) => begins,
        Err(fault) => return Err(Halt::Fault(fault)),
    };
    match find_object(alloc, pairs, &begins, handle) {
        Ok(found) => Ok(Begun { begins, found }),
        Err(halt) => Err(halt),
    }
}
