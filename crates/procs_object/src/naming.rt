//! Directories, as calls name them.

ghost use Rattle.std.specs.Prelude.{◌≡◌, IfOk, OnOk};
ghost use Rattle.fs_rules.specs.Checks.{find_directory as directory_found, need_place_for as place_needed};
ghost use Rattle.fs_rules.specs.Places.{Object, above as place_above, beside as place_beside};
ghost use Rattle.fs_rules.specs.declared.name_entry.NameEntry.{NameEntry};
ghost use Rattle.fs_rules.specs.Sound.{IsSound};
ghost use Rattle.pairs.specs.Told.{Goes};
ghost use Rattle.procs_object.specs.Finding.{IsObject, IsPlaceFor, CheckedOn};

use crate::object::{Found, see};
use fs_rules::checks::is_live;
use fs_rules::{Inode, Place, name_fault};
use fs_shows::Halt;
use nfs3_types::{FileType, Status};
use pairs::Pairs;
use std::alloc::Global;

/// That what was found is a live directory, and this a name that can stand there: NOTDIR, ROFS, INVAL and NAMETOOLONG where not.
#[tactic(auto, unfolding(fs_rules::specs::Checks::need_place_for, fs_rules::specs::Names::name_fault, fs_rules::specs::Limits::longest_name))]
pub fn need_place_for(o: &Found, name: &[u8]) -> Result<(), Status>
    ensures check { (object : Object) → object.place ≡ o.now.place → object.inode ≡ o.now.inode.head.kept
        → place_needed object name.now ≡ result }
    ensures place { OnOk result (IsPlaceFor name.now o.now) }
{
    if o.inode.head.kept.kind != FileType::Dir {
        return Err(Status::NotDir);
    }
    if !is_live(o.place) {
        return Err(Status::Rofs);
    }
    match name_fault(name) {
        Some(status) => Err(status),
        None => Ok(()),
    }
}

/// The live directory that a handle leads to, in which this name can stand.
#[tactic(none)]
pub fn find_directory<P: Pairs>(
    alloc: Global,
    pairs: &mut P,
    handle: &[u8],
    name: &[u8],
) -> Result<Found, Halt>
    ensures goes { Goes P.told pairs.old pairs.new 0 }
    ensures check { CheckedOn P.told pairs.old pairs.new IsSound IsObject
        (λ t. directory_found t (record { directory = handle.now; name = name.now })) result }
    ensures place { IfOk result (IsPlaceFor name.now) }
{
    let o = match see(alloc, pairs, handle) {
        Ok(o) => o,
        Err(halt) => return Err(halt),
    };
    match need_place_for(&o, name) {
        Ok(()) => Ok(o),
        Err(status) => Err(Halt::Refused(status)),
    }
}

/// The directory above one of this inode: the root is above itself, `.snapshot` above a snapshot's root, and the root above it.
pub fn above(place: Place, i: &Inode) -> Place
    ensures { result ≡ place_above place i.now }
{
    match place {
        Place::Live(_) => Place::Live(i.parent),
        Place::SnapshotDirectory => Place::Live(1),
        Place::Kept(number, fileid) => {
            if fileid == 1 {
                Place::SnapshotDirectory
            } else {
                Place::Kept(number, i.parent)
            }
        }
    }
}

/// Where an entry of this number leads: one of `.snapshot` to the snapshot's root.
pub fn beside(directory: Place, fileid: u64) -> Place
    ensures { (e : NameEntry) → e.fileid ≡ fileid → place_beside directory e ≡ result }
{
    match directory {
        Place::Live(_) => Place::Live(fileid),
        Place::SnapshotDirectory => Place::Kept(fileid, 1),
        Place::Kept(number, _) => Place::Kept(number, fileid),
    }
}
