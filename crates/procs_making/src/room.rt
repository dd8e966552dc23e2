//! Room for a new node.

ghost use Rattle.std.specs.Prelude.{◌<◌, IfOk};
ghost use Rattle.fs_rules.specs.Sound.{IsSound};
ghost use Rattle.pairs.specs.Told.{Goes};
ghost use Rattle.procs_object.specs.Finding.{IsPlaceFor, CheckedOn};
ghost use Rattle.procs_making.specs.Rooms.{IsRoom, room_found};

use crate::checks::check_name;
use dir_ops::look_up;
use fs_keys::NameRow;
use fs_shows::Halt;
use inode_ops::peek;
use nfs3_types::{Cred, DirOp, Text};
use pairs::{At, Pairs};
use procs_object::{Found, find_directory};
use std::alloc::Global;

/// What there is for a new node.
#[derive(Drop)]
pub struct Room {
    /// The directory.
    pub directory: Found,
    /// What the directory has under the name already.
    pub entry: Option<NameRow>,
    /// The number that the lane gives next.
    pub next: u64,
}

/// What there is where a node is to be made, once the checks of its directory and its name have passed.
#[tactic(none)]
pub fn find_room<P: Pairs>(
    alloc: Global,
    pairs: &mut P,
    cred: &Cred,
    place: &DirOp<Text>,
    lane: u8,
) -> Result<Room, Halt>
    requires { lane < 16 }
    ensures goes { Goes P.told pairs.old pairs.new 0 }
    ensures check { CheckedOn P.told pairs.old pairs.new IsSound (IsRoom place.now.name lane)
        (λ t. room_found t cred.now place.now) result }
    ensures place { IfOk result (λ room. IsPlaceFor place.now.name room.directory) }
{
    let name = place.name.as_slice();
    let directory = match find_directory(alloc, pairs, place.directory.as_slice(), name) {
        Ok(directory) => directory,
        Err(halt) => return Err(halt),
    };
    match check_name(cred, &directory, name) {
        Ok(()) => {}
        Err(status) => return Err(Halt::Refused(status)),
    }
    let entry = match look_up(alloc, pairs, At::Live, directory.place.fileid(), name) {
        Ok(entry) => entry,
        Err(fault) => return Err(Halt::Fault(fault)),
    };
    match peek(alloc, pairs, lane) {
        Ok(next) => Ok(Room {
            directory,
            entry,
            next,
        }),
        Err(fault) => Err(Halt::Fault(fault)),
    }
}
