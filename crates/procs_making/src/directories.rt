//! MKDIR, outside of `.snapshot`.

ghost use Rattle.std.specs.Prelude.{◌≡◌, ◌<◌, false, is_some};
ghost use Rattle.fs_rules.specs.Making as making;
ghost use Rattle.fs_rules.specs.Snapshots as table;
ghost use Rattle.procs_object.specs.Finding.{says_snapshots};
ghost use Rattle.procs_object.specs.Performing.{Performs};
ghost use Rattle.procs_making.specs.Children as children;
ghost use Rattle.procs_making.specs.Plans.{directory_check};

use crate::checks::{check_free, check_node};
use crate::child::{Making, NewNode, child_in};
use crate::making::make_and_tell;
use crate::room::{Room, find_room};
use fs_shows::Halt;
use nfs3_types::{Body, Cred, FileType, MkdirArgs, Moment, Status, Text};
use pairs::Pairs;
use std::alloc::Global;

/// Why MKDIR is refused, of a name that could be looked up.
#[tactic(auto, unfolding(crate::specs::Plans::directory_check))]
fn check_directory(cred: &Cred, a: &MkdirArgs<Text>, room: &Room) -> Result<(), Status>
    ensures { result ≡ directory_check cred.now a.now room.now.directory.inode.head.kept (is_some room.now.entry) room.now.next }
{
    let directory = room.directory.inode.head.kept;
    check_free(cred, &directory, room.entry.is_some())?;
    check_node(cred, &directory, FileType::Dir, &a.attributes, room.next)
}

/// The directory that is to be made. It takes no memory.
fn new_directory(
    alloc: Global,
    cred: &Cred,
    a: &MkdirArgs<Text>,
    now: Moment,
    lane: u8,
    room: &Room,
) -> NewNode
    ensures { result ≡ children.child_in cred.now now lane room.now (making.new_directory a.now.attributes) }
{
    let making = Making {
        kind: FileType::Dir,
        attributes: a.attributes,
        mode: 0o755,
        target: Text::new(alloc),
        verifier: None,
    };
    child_in(cred, now, lane, room, making)
}

/// MKDIR outside of `.snapshot`, whose new directory gets a number of this lane.
#[tactic(none)]
pub fn mkdir<P: Pairs>(
    alloc: Global,
    pairs: &mut P,
    cred: &Cred,
    a: &MkdirArgs<Text>,
    now: Moment,
    lane: u8,
) -> Result<Body, Halt>
    requires outside { says_snapshots a.now.place.directory ≡ false }
    requires lane { lane < 16 }
    ensures { Performs P.told pairs.old pairs.new 5 (λ t. table.mkdir t cred.now a.now now lane) result }
{
    let room = match find_room(alloc, pairs, cred, &a.place, lane) {
        Ok(room) => room,
        Err(halt) => return Err(halt),
    };
    match check_directory(cred, a, &room) {
        Ok(()) => {}
        Err(status) => return Err(Halt::Refused(status)),
    }
    let child = new_directory(alloc, cred, a, now, lane, &room);
    let name = a.place.name.as_slice();
    match make_and_tell(alloc, pairs, name, &room.directory.attributes, &child) {
        Ok(told) => Ok(Body::Mkdir(told)),
        Err(fault) => Err(Halt::Fault(fault)),
    }
}
