//! CREATE.

ghost use Rattle.std.specs.Prelude.{◌<◌, ◌^◌, ◌≡◌};
ghost use Rattle.fs_rules.specs.Making as table;
ghost use Rattle.procs_bytes.specs.Waiting.{PerformsOrWaits};

use crate::making::{check_file, new_file};
use crate::taking::{find_taken, number_in, size_over, take};
use fs_shows::Halt;
use nfs3_types::{Body, CreateArgs, Cred, Moment, Text};
use pairs::Blocks;
use procs_bytes::Stop;
use procs_making::{find_room, make_and_tell};
use std::alloc::Global;

/// CREATE, whose new file gets a number of this lane; or it is to be made again behind a sweep of the file that is there.
#[tactic(none)]
pub fn create<P: Blocks>(
    alloc: Global,
    pairs: &mut P,
    cred: &Cred,
    a: &CreateArgs<Text>,
    now: Moment,
    lane: u8,
) -> Result<Body, Stop>
    requires { lane < 16 }
    ensures { PerformsOrWaits P.told pairs.old pairs.new 5 (λ t. table.create t cred.now a.now now lane) result }
{
    let room = match find_room(alloc, pairs, cred, &a.place, lane) {
        Ok(room) => room,
        Err(halt) => return Err(Stop::Halted(halt)),
    };
    let directory = room.directory.attributes;
    if let Some(row) = room.entry {
        let fileid = number_in(&row);
        let file = match find_taken(alloc, pairs, cred, a.how, directory.fsid, fileid) {
            Ok(file) => file,
            Err(halt) => return Err(Stop::Halted(halt)),
        };
        let size = size_over(a.how);
        return take(
            alloc,
            pairs,
            &directory,
            fileid,
            &file.attributes,
            size,
            now,
        );
    }
    match check_file(cred, a.how, &room) {
        Ok(()) => {}
        Err(status) => return Err(Stop::Halted(Halt::Refused(status))),
    }
    let child = new_file(alloc, cred, a.how, now, lane, &room);
    let name = a.place.name.as_slice();
    match make_and_tell(alloc, pairs, name, &directory, &child) {
        Ok(told) => Ok(Body::Create(told)),
        Err(fault) => Err(Stop::Halted(Halt::Fault(fault))),
    }
}
