//! SYMLINK.

ghost use Rattle.std.specs.Prelude.{◌≡◌, ◌≤◌, ◌<◌, length, is_some, IfOk, OnOk, IfErr};
ghost use Rattle.fs_rules.specs.Limits.{longest_target};
ghost use Rattle.fs_rules.specs.Making as table;
ghost use Rattle.pair_types.specs.declared.fault.PairFault.TheVariants.{Page as PageCause};
ghost use Rattle.pair_types.specs.PageState.{no_memory};
ghost use Rattle.procs_object.specs.Performing.{Performs};
ghost use Rattle.procs_making.specs.Children as children;
ghost use Rattle.procs_making.specs.Plans.{link_check};

use crate::checks::{check_free, check_node};
use crate::child::{Making, NewNode, child_in};
use crate::making::make_and_tell;
use crate::room::{Room, find_room};
use fs_rules::checks::no_fault;
use fs_rules::target_fault;
use fs_shows::Halt;
use nfs3_types::{Body, Cred, FileType, Moment, Status, SymlinkArgs, Text};
use pair_types::PairFault;
use pairs::Pairs;
use std::alloc::Global;

/// Why SYMLINK is refused, of a name that could be looked up.
#[tactic(auto, unfolding(crate::specs::Plans::link_check), using(crate::proofs::Paths::target_short))]
fn check_link(cred: &Cred, a: &SymlinkArgs<Text>, room: &Room) -> Result<(), Status>
    ensures check { result ≡ link_check cred.now a.now room.now.directory.inode.head.kept (is_some room.now.entry) room.now.next }
    ensures short { OnOk result (length a.now.target ≤ longest_target) }
{
    let directory = room.directory.inode.head.kept;
    check_free(cred, &directory, room.entry.is_some())?;
    no_fault(target_fault(a.target.as_slice()))?;
    check_node(cred, &directory, FileType::Lnk, &a.attributes, room.next)
}

/// The link that is to be made; or want of memory.
fn new_link(
    alloc: Global,
    cred: &Cred,
    a: &SymlinkArgs<Text>,
    now: Moment,
    lane: u8,
    room: &Room,
) -> Result<NewNode, PairFault>
    ensures ok { IfOk result (λ child. child ≡ children.child_in cred.now now lane room.now
        (table.new_link a.now.attributes a.now.target)) }
    ensures err { IfErr result (λ fault. fault ≡ PageCause no_memory) }
{
    let target = match a.target.copy(alloc) {
        Ok(target) => target,
        Err(fault) => return Err(PairFault::from(fault)),
    };
    let making = Making {
        kind: FileType::Lnk,
        attributes: a.attributes,
        mode: 0o777,
        target,
        verifier: None,
    };
    Ok(child_in(cred, now, lane, room, making))
}

/// SYMLINK, whose new link gets a number of this lane.
#[tactic(none)]
pub fn symlink<P: Pairs>(
    alloc: Global,
    pairs: &mut P,
    cred: &Cred,
    a: &SymlinkArgs<Text>,
    now: Moment,
    lane: u8,
) -> Result<Body, Halt>
    requires { lane < 16 }
    ensures { Performs P.told pairs.old pairs.new 5 (λ t. table.symlink t cred.now a.now now lane) result }
{
    let room = match find_room(alloc, pairs, cred, &a.place, lane) {
        Ok(room) => room,
        Err(halt) => return Err(halt),
    };
    match check_link(cred, a, &room) {
        Ok(()) => {}
        Err(status) => return Err(Halt::Refused(status)),
    }
    let child = match new_link(alloc, cred, a, now, lane, &room) {
        Ok(child) => child,
        Err(fault) => return Err(Halt::Fault(fault)),
    };
    let name = a.place.name.as_slice();
    match make_and_tell(alloc, pairs, name, &room.directory.attributes, &child) {
        Ok(told) => Ok(Body::Symlink(told)),
        Err(fault) => Err(Halt::Fault(fault)),
    }
}
