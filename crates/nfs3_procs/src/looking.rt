//! Calls that change nothing.

ghost use Rattle.std.specs.Prelude.{◌≡◌, false};
ghost use Rattle.fs_rules.specs.Answers.{is_changing, row_of};
ghost use Rattle.procs_object.specs.Performing.{Performs};

use fs_shows::Halt;
use nfs3_types::{Body, CallOver, Cred, Moment, OwnCall, Status};
use pairs::Blocks;
use procs_bytes::{commit, read};
use procs_listing::{read_dir, read_dir_plus};
use procs_names::lookup;
use procs_object::{access, fs_info, fs_stat, get_attr, path_conf, read_link};
use std::alloc::Global;

/// What a call does that changes nothing.
pub fn look<P: Blocks>(
    alloc: Global,
    pairs: &mut P,
    cred: &Cred,
    call: &OwnCall,
    now: Moment,
    lane: u8,
) -> Result<Body, Halt>
    requires { is_changing call.now ≡ false }
    ensures { Performs P.told pairs.old pairs.new 0 (λ t. row_of t cred.now now lane call.now) result }
{
    match call {
        CallOver::Null => Ok(Body::Null),
        CallOver::Mknod(_) => Err(Halt::Refused(Status::NotSupp)),
        CallOver::GetAttr(handle) => get_attr(alloc, pairs, handle.as_slice()),
        CallOver::Lookup(a) => lookup(alloc, pairs, cred, a),
        CallOver::Access(a) => access(alloc, pairs, cred, a),
        CallOver::ReadLink(handle) => read_link(alloc, pairs, handle.as_slice()),
        CallOver::Read(a) => read(alloc, pairs, cred, a),
        CallOver::ReadDir(a) => read_dir(alloc, pairs, cred, a),
        CallOver::ReadDirPlus(a) => read_dir_plus(alloc, pairs, cred, a),
        CallOver::FsStat(handle) => fs_stat(alloc, pairs, handle.as_slice()),
        CallOver::FsInfo(handle) => fs_info(alloc, pairs, handle.as_slice()),
        CallOver::PathConf(handle) => path_conf(alloc, pairs, handle.as_slice()),
        CallOver::Commit(a) => commit(alloc, pairs, a),
        _ => unreachable!(),
    }
}
