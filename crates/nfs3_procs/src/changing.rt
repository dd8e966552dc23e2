//! Calls that can change the tree.

ghost use Rattle.std.specs.Prelude.{◌≡◌, ◌<◌, true};
ghost use Rattle.fs_rules.specs.Answers as table;
ghost use Rattle.fs_rules.specs.Answers.{row_of};
ghost use Rattle.procs_bytes.specs.Waiting.{PerformsOrWaits};
ghost use Rattle.nfs3_procs.specs.Answering as answering;

use fs_shows::Halt;
use nfs3_types::{Body, CallOver, Cred, Moment, OwnCall};
use pairs::Blocks;
use procs_bytes::{Stop, set_attr, write};
use procs_create::create;
use procs_making::symlink;
use procs_mkdir::mkdir;
use procs_names::{link, remove, rmdir};
use procs_rename::rename;
use std::alloc::Global;

/// Whether a call can change the tree.
pub fn is_changing(call: &OwnCall) -> bool
    ensures { result ≡ table.is_changing call.now }
{
    matches!(
        call,
        CallOver::SetAttr(_)
            | CallOver::Write(_)
            | CallOver::Create(_)
            | CallOver::Mkdir(_)
            | CallOver::Symlink(_)
            | CallOver::Remove(_)
            | CallOver::Rmdir(_)
            | CallOver::Rename(_)
            | CallOver::Link(_)
    )
}

/// What a procedure gave that has not to wait, as one gives it that may have to.
pub fn stopped(given: Result<Body, Halt>) -> Result<Body, Stop>
    ensures { result ≡ answering.stopped given }
{
    match given {
        Ok(body) => Ok(body),
        Err(halt) => Err(Stop::Halted(halt)),
    }
}

/// What a call does that can change the tree; or it is to be made again behind a sweep of its file.
pub fn change<P: Blocks>(
    alloc: Global,
    pairs: &mut P,
    cred: &Cred,
    call: &OwnCall,
    now: Moment,
    lane: u8,
) -> Result<Body, Stop>
    requires lane { lane < 16 }
    requires changes { table.is_changing call.now ≡ true }
    ensures { PerformsOrWaits P.told pairs.old pairs.new 9 (λ t. row_of t cred.now now lane call.now) result }
{
    match call {
        CallOver::SetAttr(a) => set_attr(alloc, pairs, cred, a, now),
        CallOver::Write(a) => stopped(write(alloc, pairs, cred, a, now)),
        CallOver::Create(a) => create(alloc, pairs, cred, a, now, lane),
        CallOver::Mkdir(a) => stopped(mkdir(alloc, pairs, cred, a, now, lane)),
        CallOver::Symlink(a) => stopped(symlink(alloc, pairs, cred, a, now, lane)),
        CallOver::Remove(a) => stopped(remove(alloc, pairs, cred, a, now)),
        CallOver::Rmdir(a) => stopped(rmdir(alloc, pairs, cred, a, now)),
        CallOver::Rename(a) => stopped(rename(alloc, pairs, cred, a, now)),
        CallOver::Link(a) => stopped(link(alloc, pairs, cred, a, now)),
        _ => unreachable!(),
    }
}
