//! LOOKUP.

ghost use Rattle.std.specs.Prelude.{◌≡◌, ◌≤◌, length, OnOk, IfOk};
ghost use Rattle.fs_rules.specs.Checks.{told as tells};
ghost use Rattle.fs_rules.specs.Limits.{longest_name};
ghost use Rattle.fs_rules.specs.Looking as table;
ghost use Rattle.fs_rules.specs.Sound.{IsSound};
ghost use Rattle.pairs.specs.Told.{Goes};
ghost use Rattle.procs_object.specs.Finding.{CheckedOn};
ghost use Rattle.procs_object.specs.Performing.{Performs};
ghost use Rattle.procs_names.specs.Naming as naming;
ghost use Rattle.procs_names.specs.Naming.{IsTold, found_body, seen};

use crate::checks::{need_directory, need_search};
use crate::ways::named;
use fs_rules::checks::need_good_name;
use fs_shows::Halt;
use nfs3_types::{Body, Cred, DirOp, Handle, LookupOk, NoMemory, Status, Text};
use pair_types::PairFault;
use pairs::Pairs;
use procs_object::{Found, look};
use std::alloc::Global;

/// What LOOKUP asks of a directory and a name before it looks the name up.
#[tactic(auto, unfolding(crate::specs::Naming::need_lookup))]
fn need_lookup(cred: &Cred, d: &Found, name: &[u8]) -> Result<(), Status>
    ensures check { result ≡ naming.need_lookup cred.now (seen d.now) name.now }
    ensures short { OnOk result (length name.now ≤ longest_name) }
{
    need_directory(d)?;
    need_good_name(name)?;
    need_search(cred, d)
}

/// What LOOKUP tells of a directory and of what it found there.
fn tell(alloc: Global, fsid: u64, d: &Found, o: &Found) -> Result<Body, NoMemory>
    ensures { IfOk result (λ body. body ≡ found_body fsid o.now.place o.now.attributes d.now.attributes) }
{
    let handle = Handle {
        fsid,
        snapshot: o.place.snapshot(),
        fileid: o.place.fileid(),
    };
    let object = Text::from_slice(alloc, &handle.spell())?;
    Ok(Body::Lookup(LookupOk {
        object,
        attributes: Some(o.attributes),
        directory: Some(d.attributes),
    }))
}

/// What LOOKUP finds.
#[tactic(none)]
fn find_lookup<P: Pairs>(
    alloc: Global,
    pairs: &mut P,
    cred: &Cred,
    a: &DirOp<Text>,
) -> Result<Body, Halt>
    ensures goes { Goes P.told pairs.old pairs.new 0 }
    ensures check { CheckedOn P.told pairs.old pairs.new IsSound IsTold (λ t. table.lookup t cred.now a.now) result }
{
    let name = a.name.as_slice();
    let seen = match look(alloc, pairs, a.directory.as_slice()) {
        Ok(seen) => seen,
        Err(halt) => return Err(halt),
    };
    match need_lookup(cred, &seen.found, name) {
        Ok(()) => {}
        Err(status) => return Err(Halt::Refused(status)),
    }
    let o = match named(alloc, pairs, &seen.begins, &seen.found, name) {
        Ok(o) => o,
        Err(halt) => return Err(halt),
    };
    match tell(alloc, seen.begins.fsid, &seen.found, &o) {
        Ok(body) => Ok(body),
        Err(fault) => Err(Halt::Fault(PairFault::from(fault))),
    }
}

/// LOOKUP.
#[tactic(none)]
pub fn lookup<P: Pairs>(
    alloc: Global,
    pairs: &mut P,
    cred: &Cred,
    a: &DirOp<Text>,
) -> Result<Body, Halt>
    ensures { Performs P.told pairs.old pairs.new 0 (λ t. tells t (table.lookup t cred.now a.now)) result }
{
    match find_lookup(alloc, pairs, cred, a) {
        Ok(body) => Ok(body),
        Err(halt) => Err(halt),
    }
}
