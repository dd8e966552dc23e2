//! What names lead to, in the live tree.

ghost use Rattle.std.specs.Prelude.{◌≡◌, ◌≤◌, true, length, IfOk};
ghost use Rattle.nfs3_types.specs.declared.status.Status.TheVariants.{NoEnt};
ghost use Rattle.fs_rules.specs.declared.place.Place.TheVariants.{Live};
ghost use Rattle.fs_rules.specs.Checks.{is_live, some_or};
ghost use Rattle.fs_rules.specs.Limits.{longest_name};
ghost use Rattle.fs_rules.specs.Places.{leads_to};
ghost use Rattle.pairs.specs.Told.{Goes};
ghost use Rattle.procs_object.specs.Finding.{IsObject, CheckedOn};
ghost use Rattle.procs_names.specs.Naming.{IsOf, child_at};

use dir_ops::look_up;
use fs_shows::Halt;
use nfs3_types::Status;
use pairs::{At, Pairs};
use procs_object::{Found, find_child};
use std::alloc::Global;

/// What a number leads to, where this is the number of the file system: NOENT where it leads to nothing.
#[tactic(none)]
pub(crate) fn stand<P: Pairs>(
    alloc: Global,
    pairs: &mut P,
    fsid: u64,
    fileid: u64,
) -> Result<Found, Halt>
    ensures goes { Goes P.told pairs.old pairs.new 0 }
    ensures check { CheckedOn P.told pairs.old pairs.new (IsOf fsid) IsObject
        (λ t. some_or (leads_to t (Live fileid)) NoEnt) result }
    ensures live { IfOk result (λ x. is_live x.place ≡ true) }
{
    let found = match find_child(alloc, pairs, fsid, fileid) {
        Ok(found) => found,
        Err(fault) => return Err(Halt::Fault(fault)),
    };
    match found {
        Some(o) => Ok(o),
        None => Err(Halt::Refused(Status::NoEnt)),
    }
}

/// What the entry of a name in a directory leads to, where this is the number of the file system: NOENT where there is none.
#[tactic(none)]
pub(crate) fn child<P: Pairs>(
    alloc: Global,
    pairs: &mut P,
    fsid: u64,
    directory: u64,
    name: &[u8],
) -> Result<Found, Halt>
    requires { length name.now ≤ longest_name }
    ensures goes { Goes P.told pairs.old pairs.new 0 }
    ensures check { CheckedOn P.told pairs.old pairs.new (IsOf fsid) IsObject (λ t. child_at t (Live directory) name.now) result }
    ensures live { IfOk result (λ x. is_live x.place ≡ true) }
{
    let found = match look_up(alloc, pairs, At::Live, directory, name) {
        Ok(found) => found,
        Err(fault) => return Err(Halt::Fault(fault)),
    };
    match found {
        Some(row) => stand(alloc, pairs, fsid, row.fileid),
        None => Err(Halt::Refused(Status::NoEnt)),
    }
}
