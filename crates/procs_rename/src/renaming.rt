//! RENAME.

ghost use Rattle.std.specs.Prelude.{◌≡◌, Some, IfOk, IfErr, OnOk};
ghost use Rattle.nfs3_types.specs.declared.body.Body.TheVariants.{Rename};
ghost use Rattle.fs_rules.specs.Attributes.{wcc_of as wcc};
ghost use Rattle.fs_rules.specs.Places.{shown};
ghost use Rattle.fs_rules.specs.Renaming as table;
ghost use Rattle.fs_rules.specs.declared.place.Place.TheVariants.{Live as LivePlace};
ghost use Rattle.pairs.specs.Told.{Goes};
ghost use Rattle.fs_shows.specs.Steps.{Learns, Reads, Edits, GivesUpOn, EditGivesUp};
ghost use Rattle.procs_object.specs.Performing.{Performs};
ghost use Rattle.procs_rename.specs.Doing.{CanTell, CanDo, told_of};
ghost use Rattle.procs_rename.specs.Seeing.{AreShort};

use crate::moving::move_node;
use crate::planning::{Planned, make_plan};
use fs_rules::wcc_of;
use fs_shows::Halt;
use nfs3_types::{Body, Cred, Fattr, Moment, RenameArgs, RenameOk, Text};
use pair_types::PairFault;
use pairs::Pairs;
use procs_object::find_child;
use std::alloc::Global;

/// The attributes of a live node that is there.
fn see_again<P: Pairs>(
    alloc: Global,
    pairs: &mut P,
    fsid: u64,
    fileid: u64,
) -> Result<Fattr, PairFault>
    ensures goes { Goes P.told pairs.old pairs.new 0 }
    ensures ok { IfOk result (λ attributes. Reads P.told pairs.old pairs.new (CanTell fsid fileid)
        (λ t. shown t (LivePlace fileid) ≡ Some attributes)) }
    ensures fault { IfErr result (GivesUpOn P.told pairs.old pairs.new (CanTell fsid fileid)) }
{
    let found = match find_child(alloc, pairs, fsid, fileid) {
        Ok(found) => found,
        Err(fault) => return Err(fault),
    };
    match found {
        Some(x) => Ok(x.attributes),
        None => Err(PairFault::Odd),
    }
}

/// The plan is done, and both directories are looked at again.
fn perform<P: Pairs>(
    alloc: Global,
    pairs: &mut P,
    a: &RenameArgs<Text>,
    x: &Planned,
    now: Moment,
) -> Result<Body, PairFault>
    requires { AreShort a.now }
    ensures goes { Goes P.told pairs.old pairs.new 9 }
    ensures edits { OnOk result (Edits P.told pairs.old pairs.new (CanDo a.now x.now) (table.move_node now a.now x.now.plan)) }
    ensures told { IfOk result (λ body. Learns P.told pairs.old pairs.new (CanDo a.now x.now)
        (λ t. told_of x.now.plan t (table.move_node now a.now x.now.plan t) ≡ body)) }
    ensures fault { IfErr result (EditGivesUp P.told pairs.old pairs.new (CanDo a.now x.now)) }
{
    match move_node(alloc, pairs, a, &x.plan, now) {
        Ok(()) => {}
        Err(fault) => return Err(fault),
    }
    let from = match see_again(alloc, pairs, x.from.fsid, x.plan.from) {
        Ok(from) => from,
        Err(fault) => return Err(fault),
    };
    let to = match see_again(alloc, pairs, x.from.fsid, x.plan.to) {
        Ok(to) => to,
        Err(fault) => return Err(fault),
    };
    Ok(Body::Rename(RenameOk {
        from: wcc_of(Some(x.from), Some(from)),
        to: wcc_of(Some(x.to), Some(to)),
    }))
}

/// What is told where nothing is done.
fn unchanged(x: &Planned) -> Body
    ensures { result ≡ Rename (record {
      from = wcc (Some x.now.from) (Some x.now.from);
      to = wcc (Some x.now.to)
          (Some x.now.to);
    }) }
{
    Body::Rename(RenameOk {
        from: wcc_of(Some(x.from), Some(x.from)),
        to: wcc_of(Some(x.to), Some(x.to)),
    })
}

/// RENAME.
pub fn rename<P: Pairs>(
    alloc: Global,
    pairs: &mut P,
    cred: &Cred,
    a: &RenameArgs<Text>,
    now: Moment,
) -> Result<Body, Halt>
    ensures { Performs P.told pairs.old pairs.new 9 (λ t. table.rename t cred.now a.now now) result }
{
    let x = match make_plan(alloc, pairs, cred, a) {
        Ok(x) => x,
        Err(halt) => return Err(halt),
    };
    if x.plan.is_same {
        return Ok(unchanged(&x));
    }
    match perform(alloc, pairs, a, &x, now) {
        Ok(body) => Ok(body),
        Err(fault) => Err(Halt::Fault(fault)),
    }
}
