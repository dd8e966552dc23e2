//! A file that is there, and that CREATE takes.

ghost use Rattle.std.specs.Prelude.{◌≡◌, ◌<◌, ◌^◌, true, IfOk, OnOk, IfErr};
ghost use Rattle.fs_rules.specs.declared.place.Place.TheVariants.{Live as LivePlace};
ghost use Rattle.fs_rules.specs.Attributes.{is_file as is_file_kind};
ghost use Rattle.fs_rules.specs.Making as table;
ghost use Rattle.fs_rules.specs.Tree.{Tree};
ghost use Rattle.pairs.specs.Told.{Goes};
ghost use Rattle.fs_shows.specs.Steps.{EditGivesUp};
ghost use Rattle.procs_object.specs.Finding.{IsObject, CheckedOn};
ghost use Rattle.procs_create.specs.Taking as taking;
ghost use Rattle.procs_create.specs.Taking.{taken_check, taken_found, told_taken, MayTake, TakesOrWaits, TakesAs};

use fs_keys::{Head, NameRow};
use fs_rules::checks::{is_file, need, refuse_if};
use fs_rules::{Inode, is_too_large, wcc_of};
use fs_shows::Halt;
use nfs3_types::{Body, CreateHow, CreateOk, Cred, Fattr, Handle, Moment, NoMemory, Status, Text};
use pair_types::PairFault;
use pairs::{Blocks, Pairs};
use procs_bytes::{Stop, give_size, lacks_cuts, may_fill};
use procs_object::{Found, find_child};
use std::alloc::Global;

/// The number that an entry leads to.
pub(crate) fn number_in(row: &NameRow) -> u64
    ensures { result ≡ row.now.fileid }
{
    row.fileid
}

/// The size that a file that is there gets: by UNCHECKED the one that is given.
pub(crate) fn size_over(how: CreateHow) -> Option<u64>
    ensures { result ≡ table.size_over how }
{
    match how {
        CreateHow::Unchecked(s) => s.size,
        CreateHow::Guarded(_) => None,
        CreateHow::Exclusive(_) => None,
    }
}

/// Whether a file that is there may be taken: by UNCHECKED every one, by EXCLUSIVE what its own verifier made.
fn may_reuse(how: CreateHow, file: &Inode) -> bool
    ensures { result ≡ table.may_reuse how file.now }
{
    match how {
        CreateHow::Unchecked(_) => true,
        CreateHow::Guarded(_) => false,
        CreateHow::Exclusive(verifier) => match file.verifier {
            Some(own) => own.as_slice() == verifier.as_slice(),
            None => false,
        },
    }
}

/// Whether a size that is given is a cut of the file, and one too many.
fn cuts_lack(size: Option<u64>, head: &Head) -> bool
    ensures { result ≡ taking.cuts_lack size head.now.kept head.now.size }
{
    match size {
        Some(size) => lacks_cuts(size, head),
        None => false,
    }
}

/// Why CREATE is refused, of a file that is there.
#[tactic(auto, unfolding(crate::specs::Taking::taken_check))]
fn check_taken(cred: &Cred, how: CreateHow, head: &Head) -> Result<(), Status>
    ensures { result ≡ taken_check cred.now how head.now.kept head.now.size }
{
    need(is_file(head.kept.kind), Status::Exist)?;
    need(may_reuse(how, &head.kept), Status::Exist)?;
    let size = size_over(how);
    refuse_if(size.is_some() && !may_fill(cred, &head.kept), Status::Acces)?;
    refuse_if(is_too_large(size), Status::Inval)?;
    refuse_if(cuts_lack(size, head), Status::NoSpc)
}

/// The file of this number, once the checks have passed of a name that is there and leads to it.
#[tactic(none)]
pub(crate) fn find_taken<P: Pairs>(
    alloc: Global,
    pairs: &mut P,
    cred: &Cred,
    how: CreateHow,
    fsid: u64,
    fileid: u64,
) -> Result<Found, Halt>
    ensures goes { Goes P.told pairs.old pairs.new 0 }
    ensures check { CheckedOn P.told pairs.old pairs.new (λ t. t.fsid ≡ fsid) IsObject
        (λ t. taken_found t cred.now how fileid) result }
    ensures place { IfOk result (λ x. x.place ≡ LivePlace fileid) }
    ensures file { IfOk result (λ x. is_file_kind x.inode.head.kept.kind ≡ true) }
{
    let found = match find_child(alloc, pairs, fsid, fileid) {
        Ok(found) => found,
        Err(fault) => return Err(Halt::Fault(fault)),
    };
    let Some(file) = found else {
        return Err(Halt::Refused(Status::Exist));
    };
    match check_taken(cred, how, &file.inode.head) {
        Ok(()) => Ok(file),
        Err(status) => Err(Halt::Refused(status)),
    }
}

/// The attributes of a file that is there, behind it.
fn attributes_behind(size: Option<u64>, now: Moment, before: &Fattr) -> Fattr
    ensures { result ≡ taking.taken_attributes size now before.now }
{
    match size {
        Some(size) => Fattr {
            size,
            used: size,
            mtime: now,
            ctime: now,
            ..*before
        },
        None => *before,
    }
}

/// What is told of a file that is there and has these attributes, in a directory of those.
fn tell_taken(
    alloc: Global,
    directory: &Fattr,
    fileid: u64,
    attributes: Fattr,
) -> Result<CreateOk, NoMemory>
    ensures { IfOk result (λ ok. ok ≡ told_taken directory.now fileid attributes) }
{
    let handle = Handle {
        fsid: directory.fsid,
        snapshot: 0,
        fileid,
    };
    let object = Text::from_slice(alloc, &handle.spell())?;
    Ok(CreateOk {
        object: Some(object),
        attributes: Some(attributes),
        directory: wcc_of(Some(*directory), Some(*directory)),
    })
}

/// A file that is there gets its size, if one is given. `false`, and nothing is changed, where a sweep of it has to come first.
#[tactic(none)]
fn resize<P: Blocks>(
    alloc: Global,
    pairs: &mut P,
    fileid: u64,
    size: Option<u64>,
    now: Moment,
) -> Result<bool, PairFault>
    ensures goes { Goes P.told pairs.old pairs.new 4 }
    ensures ok { IfOk result (TakesOrWaits P.told pairs.old pairs.new fileid size now) }
    ensures fault { IfErr result (EditGivesUp P.told pairs.old pairs.new (MayTake fileid size)) }
{
    match size {
        Some(size) => give_size(alloc, pairs, fileid, size, now),
        None => Ok(true),
    }
}

/// A file that is there and has these attributes is taken, in a directory of those, and told of; or a sweep of it has to come
/// first.
#[tactic(none)]
pub(crate) fn take<P: Blocks>(
    alloc: Global,
    pairs: &mut P,
    directory: &Fattr,
    fileid: u64,
    before: &Fattr,
    size: Option<u64>,
    now: Moment,
) -> Result<Body, Stop>
    ensures goes { Goes P.told pairs.old pairs.new 4 }
    ensures ends { TakesAs P.told pairs.old pairs.new fileid size now
        (told_taken directory.now fileid (taking.taken_attributes size now before.now)) result }
{
    let attributes = attributes_behind(size, now, before);
    let ok = match tell_taken(alloc, directory, fileid, attributes) {
        Ok(ok) => ok,
        Err(fault) => return Err(Stop::Halted(Halt::Fault(PairFault::from(fault)))),
    };
    let is_given = match resize(alloc, pairs, fileid, size, now) {
        Ok(is_given) => is_given,
        Err(fault) => return Err(Stop::Halted(Halt::Fault(fault))),
    };
    if is_given {
        Ok(Body::Create(ok))
    } else {
        Err(Stop::SweepFirst(fileid))
    }
}
