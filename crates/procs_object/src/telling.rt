//! What is told of an object and of the file system: GETATTR, ACCESS, READLINK, FSSTAT, FSINFO and PATHCONF.

ghost use Rattle.std.specs.Prelude.{◌≡◌};
ghost use Rattle.fs_rules.specs.Attributes.{is_link as is_link_kind};
ghost use Rattle.fs_rules.specs.Checks.{told as tells};
ghost use Rattle.fs_rules.specs.Places.{Object};
ghost use Rattle.fs_rules.specs.Telling as table;
ghost use Rattle.procs_object.specs.Performing.{Performs};

use crate::object::see;
use fs_keys::Head;
use fs_rules::limits::{LONGEST_NAME, MOST_LINKS, MOST_SIZE, TOLD_LISTING, TOLD_TRANSFER};
use fs_rules::{Inode, Place, may_read, may_search, may_write};
use fs_shows::Halt;
use nfs3_types::{
    AccessArgs, AccessOk, Body, Cred, FileType, FsInfoOk, FsStatOk, Moment, PathConfOk, ReadLinkOk,
    Status, Text,
};
use pairs::Pairs;
use std::alloc::Global;

/// How much room there always is, in bytes and in files.
const ROOM: u64 = 1 << 60;

/// What the file system can do: hard links, 1, symbolic links, 2, all files alike, 8, and times that can be set, 16 (RFC 1813,
/// section 3.3.19).
const PROPERTIES: u32 = 27;

/// GETATTR.
#[tactic(none)]
pub fn get_attr<P: Pairs>(alloc: Global, pairs: &mut P, handle: &[u8]) -> Result<Body, Halt>
    ensures { Performs P.told pairs.old pairs.new 0 (λ t. tells t (table.get_attr t handle.now)) result }
{
    match see(alloc, pairs, handle) {
        Ok(o) => Ok(Body::GetAttr(o.attributes)),
        Err(halt) => Err(halt),
    }
}

/// ACCESS.
#[tactic(none)]
pub fn access<P: Pairs>(
    alloc: Global,
    pairs: &mut P,
    cred: &Cred,
    a: &AccessArgs<Text>,
) -> Result<Body, Halt>
    ensures { Performs P.told pairs.old pairs.new 0 (λ t. tells t (table.access t cred.now a.now)) result }
{
    match see(alloc, pairs, a.object.as_slice()) {
        Ok(o) => Ok(Body::Access(AccessOk {
            attributes: Some(o.attributes),
            access: a.access & allowed(cred, o.place, &o.inode.head.kept),
        })),
        Err(halt) => Err(halt),
    }
}

/// READLINK.
#[tactic(none)]
pub fn read_link<P: Pairs>(alloc: Global, pairs: &mut P, handle: &[u8]) -> Result<Body, Halt>
    ensures { Performs P.told pairs.old pairs.new 0 (λ t. tells t (table.read_link t handle.now)) result }
{
    let o = match see(alloc, pairs, handle) {
        Ok(o) => o,
        Err(halt) => return Err(halt),
    };
    if is_link(&o.inode.head) {
        Ok(Body::ReadLink(ReadLinkOk {
            attributes: Some(o.attributes),
            target: o.inode.target,
        }))
    } else {
        Err(Halt::Refused(Status::Inval))
    }
}

/// FSSTAT.
#[tactic(none)]
pub fn fs_stat<P: Pairs>(alloc: Global, pairs: &mut P, handle: &[u8]) -> Result<Body, Halt>
    ensures { Performs P.told pairs.old pairs.new 0 (λ t. tells t (table.fs_stat t handle.now)) result }
{
    match see(alloc, pairs, handle) {
        Ok(o) => Ok(Body::FsStat(FsStatOk {
            attributes: Some(o.attributes),
            tbytes: ROOM,
            fbytes: ROOM,
            abytes: ROOM,
            tfiles: ROOM,
            ffiles: ROOM,
            afiles: ROOM,
            invarsec: 0,
        })),
        Err(halt) => Err(halt),
    }
}

/// FSINFO.
#[tactic(none)]
pub fn fs_info<P: Pairs>(alloc: Global, pairs: &mut P, handle: &[u8]) -> Result<Body, Halt>
    ensures { Performs P.told pairs.old pairs.new 0 (λ t. tells t (table.fs_info t handle.now)) result }
{
    match see(alloc, pairs, handle) {
        Ok(o) => Ok(Body::FsInfo(FsInfoOk {
            attributes: Some(o.attributes),
            rtmax: TOLD_TRANSFER,
            rtpref: TOLD_TRANSFER,
            rtmult: 4096,
            wtmax: TOLD_TRANSFER,
            wtpref: TOLD_TRANSFER,
            wtmult: 4096,
            dtpref: TOLD_LISTING,
            maxfilesize: MOST_SIZE,
            time_delta: Moment {
                seconds: 0,
                nanos: 1,
            },
            properties: PROPERTIES,
        })),
        Err(halt) => Err(halt),
    }
}

/// PATHCONF.
#[tactic(none)]
pub fn path_conf<P: Pairs>(alloc: Global, pairs: &mut P, handle: &[u8]) -> Result<Body, Halt>
    ensures { Performs P.told pairs.old pairs.new 0 (λ t. tells t (table.path_conf t handle.now)) result }
{
    match see(alloc, pairs, handle) {
        Ok(o) => Ok(Body::PathConf(PathConfOk {
            attributes: Some(o.attributes),
            linkmax: MOST_LINKS,
            name_max: LONGEST_NAME as u32,
            no_trunc: true,
            chown_restricted: true,
            case_insensitive: false,
            case_preserving: true,
        })),
        Err(halt) => Err(halt),
    }
}

// ---- what a caller is allowed

/// Whether it is a symbolic link.
fn is_link(head: &Head) -> bool
    ensures { result ≡ is_link_kind head.now.kept.kind }
{
    head.kept.kind == FileType::Lnk
}

/// The bits, where they are allowed.
fn bits_if(bits: u32, allowed: bool) -> u32
    ensures { result ≡ table.bits_if bits allowed }
{
    if allowed { bits } else { 0 }
}

/// Whether it stands in a snapshot.
fn is_kept(place: Place) -> bool
    ensures { result ≡ table.is_kept place }
{
    match place {
        Place::Live(_) => false,
        Place::SnapshotDirectory => false,
        Place::Kept(_, _) => true,
    }
}

/// What of ACCESS a caller is allowed with what stands at a place.
#[tactic(auto, unfolding(fs_rules::specs::Telling::allowed))]
fn allowed(cred: &Cred, place: Place, inode: &Inode) -> u32
    ensures { (o : Object) → o.place ≡ place → o.inode ≡ inode.now → result ≡ table.allowed cred.now o }
{
    let reads = may_read(cred, inode);
    let writes = may_write(cred, inode);
    let searches = may_search(cred, inode);
    let kept = is_kept(place);
    if inode.kind == FileType::Dir {
        bits_if(1, reads) + bits_if(2, searches) + bits_if(28, writes && searches && !kept)
    } else {
        bits_if(1, reads) + bits_if(32, searches) + bits_if(12, writes && !kept)
    }
}
