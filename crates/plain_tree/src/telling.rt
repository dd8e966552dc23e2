//! What is told of a file and of the file system: GETATTR, ACCESS, READLINK, FSSTAT, FSINFO and PATHCONF.

ghost use Rattle.std.specs.Prelude.{◌≡◌};
ghost use Rattle.fs_rules.specs.Telling as table;
ghost use Rattle.plain_tree.specs.Giving.{GivesOwn};

use crate::fault::Fault;
use crate::object::Object;
use crate::plain::Plain;
use fs_rules::checks::{is_directory, is_link, need};
use fs_rules::limits::{LONGEST_NAME, MOST_LINKS, MOST_SIZE, TOLD_LISTING, TOLD_TRANSFER};
use fs_rules::{Place, may_read, may_search, may_write};
use nfs3_types::{
    AccessArgs, AccessOk, Body, Cred, FsInfoOk, FsStatOk, Moment, PathConfOk, ReadLinkOk, Status,
    Text,
};
use std::alloc::Global;

/// How much room there always is, in bytes and in files.
const ROOM: u64 = 1 << 60;

/// What the file system can do: hard links, 1, symbolic links, 2, all files alike, 8, and times that can be set,
/// 16 (RFC 1813, section 3.3.19).
const PROPERTIES: u32 = 27;

impl Plain {
    ghost use Rattle.plain_tree.specs.Trees.{tree_of};

    /// GETATTR.
    #[tactic(auto, unfolding(fs_rules::specs::Telling::get_attr))]
    pub(crate) fn get_attr(&self, handle: &Text) -> Result<Body, Status>
        ensures { result ≡ table.get_attr (tree_of self.now) handle.now }
    {
        let o = self.find_object(handle.as_slice())?;
        Ok(Body::GetAttr(self.attributes(&o)))
    }

    /// FSSTAT.
    #[tactic(auto, unfolding(fs_rules::specs::Telling::fs_stat))]
    pub(crate) fn fs_stat(&self, handle: &Text) -> Result<Body, Status>
        ensures { result ≡ table.fs_stat (tree_of self.now) handle.now }
    {
        let o = self.find_object(handle.as_slice())?;
        Ok(Body::FsStat(FsStatOk {
            attributes: Some(self.attributes(&o)),
            tbytes: ROOM,
            fbytes: ROOM,
            abytes: ROOM,
            tfiles: ROOM,
            ffiles: ROOM,
            afiles: ROOM,
            invarsec: 0,
        }))
    }

    /// FSINFO.
    #[tactic(auto, unfolding(fs_rules::specs::Telling::fs_info, fs_rules::specs::Limits::told_transfer, fs_rules::specs::Limits::told_listing, fs_rules::specs::Limits::most_size))]
    pub(crate) fn fs_info(&self, handle: &Text) -> Result<Body, Status>
        ensures { result ≡ table.fs_info (tree_of self.now) handle.now }
    {
        let o = self.find_object(handle.as_slice())?;
        Ok(Body::FsInfo(FsInfoOk {
            attributes: Some(self.attributes(&o)),
            rtmax: TOLD_TRANSFER,
            rtpref: TOLD_TRANSFER,
            rtmult: 4096,
            wtmax: TOLD_TRANSFER,
            wtpref: TOLD_TRANSFER,
            wtmult: 4096,
            dtpref: TOLD_LISTING,
            maxfilesize: MOST_SIZE,
            time_delta: Moment {
                seconds: 0,
                nanos: 1,
            },
            properties: PROPERTIES,
        }))
    }

    /// PATHCONF.
    #[tactic(auto, unfolding(fs_rules::specs::Telling::path_conf, fs_rules::specs::Limits::most_links, fs_rules::specs::Limits::longest_name))]
    pub(crate) fn path_conf(&self, handle: &Text) -> Result<Body, Status>
        ensures { result ≡ table.path_conf (tree_of self.now) handle.now }
    {
        let o = self.find_object(handle.as_slice())?;
        Ok(Body::PathConf(PathConfOk {
            attributes: Some(self.attributes(&o)),
            linkmax: MOST_LINKS,
            name_max: LONGEST_NAME as u32,
            no_trunc: true,
            chown_restricted: true,
            case_insensitive: false,
            case_preserving: true,
        }))
    }

    /// ACCESS.
    #[tactic(auto, unfolding(fs_rules::specs::Telling::access))]
    pub(crate) fn access(&self, cred: &Cred, a: &AccessArgs<Text>) -> Result<Body, Status>
        ensures { result ≡ table.access (tree_of self.now) cred.now a.now }
    {
        let o = self.find_object(a.object.as_slice())?;
        Ok(Body::Access(AccessOk {
            attributes: Some(self.attributes(&o)),
            access: a.access & allowed(cred, &o),
        }))
    }

    /// READLINK.
    #[tactic(auto, unfolding(fs_rules::specs::Telling::read_link))]
    pub(crate) fn read_link(&self, alloc: Global, handle: &Text) -> Result<Body, Fault>
        ensures { GivesOwn (table.read_link (tree_of self.now) handle.now) result }
    {
        let o = self.find_object(handle.as_slice())?;
        need(is_link(o.inode.kind), Status::Inval)?;
        Ok(Body::ReadLink(ReadLinkOk {
            attributes: Some(self.attributes(&o)),
            target: self.content_at(alloc, o.place)?,
        }))
    }
}

/// The bits, where they are allowed.
fn bits_if(bits: u32, allowed: bool) -> u32
    ensures { result ≡ table.bits_if bits allowed }
{
    if allowed { bits } else { 0 }
}

/// Whether it stands in a snapshot.
fn is_kept(place: Place) -> bool
    ensures { result ≡ table.is_kept place }
{
    match place {
        Place::Live(_) => false,
        Place::SnapshotDirectory => false,
        Place::Kept(_, _) => true,
    }
}

/// What of ACCESS a caller is allowed.
#[tactic(auto, unfolding(fs_rules::specs::Telling::allowed))]
fn allowed(cred: &Cred, o: &Object) -> u32
    ensures { result ≡ table.allowed cred.now o.now }
{
    let reads = may_read(cred, &o.inode);
    let writes = may_write(cred, &o.inode);
    let searches = may_search(cred, &o.inode);
    let kept = is_kept(o.place);
    if is_directory(o.inode.kind) {
        bits_if(1, reads) + bits_if(2, searches) + bits_if(28, writes && searches && !kept)
    } else {
        bits_if(1, reads) + bits_if(32, searches) + bits_if(12, writes && !kept)
    }
}
