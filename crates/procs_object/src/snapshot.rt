//! What stands in snapshots, and the directory of them.

ghost use Rattle.std.specs.Prelude.{◌≡◌, ◌+◌, ◌≤◌, Some, IfSome, IfNone, IfOk, IfErr};
ghost use Rattle.fs_rules.specs.Limits.{most_snapshots, last_epoch};
ghost use Rattle.fs_rules.specs.Places.{leads_to};
ghost use Rattle.fs_rules.specs.Tree.{root_inode};
ghost use Rattle.fs_rules.specs.declared.place.Place.TheVariants.{SnapshotDirectory, Kept as KeptPlace};
ghost use Rattle.pairs.specs.Told.{Goes};
ghost use Rattle.fs_shows.specs.Steps.{Reads, GivesUpOn};
ghost use Rattle.procs_object.specs.Finding.{Begins, IsLed, directory_found};

use crate::object::Found;
use fs_keys::{First, Head, Inode};
use fs_rules::limits::MOST_SNAPSHOTS;
use fs_rules::{Inode as Kept, Place, Times};
use inode_ops::load;
use nfs3_types::{FileType, Text};
use pair_types::PairFault;
use pairs::{At, Pairs};
use snap_ops::{kept, snapshot_times, snapshots};
use std::alloc::Global;

/// What `.snapshot` is, where so many snapshots are kept at this epoch; `None` where there are more than there may be.
#[tactic(auto, unfolding(fs_rules::specs::Tree::root_inode, fs_rules::specs::Limits::most_snapshots, fs_rules::specs::Limits::last_epoch))]
fn directory_inode(count: usize, epoch: u64, times: Times) -> Option<Kept>
    ensures ok { IfSome result (λ i. i ≡ root_inode (2 + count) (epoch + 2) times) }
    ensures none { IfNone result (count ≤ most_snapshots → epoch ≤ last_epoch → ⊥) }
{
    if count > MOST_SNAPSHOTS {
        return None;
    }
    Some(Kept {
        kind: FileType::Dir,
        mode: 0o755,
        nlink: 2 + count as u32,
        uid: 0,
        gid: 0,
        atime: times.atime,
        mtime: times.mtime,
        ctime: times.ctime,
        parent: 1,
        next_cookie: epoch.checked_add(2)?,
        verifier: None,
        cuts: 0,
    })
}

/// `.snapshot`, where this is what it is.
fn directory_of(alloc: Global, fsid: u64, kept: Kept) -> Found
    ensures { result ≡ directory_found fsid kept }
{
    Found {
        place: Place::SnapshotDirectory,
        inode: Inode {
            head: Head {
                kept,
                size: 4096,
                floor: 0,
            },
            target: Text::new(alloc),
        },
        attributes: kept.attributes(fsid, 2, 4096),
    }
}

/// The directory `.snapshot`, where this is the first record.
#[tactic(none)]
pub(crate) fn find_snapshots<P: Pairs>(
    alloc: Global,
    pairs: &mut P,
    begins: &First,
) -> Result<Found, PairFault>
    ensures goes { Goes P.told pairs.old pairs.new 0 }
    ensures ok { IfOk result (λ x. Reads P.told pairs.old pairs.new (Begins begins.now)
        (λ t. IsLed t (Some x) (leads_to t SnapshotDirectory))) }
    ensures place { IfOk result (λ x. x.place ≡ SnapshotDirectory) }
    ensures fault { IfErr result (GivesUpOn P.told pairs.old pairs.new (Begins begins.now)) }
{
    let entries = match snapshots(alloc, pairs) {
        Ok(entries) => entries,
        Err(fault) => return Err(fault),
    };
    let times = match snapshot_times(alloc, pairs) {
        Ok(times) => times,
        Err(fault) => return Err(fault),
    };
    match directory_inode(entries.len(), begins.epoch, times) {
        Some(kept) => Ok(directory_of(alloc, begins.fsid, kept)),
        None => Err(PairFault::Odd),
    }
}

/// What a number leads to in a snapshot, where this is the first record, or that it leads to nothing.
#[tactic(none)]
pub(crate) fn find_kept<P: Pairs>(
    alloc: Global,
    pairs: &mut P,
    begins: &First,
    number: u64,
    fileid: u64,
) -> Result<Option<Found>, PairFault>
    ensures goes { Goes P.told pairs.old pairs.new 0 }
    ensures ok { IfOk result (λ found. Reads P.told pairs.old pairs.new (Begins begins.now)
        (λ t. IsLed t found (leads_to t (KeptPlace number fileid)))) }
    ensures place { IfOk result (λ found. IfSome found (λ x. x.place ≡ KeptPlace number fileid)) }
    ensures fault { IfErr result (GivesUpOn P.told pairs.old pairs.new (Begins begins.now)) }
{
    let there = match kept(alloc, pairs, number) {
        Ok(there) => there,
        Err(fault) => return Err(fault),
    };
    if !there {
        return Ok(None);
    }
    let Some(fsid) = begins.fsid.checked_add(number) else {
        return Err(PairFault::Odd);
    };
    let found = match load(alloc, pairs, At::Snap(number), fileid) {
        Ok(found) => found,
        Err(fault) => return Err(fault),
    };
    let Some(inode) = found else {
        return Ok(None);
    };
    let attributes = inode.head.kept.attributes(fsid, fileid, inode.head.size);
    Ok(Some(Found {
        place: Place::Kept(number, fileid),
        inode,
        attributes,
    }))
}
