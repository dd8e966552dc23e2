//! READ and COMMIT.

ghost use Rattle.std.specs.Prelude.{◌≡◌, ◌+◌, ◌||◌, nat_le};
ghost use Rattle.fs_rules.specs.Checks.{told as tells};
ghost use Rattle.fs_rules.specs.Rights as rights;
ghost use Rattle.fs_rules.specs.Transfers as table;
ghost use Rattle.procs_object.specs.Performing.{Performs};
ghost use Rattle.procs_bytes.specs.Seeing.{view_of as view_at};

use crate::checks::is_file;
use file_ops::read_at;
use fs_rules::limits::MOST_TRANSFER;
use fs_rules::{Inode, Place, may_read, may_search, owns, wcc_of};
use fs_shows::Halt;
use inode_ops::first;
use nfs3_types::{Body, CommitOk, Cred, FileRange, ReadOk, Status, Text};
use pairs::{At, Blocks, Pairs};
use procs_object::{find_object, see};
use std::alloc::Global;

/// COMMIT: all that is written is lasting at once.
#[tactic(none)]
pub fn commit<P: Pairs>(alloc: Global, pairs: &mut P, a: &FileRange<Text>) -> Result<Body, Halt>
    ensures { Performs P.told pairs.old pairs.new 0 (λ t. tells t (table.commit t a.now)) result }
{
    let begins = match first(alloc, pairs) {
        Ok(begins) => begins,
        Err(fault) => return Err(Halt::Fault(fault)),
    };
    let o = match find_object(alloc, pairs, &begins, a.file.as_slice()) {
        Ok(o) => o,
        Err(halt) => return Err(halt),
    };
    if is_file(&o.inode.head.kept) {
        Ok(Body::Commit(CommitOk {
            file: wcc_of(Some(o.attributes), Some(o.attributes)),
            verifier: begins.verifier,
        }))
    } else {
        Err(Halt::Refused(Status::Inval))
    }
}

// ---- READ

/// Whether a caller may read: the owner always may, and so may who may execute.
fn may_see(cred: &Cred, i: &Inode) -> bool
    ensures { result ≡ (rights.owns cred.now i.now.uid || rights.may_read cred.now i.now || rights.may_search cred.now i.now) }
{
    owns(cred, i.uid) || may_read(cred, i) || may_search(cred, i)
}

/// How many bytes are read: what is asked for, at most the greatest transfer, and what the file has there.
#[tactic(auto, unfolding(fs_rules::specs::Limits::most_transfer))]
fn read_count(a: &FileRange<Text>, size: u64) -> u32
    ensures { result ≡ table.read_count a.now size }
{
    let there = size.saturating_sub(a.offset);
    a.count.min(there.min(MOST_TRANSFER as u64) as u32)
}

/// Whether a file of this size ends with so many bytes from an offset on.
fn ends(size: u64, offset: u64, count: u32) -> bool
    ensures { result ≡ nat_le size (offset + count) }
{
    size <= offset.saturating_add(count as u64)
}

/// The view in which it stands; of `.snapshot`, which is in none, the live one.
fn view_of(place: Place) -> At
    ensures { result ≡ view_at place }
{
    match place {
        Place::Live(_) => At::Live,
        Place::SnapshotDirectory => At::Live,
        Place::Kept(number, _) => At::Snap(number),
    }
}

/// READ.
#[tactic(none)]
pub fn read<P: Blocks>(
    alloc: Global,
    pairs: &mut P,
    cred: &Cred,
    a: &FileRange<Text>,
) -> Result<Body, Halt>
    ensures { Performs P.told pairs.old pairs.new 0 (λ t. tells t (table.read t cred.now a.now)) result }
{
    let o = match see(alloc, pairs, a.file.as_slice()) {
        Ok(o) => o,
        Err(halt) => return Err(halt),
    };
    let size = o.inode.head.size;
    let count = read_count(a, size);
    if is_file(&o.inode.head.kept) {
        if may_see(cred, &o.inode.head.kept) {
            let view = view_of(o.place);
            match read_at(alloc, pairs, view, o.place.fileid(), a.offset, count) {
                Ok(data) => Ok(Body::Read(ReadOk {
                    attributes: Some(o.attributes),
                    count,
                    eof: ends(size, a.offset, count),
                    data,
                })),
                Err(fault) => Err(Halt::Fault(fault)),
            }
        } else {
            Err(Halt::Refused(Status::Acces))
        }
    } else {
        Err(Halt::Refused(Status::Inval))
    }
}
