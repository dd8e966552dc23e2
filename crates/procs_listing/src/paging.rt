//! The part of a directory's listing that one call tells.

ghost use Rattle.std.specs.Prelude.{◌≡◌, ◌≤◌};
ghost use Rattle.fs_rules.specs.Listing as table;
ghost use Rattle.fs_rules.specs.Sound.{IsSound};
ghost use Rattle.pairs.specs.Told.{Goes};
ghost use Rattle.procs_object.specs.Finding.{CheckedOn};
ghost use Rattle.procs_listing.specs.Entries.{size_with};
ghost use Rattle.procs_listing.specs.Paging.{room_for as room_in, page_by, IsPage};

use crate::fitting::{Listing, list_behind};
use fs_keys::First;
use fs_rules::limits::MOST_LISTING;
use fs_rules::{Inode, may_read};
use fs_shows::Halt;
use nfs3_types::{Cred, Fattr, FileType, Status};
use pairs::Pairs;
use procs_object::{above, look};
use std::alloc::Global;

/// The bytes of a result beside its entries.
const BARE_SIZE: u32 = 104;

/// The first record, a directory's attributes, and what is told of its listing.
#[derive(Drop)]
pub struct Page {
    /// The first record.
    pub begins: First,
    /// The directory's attributes.
    pub attributes: Fattr,
    /// What is told of its listing.
    pub listing: Listing,
}

/// Whether it is the verifier that every result has: zeros.
fn is_zeros(verifier: &[u8]) -> bool
    ensures { result ≡ table.is_zeros verifier.now }
{
    verifier == [0; 8].as_slice()
}

/// The room for entries of a directory, or why none is told.
#[tactic(auto, unfolding(crate::specs::Paging::room_for, fs_rules::specs::Limits::most_listing))]
fn room_for(
    cred: &Cred,
    inode: &Inode,
    cookie: u64,
    verifier: &[u8],
    count: u32,
) -> Result<u32, Status>
    ensures { result ≡ room_in inode.now cred.now cookie verifier.now count }
{
    if inode.kind != FileType::Dir {
        return Err(Status::NotDir);
    }
    if !may_read(cred, inode) {
        return Err(Status::Acces);
    }
    if cookie != 0 && !is_zeros(verifier) {
        return Err(Status::BadCookie);
    }
    let limit = count.min(MOST_LISTING);
    if limit < BARE_SIZE {
        return Err(Status::TooSmall);
    }
    Ok(limit - BARE_SIZE)
}

/// The page of a listing; TOOSMALL where nothing of something is told.
fn page_of(begins: First, attributes: Fattr, listing: Listing) -> Result<Page, Status>
    ensures { result ≡ page_by begins attributes listing }
{
    if listing.entries.is_empty() && !listing.eof {
        Err(Status::TooSmall)
    } else {
        Ok(Page {
            begins,
            attributes,
            listing,
        })
    }
}

/// What one call tells of a directory: the entries behind the cookie, as many as fit, where an entry says so many bytes
/// beside its name.
#[tactic(none)]
pub(crate) fn find_page<P: Pairs>(
    alloc: Global,
    pairs: &mut P,
    cred: &Cred,
    bare: u32,
    directory: &[u8],
    cookie: u64,
    verifier: &[u8],
    count: u32,
) -> Result<Page, Halt>
    requires { 1 ≤ bare }
    ensures goes { Goes P.told pairs.old pairs.new 0 }
    ensures check { CheckedOn P.told pairs.old pairs.new IsSound IsPage
        (λ t. table.page t cred.now (size_with bare) (record {
          directory = directory.now;
          cookie = cookie;
          verifier = verifier.now;
          count = count;
        })) result }
{
    let seen = match look(alloc, pairs, directory) {
        Ok(seen) => seen,
        Err(halt) => return Err(halt),
    };
    let o = &seen.found;
    let kept = o.inode.head.kept;
    let room = match room_for(cred, &kept, cookie, verifier, count) {
        Ok(room) => room,
        Err(status) => return Err(Halt::Refused(status)),
    };
    let upper = above(o.place, &kept);
    let listing = match list_behind(alloc, pairs, o.place, upper, cookie, bare, room) {
        Ok(listing) => listing,
        Err(fault) => return Err(Halt::Fault(fault)),
    };
    match page_of(seen.begins, o.attributes, listing) {
        Ok(page) => Ok(page),
        Err(status) => Err(Halt::Refused(status)),
    }
}
