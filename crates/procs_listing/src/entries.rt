//! What a directory lists, one entry after another.

ghost use Rattle.std.specs.Prelude.{◌≡◌, ◌≤◌, option_map, IfOk, IfErr};
ghost use Rattle.fs_rules.specs.Places.{names_at};
ghost use Rattle.pairs.specs.Told.{Goes};
ghost use Rattle.fs_shows.specs.Steps.{Reads, GivesUpOn};
ghost use Rattle.dir_ops.specs.Listing.{next_entry};
ghost use Rattle.procs_object.specs.Finding.{HasPlace};
ghost use Rattle.procs_listing.specs.Entries.{dots, entry_by, lists, IsNextOf};

use dir_ops::first_behind;
use fs_rules::{NameEntry, Place};
use nfs3_types::{NoMemory, Text};
use pair_types::PairFault;
use pairs::{At, Pairs};
use procs_object::beside;
use snap_ops::first_behind as first_snapshot;
use std::alloc::Global;

/// The cookie of a directory itself.
const ITSELF: u64 = 1;

/// The cookie of the directory above a directory.
const ABOVE: u64 = 2;

/// An entry of a directory.
#[derive(Drop)]
pub struct Entry {
    /// What a reading goes on behind.
    pub cookie: u64,
    /// The name.
    pub name: Text,
    /// Where it leads.
    pub place: Place,
}

/// The directory itself, where that is behind a cookie, or else the one above it.
fn dots_behind(
    alloc: Global,
    directory: Place,
    above: Place,
    cookie: u64,
) -> Result<Entry, NoMemory>
    ensures { IfOk result (λ e. e ≡ dots directory above cookie) }
{
    if cookie < ITSELF {
        Ok(Entry {
            cookie: ITSELF,
            name: Text::from_slice(alloc, b".")?,
            place: directory,
        })
    } else {
        Ok(Entry {
            cookie: ABOVE,
            name: Text::from_slice(alloc, b"..")?,
            place: above,
        })
    }
}

/// A name of a directory that was found, as an entry.
fn told_as(directory: Place, found: Option<NameEntry>) -> Option<Entry>
    ensures { result ≡ option_map (entry_by directory) found }
{
    match found {
        Some(e) => Some(Entry {
            cookie: e.cookie,
            name: e.name,
            place: beside(directory, e.fileid),
        }),
        None => None,
    }
}

/// The first name of a directory behind a cookie.
#[tactic(none)]
fn first_name<P: Pairs>(
    alloc: Global,
    pairs: &mut P,
    directory: Place,
    cookie: u64,
) -> Result<Option<NameEntry>, PairFault>
    requires { 2 ≤ cookie }
    ensures goes { Goes P.told pairs.old pairs.new 0 }
    ensures ok { IfOk result (λ found. Reads P.told pairs.old pairs.new (HasPlace directory)
        (λ t. next_entry cookie (names_at t directory) ≡ found)) }
    ensures fault { IfErr result (GivesUpOn P.told pairs.old pairs.new (HasPlace directory)) }
{
    match directory {
        Place::Live(fileid) => first_behind(alloc, pairs, At::Live, fileid, cookie),
        Place::SnapshotDirectory => first_snapshot(alloc, pairs, cookie - 2),
        Place::Kept(number, fileid) => {
            first_behind(alloc, pairs, At::Snap(number), fileid, cookie)
        }
    }
}

/// What a directory lists first behind a cookie: itself, the directory above it, or a name.
#[tactic(none)]
pub(crate) fn first_listed<P: Pairs>(
    alloc: Global,
    pairs: &mut P,
    directory: Place,
    above: Place,
    cookie: u64,
) -> Result<Option<Entry>, PairFault>
    ensures goes { Goes P.told pairs.old pairs.new 0 }
    ensures ok { IfOk result (λ found. Reads P.told pairs.old pairs.new (HasPlace directory)
        (λ t. IsNextOf (lists t directory above) cookie found)) }
    ensures fault { IfErr result (GivesUpOn P.told pairs.old pairs.new (HasPlace directory)) }
{
    if cookie < ABOVE {
        match dots_behind(alloc, directory, above, cookie) {
            Ok(e) => Ok(Some(e)),
            Err(fault) => Err(PairFault::from(fault)),
        }
    } else {
        match first_name(alloc, pairs, directory, cookie) {
            Ok(found) => Ok(told_as(directory, found)),
            Err(fault) => Err(fault),
        }
    }
}
