//! As many entries of a directory as fit.

ghost use Rattle.std.specs.Prelude.{◌≡◌, ◌≤◌, ◌-◌, ◌++◌, ◌∷◌, [], nat_le, if◌then◌else◌, Some, None, OnOk, IfOk, IfErr};
ghost use Rattle.pairs.specs.Told.{Goes};
ghost use Rattle.fs_shows.specs.Steps.{Reads, GivesUpOn};
ghost use Rattle.procs_object.specs.Finding.{HasPlace};
ghost use Rattle.procs_listing.specs.Entries.{lists, listed_as, size_with, IsTold};

use crate::entries::{Entry, first_listed};
use fs_rules::Place;
use nfs3_types::{ListOf, NoMemory};
use pair_types::PairFault;
use pairs::Pairs;
use std::alloc::Global;

/// Entries of a directory that are told.
#[derive(Drop)]
pub struct Listing {
    /// The entries.
    pub entries: ListOf<Entry>,
    /// Whether the directory ends with them.
    pub eof: bool,
}

/// What room is left behind an entry that says so many bytes beside its name, where it fits into the room.
fn room_behind(e: &Entry, bare: u32, room: u32) -> Option<u32>
    ensures { result ≡ (if nat_le (size_with bare (listed_as e.now)) room
        then Some (room - size_with bare (listed_as e.now)) else None) }
{
    let length = e.name.len();
    if length > room as usize {
        return None;
    }
    let size = bare as usize + (length + 3) / 4 * 4;
    if size > room as usize {
        return None;
    }
    Some(room - size as u32)
}

/// One entry more.
fn push_entry(entries: &mut Vec<Entry>, e: Entry) -> Result<(), NoMemory>
    ensures { OnOk result (entries.new.items ≡ entries.old.items ++ e ∷ []) }
{
    entries.push(e)?;
    Ok(())
}

/// What a directory lists behind a cookie, as much as fits into the room, where an entry says so many bytes beside its
/// name.
#[tactic(none)]
pub(crate) fn list_behind<P: Pairs>(
    alloc: Global,
    pairs: &mut P,
    directory: Place,
    above: Place,
    cookie: u64,
    bare: u32,
    room: u32,
) -> Result<Listing, PairFault>
    requires { 1 ≤ bare }
    ensures goes { Goes P.told pairs.old pairs.new 0 }
    ensures ok { IfOk result (λ listing. Reads P.told pairs.old pairs.new (HasPlace directory)
        (λ t. IsTold (size_with bare) room cookie (lists t directory above) listing)) }
    ensures fault { IfErr result (GivesUpOn P.told pairs.old pairs.new (HasPlace directory)) }
{
    let mut told = Vec::new(alloc);
    let mut last = cookie;
    let mut left = room;
    'entries: loop {
        let next = match first_listed(alloc, pairs, directory, above, last) {
            Ok(next) => next,
            Err(fault) => return Err(fault),
        };
        let e = match next {
            Some(e) => e,
            None => {
                return Ok(Listing {
                    entries: ListOf::from_vec(told),
                    eof: true,
                });
            }
        };
        left = match room_behind(&e, bare, left) {
            Some(less) => less,
            None => {
                return Ok(Listing {
                    entries: ListOf::from_vec(told),
                    eof: false,
                });
            }
        };
        last = e.cookie;
        match push_entry(&mut told, e) {
            Ok(()) => {}
            Err(fault) => return Err(PairFault::from(fault)),
        }
    }
}
