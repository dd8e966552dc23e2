//! What a directory lists.

ghost use Rattle.std.specs.Prelude.{◌≡◌, ◌-◌, nat_le, if◌then◌else◌, [], ◌∷◌, ◌++◌, map, length, Some, None, OnOk};
ghost use Rattle.fs_rules.specs.Listing.{behind, fitting, listed};
ghost use Rattle.fs_rules.specs.Places.{beside, snapshot_entry};
ghost use Rattle.plain_tree.specs.Entries.{size_with};
ghost use Rattle.plain_tree.specs.Trees.{snapshot_of};

use crate::looking::beside;
use crate::snapshot::Snapshot;
use fs_rules::{NameEntry, Place};
use nfs3_types::{NoMemory, Text};
use std::alloc::Global;
use std::marker::Model;

/// The number of a root.
const ROOT: u64 = 1;

/// A name that is listed, and where it leads.
#[derive(Drop)]
pub struct Listed {
    /// What a further reading goes on behind.
    pub cookie: u64,
    /// The name.
    pub name: Text,
    /// Where it leads.
    pub place: Place,
}

impl Model for Listed {
    ghost use Rattle.fs_rules.specs.Listing.{Listed};

    ghost Value = { Listed };

    ghost view = { λ e. record {
      cookie = e.cookie;
      name = e.name;
      place = e.place;
    } };
}

/// Puts a name in at the end, where it is listed behind a cookie.
pub fn push_behind(entries: &mut Vec<Listed>, cookie: u64, e: Listed) -> Result<(), NoMemory>
    ensures { OnOk result (entries.new.items ≡ entries.old.items ++ behind cookie (e ∷ [])) }
{
    if cookie < e.cookie {
        entries.push(e)?;
    }
    Ok(())
}

/// Puts in the names of a directory that are listed behind a cookie.
pub fn push_names(
    alloc: Global,
    entries: &mut Vec<Listed>,
    cookie: u64,
    directory: Place,
    names: &[NameEntry],
) -> Result<(), NoMemory>
    ensures { OnOk result (entries.new.items ≡ entries.old.items ++ behind cookie (map (listed directory) names.now)) }
{
    for e in names {
        let entry = Listed {
            cookie: e.cookie,
            name: e.name.copy(alloc)?,
            place: beside(directory, e),
        };
        push_behind(entries, cookie, entry)?;
    }
    Ok(())
}

/// Puts in the names of the snapshots that are listed behind a cookie.
pub fn push_snapshots(
    alloc: Global,
    entries: &mut Vec<Listed>,
    cookie: u64,
    snapshots: &[Snapshot],
) -> Result<(), NoMemory>
    ensures { OnOk result (entries.new.items ≡ entries.old.items
        ++ behind cookie (map (listed Place.SnapshotDirectory) (map snapshot_entry (map snapshot_of snapshots.now)))) }
{
    for s in snapshots {
        let entry = Listed {
            cookie: s.number + 2,
            name: s.name.copy(alloc)?,
            place: Place::Kept(s.number, ROOT),
        };
        push_behind(entries, cookie, entry)?;
    }
    Ok(())
}

/// What room is left behind an entry that says so many bytes beside its name, where it fits into the room.
fn room_behind(e: &Listed, bare: u32, room: u32) -> Option<u32>
    ensures { result ≡ (if nat_le (size_with bare e.now) room then Some (room - size_with bare e.now) else None) }
{
    let length = e.name.len();
    if length > room as usize {
        return None;
    }
    let size = bare as usize + (length + 3) / 4 * 4;
    if size > room as usize {
        return None;
    }
    Some(room - size as u32)
}

/// How many entries from the first on fit into the room.
#[tactic(auto, unfolding(fs_rules::specs::Listing::fitting))]
pub fn count_fitting(entries: &[Listed], bare: u32, room: u32) -> usize
    ensures { result ≡ length (fitting (size_with bare) room entries.now) }
{
    let mut count = 0;
    let mut left = room;
    for e in entries {
        match room_behind(e, bare, left) {
            Some(room) => left = room,
            None => return count,
        }
        count += 1;
    }
    count
}
