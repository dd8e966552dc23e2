//! Lists of entries within their bounds.

ghost use Rattle.std.specs.Prelude.{◌↔◌, ◌≡◌, ◌≤◌, ◌<◌, ◌+◌, IsTrue, IsNone, All, IfSome, length, sum_by};
ghost use Rattle.nfs3_fits.specs.Shape.{IsHandle, HasHandle, AreShort, AreShortPlus};

use nfs3_types::{CreateOk, DirEntry, DirEntryPlus, Text};

/// The most bytes of a handle.
const LONGEST_HANDLE: usize = 64;

/// What the entries of a listing take together at most.
const MOST_ENTRIES: usize = 32768;

/// Whether a text is as short as handles are.
pub fn is_handle(handle: &Text) -> bool
    ensures { IsTrue result ↔ IsHandle handle.now }
{
    handle.len() <= LONGEST_HANDLE
}

/// Whether a handle, where there is one, is as short as handles are.
fn is_handle_there(handle: &Option<Text>) -> bool
    ensures { IsTrue result ↔ IfSome handle.now IsHandle }
{
    match handle {
        Some(handle) => is_handle(handle),
        None => true,
    }
}

/// Whether the handle of what was made, where it is told, is as short as handles are.
pub fn has_handle(ok: &CreateOk) -> bool
    ensures { IsTrue result ↔ HasHandle ok.now }
{
    is_handle_there(&ok.object)
}

/// The room that is left behind an entry that takes so much and its name: none where it does not fit.
fn room_behind(room: usize, bare: usize, name: usize) -> Option<usize>
    ensures some { IfSome result (λ left. left + (bare + name) ≡ room) }
    ensures none { IsNone result → room < bare + name }
{
    room.checked_sub(bare)?.checked_sub(name)
}

/// Whether the entries of READDIR are within their bound.
pub fn are_short(entries: &[DirEntry]) -> bool
    ensures { IsTrue result ↔ AreShort entries.now }
{
    let mut room = MOST_ENTRIES;
    for entry in entries {
        match room_behind(room, 24, entry.name.len()) {
            Some(left) => room = left,
            None => return false,
        }
    }
    true
}

/// Whether the entries of READDIRPLUS take no more than they may.
fn are_short_with_attributes(entries: &[DirEntryPlus]) -> bool
    ensures { IsTrue result ↔ (sum_by (λ e. 144 + length e.name) entries.now ≤ 32768) }
{
    let mut room = MOST_ENTRIES;
    for entry in entries {
        match room_behind(room, 144, entry.name.len()) {
            Some(left) => room = left,
            None => return false,
        }
    }
    true
}

/// Whether each handle that is told with an entry is as short as handles are.
fn have_handles(entries: &[DirEntryPlus]) -> bool
    ensures { IsTrue result ↔ All (λ e. IfSome e.object IsHandle) entries.now }
{
    for entry in entries {
        if !is_handle_there(&entry.object) {
            return false;
        }
    }
    true
}

/// Whether the entries of READDIRPLUS are within their bounds.
pub fn are_short_plus(entries: &[DirEntryPlus]) -> bool
    ensures { IsTrue result ↔ AreShortPlus entries.now }
{
    are_short_with_attributes(entries) && have_handles(entries)
}
