//! Checks of single conditions, each the answer table's of the same name. None of them takes memory.

ghost use Rattle.std.specs.Prelude.{◌≡◌, ◌≤◌, length, OnOk};
ghost use Rattle.fs_rules.specs.Attributes as attributes;
ghost use Rattle.fs_rules.specs.Checks as checks;
ghost use Rattle.fs_rules.specs.Limits.{longest_name};
ghost use Rattle.fs_rules.specs.Making as making;
ghost use Rattle.fs_rules.specs.Names as names;
ghost use Rattle.fs_rules.specs.Places as places;
ghost use Rattle.fs_rules.specs.Removing as removing;

use crate::inode::Inode;
use crate::limits::{MOST_LINKS, MOST_NUMBERS};
use crate::place::Place;
use crate::rules::{is_in_group, may_search, may_write, name_fault};
use nfs3_types::{Cred, FileType, Status};

/// Refuses a call with this status where a condition holds.
pub fn refuse_if(condition: bool, status: Status) -> Result<(), Status>
    ensures { result ≡ checks.refuse_if condition status }
{
    if condition { Err(status) } else { Ok(()) }
}

/// Refuses a call with this status where a condition does not hold.
pub fn need(condition: bool, status: Status) -> Result<(), Status>
    ensures { result ≡ checks.need condition status }
{
    refuse_if(!condition, status)
}

/// Refuses a call for a fault, where there is one.
pub fn no_fault(fault: Option<Status>) -> Result<(), Status>
    ensures { result ≡ checks.no_fault fault }
{
    match fault {
        Some(status) => Err(status),
        None => Ok(()),
    }
}

// ---- kinds and places

/// Whether it is a directory.
pub fn is_directory(kind: FileType) -> bool
    ensures { result ≡ attributes.is_directory kind }
{
    kind == FileType::Dir
}

/// Whether it is a file.
pub fn is_file(kind: FileType) -> bool
    ensures { result ≡ attributes.is_file kind }
{
    kind == FileType::Reg
}

/// Whether it is a symbolic link.
pub fn is_link(kind: FileType) -> bool
    ensures { result ≡ attributes.is_link kind }
{
    kind == FileType::Lnk
}

/// Whether it stands in the live tree.
pub fn is_live(place: Place) -> bool
    ensures { result ≡ checks.is_live place }
{
    match place {
        Place::Live(_) => true,
        Place::SnapshotDirectory => false,
        Place::Kept(_, _) => false,
    }
}

/// Whether it is the live root.
fn is_live_root(place: Place) -> bool
    ensures { result ≡ places.is_live_root place }
{
    match place {
        Place::Live(fileid) => fileid == 1,
        Place::SnapshotDirectory => false,
        Place::Kept(_, _) => false,
    }
}

// ---- names

/// An own name: not empty, without NUL and slash, and not too long.
#[tactic(auto, unfolding(crate::specs::Names::name_fault, crate::specs::Limits::longest_name))]
pub fn need_good_name(name: &[u8]) -> Result<(), Status>
    ensures check { result ≡ checks.need_good_name name.now }
    ensures short { OnOk result (length name.now ≤ longest_name) }
{
    no_fault(name_fault(name))
}

/// The name of a directory in itself.
pub fn is_dot(name: &[u8]) -> bool
    ensures { result ≡ names.is_dot name.now }
{
    name == b".".as_slice()
}

/// The name of the directory above.
pub fn is_dot_dot(name: &[u8]) -> bool
    ensures { result ≡ names.is_dot_dot name.now }
{
    name == b"..".as_slice()
}

/// The names of a directory in itself and of the directory above.
pub fn is_dots(name: &[u8]) -> bool
    ensures { result ≡ names.is_dots name.now }
{
    is_dot(name) || is_dot_dot(name)
}

/// The name of the directory of snapshots.
fn names_snapshots(name: &[u8]) -> bool
    ensures { result ≡ names.names_snapshots name.now }
{
    name == b".snapshot".as_slice()
}

/// Whether the name leads from here to the directory of snapshots.
pub fn is_snapshots_name(place: Place, name: &[u8]) -> bool
    ensures { result ≡ places.is_snapshots_name place name.now }
{
    is_live_root(place) && names_snapshots(name)
}

// ---- directories, and new nodes in them

/// Whether the caller may take names out of a directory and put others in.
pub fn may_alter(cred: &Cred, directory: &Inode) -> bool
    ensures { result ≡ removing.may_alter cred.now directory.now }
{
    may_write(cred, directory) && may_search(cred, directory)
}

/// Whether a user is given that is another one than the caller, and the caller is not user 0.
pub fn is_others(cred: &Cred, uid: Option<u32>) -> bool
    ensures { result ≡ making.is_others cred.now uid }
{
    match uid {
        Some(uid) => cred.uid != 0 && uid != cred.uid,
        None => false,
    }
}

/// Whether a group is given that the caller is not in, and the caller is not user 0.
pub fn is_of_others(cred: &Cred, gid: Option<u32>) -> bool
    ensures { result ≡ making.is_of_others cred.now gid }
{
    match gid {
        Some(gid) => cred.uid != 0 && !is_in_group(cred, gid),
        None => false,
    }
}

/// Whether a directory has no room for a further node of this kind.
#[tactic(auto, unfolding(crate::specs::Limits::most_links))]
pub fn lacks_links(kind: FileType, directory: &Inode) -> bool
    ensures { result ≡ making.lacks_links kind directory.now }
{
    is_directory(kind) && directory.nlink >= MOST_LINKS
}

/// Whether a directory has no cookie for a further name.
#[tactic(auto, unfolding(crate::specs::Limits::most_numbers))]
pub fn lacks_cookies(directory: &Inode) -> bool
    ensures { result ≡ making.lacks_cookies directory.now }
{
    directory.next_cookie >= MOST_NUMBERS
}
