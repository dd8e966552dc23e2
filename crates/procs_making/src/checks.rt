//! The checks of a name and of a new node: each is the answer table's, of what was found.

ghost use Rattle.std.specs.Prelude.{◌≡◌, ◌||◌};
ghost use Rattle.fs_rules.specs.Checks as checks;
ghost use Rattle.fs_rules.specs.Making as table;
ghost use Rattle.fs_rules.specs.Names as names;
ghost use Rattle.fs_rules.specs.Places as places;
ghost use Rattle.fs_rules.specs.Places.{Object};
ghost use Rattle.procs_making.specs.Rooms as rooms;

use fs_rules::checks::{
    is_dots, is_file, is_of_others, is_others, is_snapshots_name, lacks_cookies, lacks_links, need,
    refuse_if,
};
use fs_rules::limits::MOST_NUMBERS;
use fs_rules::{Inode, Place, is_too_large, may_search, may_write};
use nfs3_types::{Cred, FileType, Sattr, Status};
use procs_object::Found;

// ---- names

/// A name that is there without an entry.
fn is_reserved(place: Place, name: &[u8]) -> bool
    ensures { result ≡ (names.is_dots name.now || places.is_snapshots_name place name.now) }
{
    is_dots(name) || is_snapshots_name(place, name)
}

/// The caller may look names up in the directory, and this one is not there without an entry.
#[tactic(auto, unfolding(crate::specs::Rooms::name_check))]
pub fn check_name(cred: &Cred, directory: &Found, name: &[u8]) -> Result<(), Status>
    ensures { (o : Object) → o.place ≡ directory.now.place → o.inode ≡ directory.now.inode.head.kept
        → rooms.name_check cred.now o name.now ≡ result }
{
    let inode = directory.inode.head.kept;
    need(may_search(cred, &inode), Status::Acces)?;
    refuse_if(is_reserved(directory.place, name), Status::Exist)
}

// ---- new nodes

/// A new node of this kind can be made in a directory, and this number can be given.
#[tactic(auto, unfolding(crate::specs::Rooms::node_check, fs_rules::specs::Limits::most_numbers))]
pub fn check_node(
    cred: &Cred,
    directory: &Inode,
    kind: FileType,
    s: &Sattr,
    next: u64,
) -> Result<(), Status>
    ensures { result ≡ rooms.node_check cred.now directory.now kind s.now next }
{
    refuse_if(is_others(cred, s.uid), Status::Perm)?;
    refuse_if(is_of_others(cred, s.gid), Status::Perm)?;
    refuse_if(is_file(kind) && is_too_large(s.size), Status::Inval)?;
    refuse_if(lacks_links(kind, directory), Status::MLink)?;
    refuse_if(next >= MOST_NUMBERS, Status::NoSpc)?;
    refuse_if(lacks_cookies(directory), Status::NoSpc)
}

/// A name that is free, and a directory in which the caller may write.
#[tactic(auto, unfolding(crate::specs::Rooms::free_check))]
pub fn check_free(cred: &Cred, directory: &Inode, is_there: bool) -> Result<(), Status>
    ensures { result ≡ rooms.free_check cred.now directory.now is_there }
{
    refuse_if(is_there, Status::Exist)?;
    need(may_write(cred, directory), Status::Acces)
}
