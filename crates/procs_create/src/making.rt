//! New files.

ghost use Rattle.std.specs.Prelude.{◌≡◌, IfOk, IfErr};
ghost use Rattle.fs_rules.specs.Making as table;
ghost use Rattle.procs_making.specs.Children.{child_of};
ghost use Rattle.procs_create.specs.Files.{file_check, file_inode, new_size, empty_file};
ghost use Rattle.fs_rules.specs.Places.{fileid_at};

use fs_keys::{Head, Inode};
use fs_rules::checks::need;
use fs_rules::may_write;
use nfs3_types::{CreateHow, Cred, FileType, Moment, Sattr, SetTime, Status, Text};
use procs_making::{Making, NewNode, Room, check_node, child_in};
use std::alloc::Global;

/// What is set: of EXCLUSIVE nothing, and the mode is 0.
fn create_attributes(how: CreateHow) -> Sattr
    ensures { result ≡ table.create_attributes how }
{
    match how {
        CreateHow::Unchecked(s) => s,
        CreateHow::Guarded(s) => s,
        CreateHow::Exclusive(_) => Sattr {
            mode: Some(0),
            uid: None,
            gid: None,
            size: None,
            atime: SetTime::DontChange,
            mtime: SetTime::DontChange,
        },
    }
}

/// The verifier that the new file gets.
fn create_verifier(how: CreateHow) -> Option<[u8; 8]>
    ensures { result ≡ table.create_verifier how }
{
    match how {
        CreateHow::Unchecked(_) => None,
        CreateHow::Guarded(_) => None,
        CreateHow::Exclusive(verifier) => Some(verifier),
    }
}

/// Why CREATE is refused, of a name that is not there.
#[tactic(auto, unfolding(crate::specs::Files::file_check))]
pub(crate) fn check_file(cred: &Cred, how: CreateHow, room: &Room) -> Result<(), Status>
    ensures { result ≡ file_check cred.now how room.now.directory.inode.head.kept room.now.next }
{
    let directory = room.directory.inode.head.kept;
    need(may_write(cred, &directory), Status::Acces)?;
    let s = create_attributes(how);
    check_node(cred, &directory, FileType::Reg, &s, room.next)
}

/// The file that is to be made: its inode says its size. It takes no memory.
pub(crate) fn new_file(
    alloc: Global,
    cred: &Cred,
    how: CreateHow,
    now: Moment,
    lane: u8,
    room: &Room,
) -> NewNode
    ensures { result ≡ child_of now lane room.now (file_inode cred.now now how (fileid_at room.now.directory.place)) }
{
    let attributes = create_attributes(how);
    let making = Making {
        kind: FileType::Reg,
        attributes,
        mode: 0o644,
        target: Text::new(alloc),
        verifier: create_verifier(how),
    };
    let child = child_in(cred, now, lane, room, making);
    let head = Head {
        size: attributes.size.unwrap_or(0),
        ..child.inode.head
    };
    NewNode {
        lane: child.lane,
        plan: child.plan,
        inode: Inode {
            head,
            target: child.inode.target,
        },
        moment: child.moment,
    }
}
