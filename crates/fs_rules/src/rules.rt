//! Rights, names and attributes: the rules that the layers above share. None of them takes memory.

ghost use Rattle.std.specs.Prelude.{◌≡◌};
ghost use Rattle.fs_rules.specs.Attributes.{apply_sattr, gives_away, is_client_time, is_file, is_server_time, is_too_large};
ghost use Rattle.fs_rules.specs.Attributes.{lacks_write, mtime_by, regroups, sattr_fault, time_by, wcc_attr, wcc_of};
ghost use Rattle.fs_rules.specs.Names.{has_byte, name_fault, target_fault};
ghost use Rattle.fs_rules.specs.Rights.{bits_for, has_word, is_in_group, may, may_read, may_search, may_write, owns};

use crate::inode::Inode;
use crate::limits::{LONGEST_NAME, LONGEST_TARGET, MOST_SIZE};
use byteorder::{BigEndian, ByteOrder};
use nfs3_types::{Cred, Fattr, FileType, Moment, Sattr, SetTime, Status, Wcc, WccAttr};

/// The right to read.
const READ: u32 = 4;

/// The right to write.
const WRITE: u32 = 2;

/// The right to execute a file, and to look names up in a directory.
const SEARCH: u32 = 1;

/// Whether a word is among words of four bytes each, the highest first.
fn has_word(word: u32, bytes: &[u8]) -> bool
    ensures { result ≡ has_word word bytes.now }
{
    let mut rest = bytes;
    while rest.len() >= 4 {
        if BigEndian::read_u32(&rest[..4]) == word {
            return true;
        }
        rest = &rest[4..];
    }
    false
}

/// Whether a text has this byte.
fn has_byte(byte: u8, text: &[u8]) -> bool
    ensures { result ≡ has_byte byte text.now }
{
    let mut rest = text;
    while !rest.is_empty() {
        if rest[0] == byte {
            return true;
        }
        rest = &rest[1..];
    }
    false
}

/// Whether a caller is in a group.
#[tactic(auto, unfolding(crate::specs::Rights::is_in_group))]
pub fn is_in_group(c: &Cred, gid: u32) -> bool
    ensures { result ≡ is_in_group c.now gid }
{
    c.gid == gid || has_word(gid, c.gids.as_slice())
}

/// The bits of a mode that count for a caller: the owner's, else the group's for a member of it, else the others'.
#[tactic(auto, unfolding(crate::specs::Rights::bits_for))]
fn bits_for(c: &Cred, mode: u32, uid: u32, gid: u32) -> u32
    ensures { result ≡ bits_for c.now mode uid gid }
{
    if c.uid == uid {
        mode / 64 % 8
    } else if is_in_group(c, gid) {
        mode / 8 % 8
    } else {
        mode % 8
    }
}

/// Whether a caller may do all that is wanted with what has this mode, owner and group. User 0 may do all.
#[tactic(auto, unfolding(crate::specs::Rights::may))]
fn may(c: &Cred, mode: u32, uid: u32, gid: u32, want: u32) -> bool
    ensures { result ≡ may c.now mode uid gid want }
{
    c.uid == 0 || bits_for(c, mode, uid, gid) & want == want
}

/// Whether a caller may read a file, or list a directory.
pub fn may_read(c: &Cred, i: &Inode) -> bool
    ensures { result ≡ may_read c.now i.now }
{
    may(c, i.mode, i.uid, i.gid, READ)
}

/// Whether a caller may write a file, or names in a directory.
pub fn may_write(c: &Cred, i: &Inode) -> bool
    ensures { result ≡ may_write c.now i.now }
{
    may(c, i.mode, i.uid, i.gid, WRITE)
}

/// Whether a caller may execute a file, or look names up in a directory.
pub fn may_search(c: &Cred, i: &Inode) -> bool
    ensures { result ≡ may_search c.now i.now }
{
    may(c, i.mode, i.uid, i.gid, SEARCH)
}

/// Whether a caller is user 0 or this user, the owner.
pub fn owns(c: &Cred, uid: u32) -> bool
    ensures { result ≡ owns c.now uid }
{
    c.uid == 0 || c.uid == uid
}

/// What is wrong with a name: INVAL where it is empty or has a NUL or a slash, and else NAMETOOLONG where it is
/// longer than 255 bytes.
#[tactic(auto, unfolding(crate::specs::Names::name_fault, crate::specs::Limits::longest_name))]
pub fn name_fault(name: &[u8]) -> Option<Status>
    ensures { result ≡ name_fault name.now }
{
    if name.is_empty() || has_byte(0, name) || has_byte(b'/', name) {
        Some(Status::Inval)
    } else if name.len() > LONGEST_NAME {
        Some(Status::NameTooLong)
    } else {
        None
    }
}

/// What is wrong with a symbolic link's path: INVAL where it is empty or has a NUL, and else NAMETOOLONG where it
/// is longer than 1,023 bytes.
#[tactic(auto, unfolding(crate::specs::Names::target_fault, crate::specs::Limits::longest_target))]
pub fn target_fault(target: &[u8]) -> Option<Status>
    ensures { result ≡ target_fault target.now }
{
    if target.is_empty() || has_byte(0, target) {
        Some(Status::Inval)
    } else if target.len() > LONGEST_TARGET {
        Some(Status::NameTooLong)
    } else {
        None
    }
}

// ---- what may be set

fn is_client_time(time: SetTime) -> bool
    ensures { result ≡ is_client_time time }
{
    match time {
        SetTime::ClientTime(_) => true,
        SetTime::DontChange => false,
        SetTime::ServerTime => false,
    }
}

fn is_server_time(time: SetTime) -> bool
    ensures { result ≡ is_server_time time }
{
    match time {
        SetTime::ServerTime => true,
        SetTime::DontChange => false,
        SetTime::ClientTime(_) => false,
    }
}

/// Whether the caller is neither user 0 nor the owner, and may not write.
fn lacks_write(c: &Cred, node: &Fattr) -> bool
    ensures { result ≡ lacks_write c.now node.now }
{
    !(owns(c, node.uid) || may(c, node.mode, node.uid, node.gid, WRITE))
}

/// Whether another than user 0 gives a file to another user than himself, or a file that is not his to anyone.
fn gives_away(c: &Cred, node: &Fattr, uid: Option<u32>) -> bool
    ensures { result ≡ gives_away c.now node.now uid }
{
    match uid {
        Some(uid) => c.uid != 0 && (c.uid != node.uid || uid != c.uid),
        None => false,
    }
}

/// The same of a group: the owner may give a file to its own group, and to those that he is in.
fn regroups(c: &Cred, node: &Fattr, gid: Option<u32>) -> bool
    ensures { result ≡ regroups c.now node.now gid }
{
    match gid {
        Some(gid) => {
            c.uid != 0 && (c.uid != node.uid || !(gid == node.gid || is_in_group(c, gid)))
        }
        None => false,
    }
}

/// Whether a size is given that is above the greatest.
#[tactic(auto, unfolding(crate::specs::Limits::most_size))]
pub fn is_too_large(size: Option<u64>) -> bool
    ensures { result ≡ is_too_large size }
{
    match size {
        Some(size) => size > MOST_SIZE,
        None => false,
    }
}

/// Why the caller may not set these attributes of a node, the first that fits: INVAL for a size of what is no
/// file; PERM for the mode by another than the owner, for the owner by another than user 0 (the owner may give
/// himself), and for a group by another than the owner, or one that is neither the node's nor the owner's; ACCES
/// for the size without the right to write; PERM for the caller's times by another than the owner; ACCES for the
/// server's without the right to write; and INVAL for a size above 2^40.
#[tactic(auto, unfolding(crate::specs::Attributes::sattr_fault))]
pub fn sattr_fault(c: &Cred, node: &Fattr, s: &Sattr) -> Option<Status>
    ensures { result ≡ sattr_fault c.now node.now s.now }
{
    if s.size.is_some() && node.kind != FileType::Reg {
        Some(Status::Inval)
    } else if s.mode.is_some() && !owns(c, node.uid) {
        Some(Status::Perm)
    } else if gives_away(c, node, s.uid) {
        Some(Status::Perm)
    } else if regroups(c, node, s.gid) {
        Some(Status::Perm)
    } else if s.size.is_some() && lacks_write(c, node) {
        Some(Status::Acces)
    } else if (is_client_time(s.atime) || is_client_time(s.mtime)) && !owns(c, node.uid) {
        Some(Status::Perm)
    } else if (is_server_time(s.atime) || is_server_time(s.mtime)) && lacks_write(c, node) {
        Some(Status::Acces)
    } else if is_too_large(s.size) {
        Some(Status::Inval)
    } else {
        None
    }
}

// ---- how it is set

/// A time that is set now, or stays.
pub fn time_by(how: SetTime, now: Moment, old: Moment) -> Moment
    ensures { result ≡ time_by how now old }
{
    match how {
        SetTime::DontChange => old,
        SetTime::ServerTime => now,
        SetTime::ClientTime(time) => time,
    }
}

/// The time of the last change of the content: a new size sets it too.
fn mtime_by(how: SetTime, size: Option<u64>, now: Moment, old: Moment) -> Moment
    ensures { result ≡ mtime_by how size now old }
{
    match how {
        SetTime::DontChange => { if size.is_some() { now } else { old } }
        SetTime::ServerTime => now,
        SetTime::ClientTime(time) => time,
    }
}

/// The attributes of a node once these are set: of the mode its twelve lowest bits; the time of the last change
/// of the content is now where a size is given and no such time; that of the last change is now.
#[tactic(auto, unfolding(crate::specs::Attributes::apply_sattr))]
pub fn apply_sattr(node: &Fattr, s: &Sattr, now: Moment) -> Fattr
    ensures { result ≡ apply_sattr node.now s.now now }
{
    Fattr {
        mode: s.mode.unwrap_or(node.mode) % 4096,
        uid: s.uid.unwrap_or(node.uid),
        gid: s.gid.unwrap_or(node.gid),
        size: s.size.unwrap_or(node.size),
        used: s.size.unwrap_or(node.used),
        atime: time_by(s.atime, now, node.atime),
        mtime: mtime_by(s.mtime, s.size, now, node.mtime),
        ctime: now,
        ..*node
    }
}

/// What a caller may see of a change: size, mtime and ctime before, and the attributes after, where there are any
/// (RFC 1813, section 2.6, wcc_data).
#[tactic(auto, unfolding(crate::specs::Attributes::wcc_of))]
pub fn wcc_of(before: Option<Fattr>, after: Option<Fattr>) -> Wcc
    ensures { result ≡ wcc_of before after }
{
    Wcc {
        before: before.map(|a| WccAttr {
            size: a.size,
            mtime: a.mtime,
            ctime: a.ctime,
        }),
        after,
    }
}
