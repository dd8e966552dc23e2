//! The attributes of files (RFC 1813, section 2.6).

use crate::file_type::FileType;
use crate::moment::Moment;

/// Two numbers that name a device (specdata3).
#[derive(Clone, Copy, Debug, PartialEq, Eq)]
pub struct SpecData {
    /// The major number.
    pub major: u32,
    /// The minor number.
    pub minor: u32,
}

/// The attributes of a file (fattr3).
#[derive(Clone, Copy, Debug, PartialEq, Eq)]
pub struct Fattr {
    /// What the file is.
    pub kind: FileType,
    /// The bits of its mode.
    pub mode: u32,
    /// How many names it has.
    pub nlink: u32,
    /// Its owner.
    pub uid: u32,
    /// Its group.
    pub gid: u32,
    /// Its size in bytes.
    pub size: u64,
    /// How many bytes it takes on the disk.
    pub used: u64,
    /// The device, where it is one.
    pub rdev: SpecData,
    /// The file system that it is in.
    pub fsid: u64,
    /// Its number in its file system.
    pub fileid: u64,
    /// When it was last read.
    pub atime: Moment,
    /// When its content was last changed.
    pub mtime: Moment,
    /// When its attributes were last changed.
    pub ctime: Moment,
}

/// What a time is to be set to (set_atime, set_mtime).
#[derive(Clone, Copy, Debug, PartialEq, Eq)]
pub enum SetTime {
    /// It stays (DONT_CHANGE).
    DontChange,
    /// To the server's time (SET_TO_SERVER_TIME).
    ServerTime,
    /// To the caller's time (SET_TO_CLIENT_TIME).
    ClientTime(Moment),
}

/// Which attributes are to be set (sattr3).
#[derive(Clone, Copy, Debug, PartialEq, Eq)]
pub struct Sattr {
    /// The bits of the mode.
    pub mode: Option<u32>,
    /// The owner.
    pub uid: Option<u32>,
    /// The group.
    pub gid: Option<u32>,
    /// The size in bytes.
    pub size: Option<u64>,
    /// The time of the last reading.
    pub atime: SetTime,
    /// The time of the last change of the content.
    pub mtime: SetTime,
}

/// The attributes by which a caller sees that nobody else changed a file (wcc_attr).
#[derive(Clone, Copy, Debug, PartialEq, Eq)]
pub struct WccAttr {
    /// The size in bytes.
    pub size: u64,
    /// When the content was last changed.
    pub mtime: Moment,
    /// When the attributes were last changed.
    pub ctime: Moment,
}

/// The attributes of a file before and after a call (wcc_data).
#[derive(Clone, Copy, Debug, PartialEq, Eq)]
pub struct Wcc {
    /// Those before, where they are told.
    pub before: Option<WccAttr>,
    /// Those after, where they are told.
    pub after: Option<Fattr>,
}
