//! What is kept of a file beside its content and its names.

ghost use Rattle.std.specs.Prelude.{◌≡◌};
ghost use Rattle.fs_rules.specs.Attributes.{attributes_of};

use nfs3_types::{Fattr, FileType, Moment, SpecData};

/// The size of a directory in bytes.
const DIRECTORY_SIZE: u64 = 4096;

/// What is kept of a file, a directory or a symbolic link beside its content and its names (RFC 1813, section
/// 2.6, fattr3, has most of it).
#[derive(Clone, Copy, Debug, PartialEq, Eq)]
pub struct Inode {
    /// What kind of file it is.
    pub kind: FileType,
    /// The twelve bits of its mode.
    pub mode: u32,
    /// How many names a file has; of a directory how many subdirectories, and two.
    pub nlink: u32,
    /// Its owner.
    pub uid: u32,
    /// Its group.
    pub gid: u32,
    /// When it was last read.
    pub atime: Moment,
    /// When its content was last changed.
    pub mtime: Moment,
    /// When its attributes were last changed.
    pub ctime: Moment,
    /// The directory that a directory stands in, and 0 of what is none.
    pub parent: u64,
    /// The cookie of the next name that a directory gets, and 0 of what is none.
    pub next_cookie: u64,
    /// The verifier of the EXCLUSIVE CREATE that made the file.
    pub verifier: Option<[u8; 8]>,
    /// How often a call made the file smaller.
    pub cuts: u64,
}

impl Inode {
    /// The attributes of a file of so many bytes, as the file of this number in this file system.
    #[tactic(auto, unfolding(crate::specs::Attributes::attributes_of, crate::specs::Attributes::size_of))]
    pub fn attributes(&self, fsid: u64, fileid: u64, length: u64) -> Fattr
        ensures { result ≡ attributes_of fsid fileid self.now length }
    {
        let size = if self.kind == FileType::Dir {
            DIRECTORY_SIZE
        } else {
            length
        };
        Fattr {
            kind: self.kind,
            mode: self.mode,
            nlink: self.nlink,
            uid: self.uid,
            gid: self.gid,
            size,
            used: size,
            rdev: SpecData { major: 0, minor: 0 },
            fsid,
            fileid,
            atime: self.atime,
            mtime: self.mtime,
            ctime: self.ctime,
        }
    }
}
