//! The arguments of calls (RFC 1813, section 3.3), over texts of type `B`: handles, names and content are
//! [`TextRef`](crate::TextRef) in a call that is lent, and [`Text`](crate::Text) in one that is owned.

use crate::attributes::{Sattr, SpecData};
use crate::file_type::FileType;
use crate::moment::Moment;
use crate::stable_how::StableHow;

/// A name in a directory (section 2.6, diropargs3).
#[derive(Debug, Drop)]
pub struct DirOp<B> {
    /// The directory's handle.
    pub directory: B,
    /// The name.
    pub name: B,
}

/// SETATTR's arguments (section 3.3.2).
#[derive(Debug, Drop)]
pub struct SetAttrArgs<B> {
    /// The handle of what is changed.
    pub object: B,
    /// What is to be set.
    pub attributes: Sattr,
    /// The ctime that the object has to have, where it is asked for.
    pub guard: Option<Moment>,
}

/// ACCESS's arguments (section 3.3.4).
#[derive(Debug, Drop)]
pub struct AccessArgs<B> {
    /// The handle of what is asked about.
    pub object: B,
    /// The bits of the rights that are asked for.
    pub access: u32,
}

/// A range of a file: the arguments of READ (section 3.3.6) and of COMMIT (section 3.3.21).
#[derive(Debug, Drop)]
pub struct FileRange<B> {
    /// The file's handle.
    pub file: B,
    /// Where the range begins.
    pub offset: u64,
    /// How many bytes it has.
    pub count: u32,
}

/// WRITE's arguments (section 3.3.7).
#[derive(Debug, Drop)]
pub struct WriteArgs<B> {
    /// The file's handle.
    pub file: B,
    /// Where the content is to stand.
    pub offset: u64,
    /// How many bytes are to be written.
    pub count: u32,
    /// How lasting the write is to be.
    pub stable: StableHow,
    /// The content.
    pub data: B,
}

/// How a file is to be made (section 3.3.8, createhow3).
#[derive(Clone, Copy, Debug, PartialEq, Eq)]
pub enum CreateHow {
    /// Also where the name is there (UNCHECKED), with these attributes.
    Unchecked(Sattr),
    /// Only where the name is not there (GUARDED), with these attributes.
    Guarded(Sattr),
    /// Once for this verifier (EXCLUSIVE).
    Exclusive([u8; 8]),
}

/// CREATE's arguments (section 3.3.8).
#[derive(Debug, Drop)]
pub struct CreateArgs<B> {
    /// Where the file is to be made.
    pub place: DirOp<B>,
    /// How it is to be made.
    pub how: CreateHow,
}

/// MKDIR's arguments (section 3.3.9).
#[derive(Debug, Drop)]
pub struct MkdirArgs<B> {
    /// Where the directory is to be made.
    pub place: DirOp<B>,
    /// Its attributes.
    pub attributes: Sattr,
}

/// SYMLINK's arguments (section 3.3.10).
#[derive(Debug, Drop)]
pub struct SymlinkArgs<B> {
    /// Where the link is to be made.
    pub place: DirOp<B>,
    /// Its attributes.
    pub attributes: Sattr,
    /// What it leads to.
    pub target: B,
}

/// What a device is to be (section 3.3.11, devicedata3).
#[derive(Clone, Copy, Debug, PartialEq, Eq)]
pub struct DeviceData {
    /// Its attributes.
    pub attributes: Sattr,
    /// Which device it is.
    pub spec: SpecData,
}

/// What MKNOD is to make (section 3.3.11, mknoddata3).
#[derive(Clone, Copy, Debug, PartialEq, Eq)]
pub enum MknodData {
    /// A character device.
    Chr(DeviceData),
    /// A block device.
    Blk(DeviceData),
    /// A socket.
    Sock(Sattr),
    /// A named pipe.
    Fifo(Sattr),
    /// What is none of these, of which nothing is said.
    Other(FileType),
}

/// MKNOD's arguments (section 3.3.11).
#[derive(Debug, Drop)]
pub struct MknodArgs<B> {
    /// Where it is to be made.
    pub place: DirOp<B>,
    /// What is to be made.
    pub what: MknodData,
}

/// RENAME's arguments (section 3.3.14).
#[derive(Debug, Drop)]
pub struct RenameArgs<B> {
    /// The name that is to go.
    pub from: DirOp<B>,
    /// The name that is to be there in its place.
    pub to: DirOp<B>,
}

/// LINK's arguments (section 3.3.15).
#[derive(Debug, Drop)]
pub struct LinkArgs<B> {
    /// The file's handle.
    pub file: B,
    /// The further name.
    pub link: DirOp<B>,
}

/// READDIR's arguments (section 3.3.16).
#[derive(Debug, Drop)]
pub struct ReadDirArgs<B> {
    /// The directory's handle.
    pub directory: B,
    /// The cookie of the last entry that is known; 0 at first.
    pub cookie: u64,
    /// The verifier that came with the cookie.
    pub verifier: [u8; 8],
    /// The greatest size of the result in bytes.
    pub count: u32,
}

/// READDIRPLUS's arguments (section 3.3.17).
#[derive(Debug, Drop)]
pub struct ReadDirPlusArgs<B> {
    /// The directory's handle.
    pub directory: B,
    /// The cookie of the last entry that is known; 0 at first.
    pub cookie: u64,
    /// The verifier that came with the cookie.
    pub verifier: [u8; 8],
    /// The greatest size in bytes of what READDIR would tell.
    pub dircount: u32,
    /// The greatest size of the result in bytes.
    pub maxcount: u32,
}
