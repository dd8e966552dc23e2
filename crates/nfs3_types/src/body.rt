//! The bodies of results of status OK (RFC 1813, section 3.3).

use crate::attributes::{Fattr, Wcc};
use crate::list_of::ListOf;
use crate::moment::Moment;
use crate::stable_how::StableHow;
use crate::text::Text;

/// What LOOKUP found (section 3.3.3, LOOKUP3resok).
#[derive(Debug, Drop)]
pub struct LookupOk {
    /// The object's handle.
    pub object: Text,
    /// Its attributes.
    pub attributes: Option<Fattr>,
    /// The attributes of the directory.
    pub directory: Option<Fattr>,
}

/// Which rights the caller has (section 3.3.4, ACCESS3resok).
#[derive(Clone, Copy, Debug, PartialEq, Eq)]
pub struct AccessOk {
    /// The object's attributes.
    pub attributes: Option<Fattr>,
    /// The bits of the rights that it has of those that it asked for.
    pub access: u32,
}

/// What a symbolic link leads to (section 3.3.5, READLINK3resok).
#[derive(Debug, Drop)]
pub struct ReadLinkOk {
    /// The link's attributes.
    pub attributes: Option<Fattr>,
    /// What it leads to.
    pub target: Text,
}

/// What was read (section 3.3.6, READ3resok).
#[derive(Debug, Drop)]
pub struct ReadOk {
    /// The file's attributes.
    pub attributes: Option<Fattr>,
    /// How many bytes were read.
    pub count: u32,
    /// Whether the file ends with them.
    pub eof: bool,
    /// The bytes.
    pub data: Text,
}

/// What was written (section 3.3.7, WRITE3resok).
#[derive(Clone, Copy, Debug, PartialEq, Eq)]
pub struct WriteOk {
    /// The file's attributes before and after.
    pub file: Wcc,
    /// How many bytes were written.
    pub count: u32,
    /// How lasting they are.
    pub committed: StableHow,
    /// The verifier of this run of the server.
    pub verifier: [u8; 8],
}

/// What was made by CREATE, MKDIR or SYMLINK (sections 3.3.8 to 3.3.10).
#[derive(Debug, Drop)]
pub struct CreateOk {
    /// Its handle.
    pub object: Option<Text>,
    /// Its attributes.
    pub attributes: Option<Fattr>,
    /// The directory's attributes before and after.
    pub directory: Wcc,
}

/// What RENAME did (section 3.3.14, RENAME3resok).
#[derive(Clone, Copy, Debug, PartialEq, Eq)]
pub struct RenameOk {
    /// The attributes before and after of the directory that the name left.
    pub from: Wcc,
    /// The attributes before and after of the directory that it came to.
    pub to: Wcc,
}

/// What LINK did (section 3.3.15, LINK3resok).
#[derive(Clone, Copy, Debug, PartialEq, Eq)]
pub struct LinkOk {
    /// The file's attributes.
    pub attributes: Option<Fattr>,
    /// The directory's attributes before and after.
    pub directory: Wcc,
}

/// A name in a directory (section 3.3.16, entry3).
#[derive(Debug, Drop)]
pub struct DirEntry {
    /// The number of the file that it names.
    pub fileid: u64,
    /// The name.
    pub name: Text,
    /// What tells a further call to go on behind this entry.
    pub cookie: u64,
}

/// What READDIR found (section 3.3.16, READDIR3resok).
#[derive(Debug, Drop)]
pub struct ReadDirOk {
    /// The directory's attributes.
    pub attributes: Option<Fattr>,
    /// The verifier of the cookies.
    pub verifier: [u8; 8],
    /// The entries.
    pub entries: ListOf<DirEntry>,
    /// Whether the directory ends with them.
    pub eof: bool,
}

/// A name in a directory, with what it names (section 3.3.17, entryplus3).
#[derive(Debug, Drop)]
pub struct DirEntryPlus {
    /// The number of the file that it names.
    pub fileid: u64,
    /// The name.
    pub name: Text,
    /// What tells a further call to go on behind this entry.
    pub cookie: u64,
    /// The attributes of what it names.
    pub attributes: Option<Fattr>,
    /// Its handle.
    pub object: Option<Text>,
}

/// What READDIRPLUS found (section 3.3.17, READDIRPLUS3resok).
#[derive(Debug, Drop)]
pub struct ReadDirPlusOk {
    /// The directory's attributes.
    pub attributes: Option<Fattr>,
    /// The verifier of the cookies.
    pub verifier: [u8; 8],
    /// The entries.
    pub entries: ListOf<DirEntryPlus>,
    /// Whether the directory ends with them.
    pub eof: bool,
}

/// How full a file system is (section 3.3.18, FSSTAT3resok).
#[derive(Clone, Copy, Debug, PartialEq, Eq)]
pub struct FsStatOk {
    /// The object's attributes.
    pub attributes: Option<Fattr>,
    /// Its size in bytes.
    pub tbytes: u64,
    /// How many bytes are free.
    pub fbytes: u64,
    /// How many bytes the caller may use.
    pub abytes: u64,
    /// How many files it can have.
    pub tfiles: u64,
    /// How many more files it can have.
    pub ffiles: u64,
    /// How many more files the caller can have.
    pub afiles: u64,
    /// For how many seconds this is not likely to change.
    pub invarsec: u32,
}

/// What a file system can do (section 3.3.19, FSINFO3resok).
#[derive(Clone, Copy, Debug, PartialEq, Eq)]
pub struct FsInfoOk {
    /// The object's attributes.
    pub attributes: Option<Fattr>,
    /// The greatest size of a READ in bytes.
    pub rtmax: u32,
    /// The preferred size of a READ.
    pub rtpref: u32,
    /// What the size of a READ should be a multiple of.
    pub rtmult: u32,
    /// The greatest size of a WRITE in bytes.
    pub wtmax: u32,
    /// The preferred size of a WRITE.
    pub wtpref: u32,
    /// What the size of a WRITE should be a multiple of.
    pub wtmult: u32,
    /// The preferred size of a READDIR.
    pub dtpref: u32,
    /// The greatest size of a file in bytes.
    pub maxfilesize: u64,
    /// How exactly times are kept.
    pub time_delta: Moment,
    /// The bits of what it can do.
    pub properties: u32,
}

/// What paths can be (section 3.3.20, PATHCONF3resok).
#[derive(Clone, Copy, Debug, PartialEq, Eq)]
pub struct PathConfOk {
    /// The object's attributes.
    pub attributes: Option<Fattr>,
    /// The greatest number of names of a file.
    pub linkmax: u32,
    /// The greatest length of a name in bytes.
    pub name_max: u32,
    /// Whether longer names are refused, and not cut.
    pub no_trunc: bool,
    /// Whether only the superuser may change owners and groups.
    pub chown_restricted: bool,
    /// Whether names that differ only in case are the same.
    pub case_insensitive: bool,
    /// Whether the case of names is kept.
    pub case_preserving: bool,
}

/// What COMMIT did (section 3.3.21, COMMIT3resok).
#[derive(Clone, Copy, Debug, PartialEq, Eq)]
pub struct CommitOk {
    /// The file's attributes before and after.
    pub file: Wcc,
    /// The verifier of this run of the server.
    pub verifier: [u8; 8],
}

/// What a result of status OK says, one variant for each procedure but MKNOD, which never succeeds here;
/// and `Nothing` for each other result.
#[derive(Debug, Drop)]
pub enum Body {
    /// NULL's result, which is empty.
    Null,
    /// The attributes.
    GetAttr(Fattr),
    /// The attributes before and after.
    SetAttr(Wcc),
    /// What was found.
    Lookup(LookupOk),
    /// Which rights the caller has.
    Access(AccessOk),
    /// What the link leads to.
    ReadLink(ReadLinkOk),
    /// What was read.
    Read(ReadOk),
    /// What was written.
    Write(WriteOk),
    /// The file that was made.
    Create(CreateOk),
    /// The directory that was made.
    Mkdir(CreateOk),
    /// The symbolic link that was made.
    Symlink(CreateOk),
    /// The directory's attributes before and after.
    Remove(Wcc),
    /// The directory's attributes before and after.
    Rmdir(Wcc),
    /// What was done.
    Rename(RenameOk),
    /// What was done.
    Link(LinkOk),
    /// What was found.
    ReadDir(ReadDirOk),
    /// What was found.
    ReadDirPlus(ReadDirPlusOk),
    /// How full the file system is.
    FsStat(FsStatOk),
    /// What the file system can do.
    FsInfo(FsInfoOk),
    /// What paths can be.
    PathConf(PathConfOk),
    /// What was done.
    Commit(CommitOk),
    /// The status is not OK.
    Nothing,
}
