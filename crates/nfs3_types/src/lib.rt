//! The plain values of NFS version 3 (RFC 1813): what calls and replies are made of.
//!
//! It promises that a value is what its name says and nothing else: texts and lists are seen by what
//! they hold, a copy is equal to what it was made of, a call that is lent is the call that is owned, and
//! the grammar of every call and reply is lawful: what is written is read back, and a fault is the first.
//! It stands on `xdr_grammar`, for the grammars in its `specs/`, and on `byteorder` for handles.
#![tactic(auto)]

mod args;
mod attributes;
mod body;
mod body_copy;
mod call;
mod copies;
mod cred;
mod entry;
mod file_type;
mod handle;
mod lending;
mod list_of;
mod memory;
mod moment;
mod owning;
mod procedure;
mod reply;
mod stable_how;
mod status;
mod text;
mod text_ref;

pub use args::{
    AccessArgs, CreateArgs, CreateHow, DeviceData, DirOp, FileRange, LinkArgs, MkdirArgs,
    MknodArgs, MknodData, ReadDirArgs, ReadDirPlusArgs, RenameArgs, SetAttrArgs, SymlinkArgs,
    WriteArgs,
};
pub use attributes::{Fattr, Sattr, SetTime, SpecData, Wcc, WccAttr};
pub use body::{
    AccessOk, Body, CommitOk, CreateOk, DirEntry, DirEntryPlus, FsInfoOk, FsStatOk, LinkOk,
    LookupOk, PathConfOk, ReadDirOk, ReadDirPlusOk, ReadLinkOk, ReadOk, RenameOk, WriteOk,
};
pub use call::{Call, CallOver, OwnCall};
pub use copies::Copies;
pub use cred::Cred;
pub use entry::Entry;
pub use file_type::FileType;
pub use handle::{FHSIZE, Handle};
pub use list_of::ListOf;
pub use memory::NoMemory;
pub use moment::Moment;
pub use owning::own_call;
pub use procedure::Procedure;
pub use reply::Reply;
pub use stable_how::StableHow;
pub use status::Status;
pub use text::Text;
pub use text_ref::TextRef;

pub mod count;
pub mod laws;
