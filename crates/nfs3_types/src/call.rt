//! Calls (RFC 1813, section 3.3).

ghost use Rattle.std.specs.Prelude.{◌≡◌};
ghost use Rattle.nfs3_types.specs.Calls.{called, procedure_of};

use crate::args::{
    AccessArgs, CreateArgs, DirOp, FileRange, LinkArgs, MkdirArgs, MknodArgs, ReadDirArgs,
    ReadDirPlusArgs, RenameArgs, SetAttrArgs, SymlinkArgs, WriteArgs,
};
use crate::procedure::Procedure;
use crate::text::Text;
use crate::text_ref::TextRef;

/// A call, one variant for each procedure, over texts of type `B`. What is only a text is a handle.
#[derive(Debug, Drop)]
pub enum CallOver<B> {
    /// Nothing is asked.
    Null,
    /// The attributes of an object.
    GetAttr(B),
    /// Sets attributes.
    SetAttr(SetAttrArgs<B>),
    /// The object of a name.
    Lookup(DirOp<B>),
    /// Which rights the caller has.
    Access(AccessArgs<B>),
    /// What a symbolic link leads to.
    ReadLink(B),
    /// Content of a file.
    Read(FileRange<B>),
    /// Writes content of a file.
    Write(WriteArgs<B>),
    /// Makes a file.
    Create(CreateArgs<B>),
    /// Makes a directory.
    Mkdir(MkdirArgs<B>),
    /// Makes a symbolic link.
    Symlink(SymlinkArgs<B>),
    /// Makes a special file.
    Mknod(MknodArgs<B>),
    /// Removes the name of a file.
    Remove(DirOp<B>),
    /// Removes a directory.
    Rmdir(DirOp<B>),
    /// Renames a file or a directory.
    Rename(RenameArgs<B>),
    /// Gives a file a further name.
    Link(LinkArgs<B>),
    /// Names in a directory.
    ReadDir(ReadDirArgs<B>),
    /// Names in a directory, with attributes and handles.
    ReadDirPlus(ReadDirPlusArgs<B>),
    /// How full a file system is.
    FsStat(B),
    /// What a file system can do.
    FsInfo(B),
    /// What paths can be.
    PathConf(B),
    /// Makes writes last.
    Commit(FileRange<B>),
}

/// A call whose handles, names and content are lent.
pub type Call<'a> = CallOver<TextRef<'a>>;

/// A call that owns its handles, names and content.
pub type OwnCall = CallOver<Text>;

impl<B> CallOver<B> {
    /// The procedure that is called.
    pub fn called(&self) -> Procedure
        ensures { result ≡ called self.now }
    {
        match self {
            CallOver::Null => Procedure::Null,
            CallOver::GetAttr(_) => Procedure::GetAttr,
            CallOver::SetAttr(_) => Procedure::SetAttr,
            CallOver::Lookup(_) => Procedure::Lookup,
            CallOver::Access(_) => Procedure::Access,
            CallOver::ReadLink(_) => Procedure::ReadLink,
            CallOver::Read(_) => Procedure::Read,
            CallOver::Write(_) => Procedure::Write,
            CallOver::Create(_) => Procedure::Create,
            CallOver::Mkdir(_) => Procedure::Mkdir,
            CallOver::Symlink(_) => Procedure::Symlink,
            CallOver::Mknod(_) => Procedure::Mknod,
            CallOver::Remove(_) => Procedure::Remove,
            CallOver::Rmdir(_) => Procedure::Rmdir,
            CallOver::Rename(_) => Procedure::Rename,
            CallOver::Link(_) => Procedure::Link,
            CallOver::ReadDir(_) => Procedure::ReadDir,
            CallOver::ReadDirPlus(_) => Procedure::ReadDirPlus,
            CallOver::FsStat(_) => Procedure::FsStat,
            CallOver::FsInfo(_) => Procedure::FsInfo,
            CallOver::PathConf(_) => Procedure::PathConf,
            CallOver::Commit(_) => Procedure::Commit,
        }
    }

    /// The procedure's number, at most 21.
    pub fn procedure(&self) -> u32
        ensures { result ≡ procedure_of self.now }
    {
        self.called().number()
    }
}
