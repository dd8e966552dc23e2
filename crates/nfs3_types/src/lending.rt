//! An owned call, lent.

ghost use Rattle.std.specs.Prelude.{◌≡◌};

use crate::args::{
    AccessArgs, CreateArgs, DirOp, FileRange, LinkArgs, MkdirArgs, MknodArgs, ReadDirArgs,
    ReadDirPlusArgs, RenameArgs, SetAttrArgs, SymlinkArgs, WriteArgs,
};
use crate::call::{Call, CallOver, OwnCall};
use crate::text::Text;
use crate::text_ref::TextRef;

fn lend_place(place: &DirOp<Text>) -> DirOp<TextRef<'_>>
    ensures { result ≡ place.now }
{
    DirOp {
        directory: place.directory.lend(),
        name: place.name.lend(),
    }
}

fn lend_range(range: &FileRange<Text>) -> FileRange<TextRef<'_>>
    ensures { result ≡ range.now }
{
    FileRange {
        file: range.file.lend(),
        offset: range.offset,
        count: range.count,
    }
}

fn lend_set_attr(args: &SetAttrArgs<Text>) -> SetAttrArgs<TextRef<'_>>
    ensures { result ≡ args.now }
{
    SetAttrArgs {
        object: args.object.lend(),
        attributes: args.attributes,
        guard: args.guard,
    }
}

fn lend_write(args: &WriteArgs<Text>) -> WriteArgs<TextRef<'_>>
    ensures { result ≡ args.now }
{
    WriteArgs {
        file: args.file.lend(),
        offset: args.offset,
        count: args.count,
        stable: args.stable,
        data: args.data.lend(),
    }
}

fn lend_symlink(args: &SymlinkArgs<Text>) -> SymlinkArgs<TextRef<'_>>
    ensures { result ≡ args.now }
{
    SymlinkArgs {
        place: lend_place(&args.place),
        attributes: args.attributes,
        target: args.target.lend(),
    }
}

fn lend_read_dir(args: &ReadDirArgs<Text>) -> ReadDirArgs<TextRef<'_>>
    ensures { result ≡ args.now }
{
    ReadDirArgs {
        directory: args.directory.lend(),
        cookie: args.cookie,
        verifier: args.verifier,
        count: args.count,
    }
}

fn lend_read_dir_plus(args: &ReadDirPlusArgs<Text>) -> ReadDirPlusArgs<TextRef<'_>>
    ensures { result ≡ args.now }
{
    ReadDirPlusArgs {
        directory: args.directory.lend(),
        cookie: args.cookie,
        verifier: args.verifier,
        dircount: args.dircount,
        maxcount: args.maxcount,
    }
}

impl CallOver<Text> {
    /// The same call, lent. It takes no memory.
    pub fn lend(&self) -> Call<'_>
        ensures { result ≡ self.now }
    {
        match self {
            CallOver::Null => CallOver::Null,
            CallOver::GetAttr(object) => CallOver::GetAttr(object.lend()),
            CallOver::SetAttr(args) => CallOver::SetAttr(lend_set_attr(args)),
            CallOver::Lookup(place) => CallOver::Lookup(lend_place(place)),
            CallOver::Access(args) => CallOver::Access(AccessArgs {
                object: args.object.lend(),
                access: args.access,
            }),
            CallOver::ReadLink(link) => CallOver::ReadLink(link.lend()),
            CallOver::Read(range) => CallOver::Read(lend_range(range)),
            CallOver::Write(args) => CallOver::Write(lend_write(args)),
            CallOver::Create(args) => CallOver::Create(CreateArgs {
                place: lend_place(&args.place),
                how: args.how,
            }),
            CallOver::Mkdir(args) => CallOver::Mkdir(MkdirArgs {
                place: lend_place(&args.place),
                attributes: args.attributes,
            }),
            CallOver::Symlink(args) => CallOver::Symlink(lend_symlink(args)),
            CallOver::Mknod(args) => CallOver::Mknod(MknodArgs {
                place: lend_place(&args.place),
                what: args.what,
            }),
            CallOver::Remove(place) => CallOver::Remove(lend_place(place)),
            CallOver::Rmdir(place) => CallOver::Rmdir(lend_place(place)),
            CallOver::Rename(args) => CallOver::Rename(RenameArgs {
                from: lend_place(&args.from),
                to: lend_place(&args.to),
            }),
            CallOver::Link(args) => CallOver::Link(LinkArgs {
                file: args.file.lend(),
                link: lend_place(&args.link),
            }),
            CallOver::ReadDir(args) => CallOver::ReadDir(lend_read_dir(args)),
            CallOver::ReadDirPlus(args) => CallOver::ReadDirPlus(lend_read_dir_plus(args)),
            CallOver::FsStat(object) => CallOver::FsStat(object.lend()),
            CallOver::FsInfo(object) => CallOver::FsInfo(object.lend()),
            CallOver::PathConf(object) => CallOver::PathConf(object.lend()),
            CallOver::Commit(range) => CallOver::Commit(lend_range(range)),
        }
    }
}
