//! A lent call, owned.

ghost use Rattle.std.specs.Prelude.{◌≡◌, IfOk};

use crate::args::{
    AccessArgs, CreateArgs, DirOp, FileRange, LinkArgs, MkdirArgs, MknodArgs, ReadDirArgs,
    ReadDirPlusArgs, RenameArgs, SetAttrArgs, SymlinkArgs, WriteArgs,
};
use crate::call::{Call, CallOver, OwnCall};
use crate::memory::NoMemory;
use crate::text::Text;
use crate::text_ref::TextRef;
use std::alloc::Global;

fn own_text(alloc: Global, text: &TextRef<'_>) -> Result<Text, NoMemory>
    ensures { IfOk result (λ own. own ≡ text.now) }
{
    Text::from_slice(alloc, text.as_slice())
}

fn own_place(alloc: Global, place: &DirOp<TextRef<'_>>) -> Result<DirOp<Text>, NoMemory>
    ensures { IfOk result (λ own. own ≡ place.now) }
{
    Ok(DirOp {
        directory: own_text(alloc, &place.directory)?,
        name: own_text(alloc, &place.name)?,
    })
}

fn own_range(alloc: Global, range: &FileRange<TextRef<'_>>) -> Result<FileRange<Text>, NoMemory>
    ensures { IfOk result (λ own. own ≡ range.now) }
{
    Ok(FileRange {
        file: own_text(alloc, &range.file)?,
        offset: range.offset,
        count: range.count,
    })
}

fn own_set_attr(
    alloc: Global,
    args: &SetAttrArgs<TextRef<'_>>,
) -> Result<SetAttrArgs<Text>, NoMemory>
    ensures { IfOk result (λ own. own ≡ args.now) }
{
    Ok(SetAttrArgs {
        object: own_text(alloc, &args.object)?,
        attributes: args.attributes,
        guard: args.guard,
    })
}

fn own_write(alloc: Global, args: &WriteArgs<TextRef<'_>>) -> Result<WriteArgs<Text>, NoMemory>
    ensures { IfOk result (λ own. own ≡ args.now) }
{
    Ok(WriteArgs {
        file: own_text(alloc, &args.file)?,
        offset: args.offset,
        count: args.count,
        stable: args.stable,
        data: own_text(alloc, &args.data)?,
    })
}

fn own_symlink(
    alloc: Global,
    args: &SymlinkArgs<TextRef<'_>>,
) -> Result<SymlinkArgs<Text>, NoMemory>
    ensures { IfOk result (λ own. own ≡ args.now) }
{
    Ok(SymlinkArgs {
        place: own_place(alloc, &args.place)?,
        attributes: args.attributes,
        target: own_text(alloc, &args.target)?,
    })
}

fn own_read_dir(
    alloc: Global,
    args: &ReadDirArgs<TextRef<'_>>,
) -> Result<ReadDirArgs<Text>, NoMemory>
    ensures { IfOk result (λ own. own ≡ args.now) }
{
    Ok(ReadDirArgs {
        directory: own_text(alloc, &args.directory)?,
        cookie: args.cookie,
        verifier: args.verifier,
        count: args.count,
    })
}

fn own_read_dir_plus(
    alloc: Global,
    args: &ReadDirPlusArgs<TextRef<'_>>,
) -> Result<ReadDirPlusArgs<Text>, NoMemory>
    ensures { IfOk result (λ own. own ≡ args.now) }
{
    Ok(ReadDirPlusArgs {
        directory: own_text(alloc, &args.directory)?,
        cookie: args.cookie,
        verifier: args.verifier,
        dircount: args.dircount,
        maxcount: args.maxcount,
    })
}

/// The same call, owned, or `NoMemory`.
pub fn own_call(alloc: Global, lent: &Call<'_>) -> Result<OwnCall, NoMemory>
    ensures { IfOk result (λ own. own ≡ lent.now) }
{
    Ok(match lent {
        CallOver::Null => CallOver::Null,
        CallOver::GetAttr(object) => CallOver::GetAttr(own_text(alloc, object)?),
        CallOver::SetAttr(args) => CallOver::SetAttr(own_set_attr(alloc, args)?),
        CallOver::Lookup(place) => CallOver::Lookup(own_place(alloc, place)?),
        CallOver::Access(args) => CallOver::Access(AccessArgs {
            object: own_text(alloc, &args.object)?,
            access: args.access,
        }),
        CallOver::ReadLink(link) => CallOver::ReadLink(own_text(alloc, link)?),
        CallOver::Read(range) => CallOver::Read(own_range(alloc, range)?),
        CallOver::Write(args) => CallOver::Write(own_write(alloc, args)?),
        CallOver::Create(args) => CallOver::Create(CreateArgs {
            place: own_place(alloc, &args.place)?,
            how: args.how,
        }),
        CallOver::Mkdir(args) => CallOver::Mkdir(MkdirArgs {
            place: own_place(alloc, &args.place)?,
            attributes: args.attributes,
        }),
        CallOver::Symlink(args) => CallOver::Symlink(own_symlink(alloc, args)?),
        CallOver::Mknod(args) => CallOver::Mknod(MknodArgs {
            place: own_place(alloc, &args.place)?,
            what: args.what,
        }),
        CallOver::Remove(place) => CallOver::Remove(own_place(alloc, place)?),
        CallOver::Rmdir(place) => CallOver::Rmdir(own_place(alloc, place)?),
        CallOver::Rename(args) => CallOver::Rename(RenameArgs {
            from: own_place(alloc, &args.from)?,
            to: own_place(alloc, &args.to)?,
        }),
        CallOver::Link(args) => CallOver::Link(LinkArgs {
            file: own_text(alloc, &args.file)?,
            link: own_place(alloc, &args.link)?,
        }),
        CallOver::ReadDir(args) => CallOver::ReadDir(own_read_dir(alloc, args)?),
        CallOver::ReadDirPlus(args) => CallOver::ReadDirPlus(own_read_dir_plus(alloc, args)?),
        CallOver::FsStat(object) => CallOver::FsStat(own_text(alloc, object)?),
        CallOver::FsInfo(object) => CallOver::FsInfo(own_text(alloc, object)?),
        CallOver::PathConf(object) => CallOver::PathConf(own_text(alloc, object)?),
        CallOver::Commit(range) => CallOver::Commit(own_range(alloc, range)?),
    })
}
