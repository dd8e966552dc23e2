//! Reading what stands behind a directory's name, and the arguments of each procedure.

ghost use Rattle.xdr_grammar.specs.Reading.{Gives};
ghost use Rattle.nfs3_types.specs.Calls.{dir_op, create_how, device_data, of_type, mknod_data, set_attr_args, access_args};
ghost use Rattle.nfs3_types.specs.Calls.{file_range, write_args, create_args, mkdir_args, symlink_args, mknod_args, rename_args};
ghost use Rattle.nfs3_types.specs.Calls.{link_args, read_dir_args, read_dir_plus_args};

use nfs3_items::{
    read_file_type, read_handle, read_optional_time, read_sattr, read_spec_data, read_stable_how,
    read_text, read_verifier,
};
use nfs3_types::{
    AccessArgs, CreateArgs, CreateHow, DeviceData, DirOp, FileRange, FileType, LinkArgs, MkdirArgs,
    MknodArgs, MknodData, ReadDirArgs, ReadDirPlusArgs, RenameArgs, SetAttrArgs, SymlinkArgs,
    TextRef, WriteArgs,
};
use xdr::Reader;
use xdr_grammar::XdrFault;

#[tactic(auto, unfolding(nfs3_types::specs::Calls::dir_op))]
pub fn read_place<'a>(reader: &mut Reader<'a>) -> Result<DirOp<TextRef<'a>>, XdrFault>
    ensures { Gives dir_op (λ place. place) reader.old reader.new result }
{
    Ok(DirOp {
        directory: read_handle(reader)?,
        name: read_text(reader)?,
    })
}

#[tactic(auto, unfolding(nfs3_types::specs::Calls::create_how))]
fn read_create_how(reader: &mut Reader<'_>) -> Result<CreateHow, XdrFault>
    ensures { Gives create_how (λ how. how) reader.old reader.new result }
{
    match reader.pick(0, 2)? {
        0 => Ok(CreateHow::Unchecked(read_sattr(reader)?)),
        1 => Ok(CreateHow::Guarded(read_sattr(reader)?)),
        _ => Ok(CreateHow::Exclusive(read_verifier(reader)?)),
    }
}

#[tactic(auto, unfolding(nfs3_types::specs::Calls::device_data))]
fn read_device(reader: &mut Reader<'_>) -> Result<DeviceData, XdrFault>
    ensures { Gives device_data (λ device. device) reader.old reader.new result }
{
    Ok(DeviceData {
        attributes: read_sattr(reader)?,
        spec: read_spec_data(reader)?,
    })
}

/// Reads what stands behind the type of what is to be made.
#[tactic(auto, unfolding(nfs3_types::specs::Calls::of_type))]
fn read_of_type(reader: &mut Reader<'_>, kind: FileType) -> Result<MknodData, XdrFault>
    ensures { Gives (of_type kind) (λ what. what) reader.old reader.new result }
{
    match kind {
        FileType::Chr => Ok(MknodData::Chr(read_device(reader)?)),
        FileType::Blk => Ok(MknodData::Blk(read_device(reader)?)),
        FileType::Sock => Ok(MknodData::Sock(read_sattr(reader)?)),
        FileType::Fifo => Ok(MknodData::Fifo(read_sattr(reader)?)),
        FileType::Reg | FileType::Dir | FileType::Lnk => Ok(MknodData::Other(kind)),
    }
}

#[tactic(auto, unfolding(nfs3_types::specs::Calls::mknod_data))]
fn read_mknod_data(reader: &mut Reader<'_>) -> Result<MknodData, XdrFault>
    ensures { Gives mknod_data (λ what. what) reader.old reader.new result }
{
    let kind = read_file_type(reader)?;
    read_of_type(reader, kind)
}

#[tactic(auto, unfolding(nfs3_types::specs::Calls::set_attr_args))]
pub fn read_set_attr_args<'a>(reader: &mut Reader<'a>) -> Result<SetAttrArgs<TextRef<'a>>, XdrFault>
    ensures { Gives set_attr_args (λ args. args) reader.old reader.new result }
{
    Ok(SetAttrArgs {
        object: read_handle(reader)?,
        attributes: read_sattr(reader)?,
        guard: read_optional_time(reader)?,
    })
}

#[tactic(auto, unfolding(nfs3_types::specs::Calls::access_args))]
pub fn read_access_args<'a>(reader: &mut Reader<'a>) -> Result<AccessArgs<TextRef<'a>>, XdrFault>
    ensures { Gives access_args (λ args. args) reader.old reader.new result }
{
    Ok(AccessArgs {
        object: read_handle(reader)?,
        access: reader.word()?,
    })
}

#[tactic(auto, unfolding(nfs3_types::specs::Calls::file_range))]
pub fn read_file_range<'a>(reader: &mut Reader<'a>) -> Result<FileRange<TextRef<'a>>, XdrFault>
    ensures { Gives file_range (λ args. args) reader.old reader.new result }
{
    Ok(FileRange {
        file: read_handle(reader)?,
        offset: reader.hyper()?,
        count: reader.word()?,
    })
}

#[tactic(auto, unfolding(nfs3_types::specs::Calls::write_args))]
pub fn read_write_args<'a>(reader: &mut Reader<'a>) -> Result<WriteArgs<TextRef<'a>>, XdrFault>
    ensures { Gives write_args (λ args. args) reader.old reader.new result }
{
    Ok(WriteArgs {
        file: read_handle(reader)?,
        offset: reader.hyper()?,
        count: reader.word()?,
        stable: read_stable_how(reader)?,
        data: read_text(reader)?,
    })
}

#[tactic(auto, unfolding(nfs3_types::specs::Calls::create_args))]
pub fn read_create_args<'a>(reader: &mut Reader<'a>) -> Result<CreateArgs<TextRef<'a>>, XdrFault>
    ensures { Gives create_args (λ args. args) reader.old reader.new result }
{
    Ok(CreateArgs {
        place: read_place(reader)?,
        how: read_create_how(reader)?,
    })
}

#[tactic(auto, unfolding(nfs3_types::specs::Calls::mkdir_args))]
pub fn read_mkdir_args<'a>(reader: &mut Reader<'a>) -> Result<MkdirArgs<TextRef<'a>>, XdrFault>
    ensures { Gives mkdir_args (λ args. args) reader.old reader.new result }
{
    Ok(MkdirArgs {
        place: read_place(reader)?,
        attributes: read_sattr(reader)?,
    })
}

#[tactic(auto, unfolding(nfs3_types::specs::Calls::symlink_args))]
pub fn read_symlink_args<'a>(reader: &mut Reader<'a>) -> Result<SymlinkArgs<TextRef<'a>>, XdrFault>
    ensures { Gives symlink_args (λ args. args) reader.old reader.new result }
{
    Ok(SymlinkArgs {
        place: read_place(reader)?,
        attributes: read_sattr(reader)?,
        target: read_text(reader)?,
    })
}

#[tactic(auto, unfolding(nfs3_types::specs::Calls::mknod_args))]
pub fn read_mknod_args<'a>(reader: &mut Reader<'a>) -> Result<MknodArgs<TextRef<'a>>, XdrFault>
    ensures { Gives mknod_args (λ args. args) reader.old reader.new result }
{
    Ok(MknodArgs {
        place: read_place(reader)?,
        what: read_mknod_data(reader)?,
    })
}

#[tactic(auto, unfolding(nfs3_types::specs::Calls::rename_args))]
pub fn read_rename_args<'a>(reader: &mut Reader<'a>) -> Result<RenameArgs<TextRef<'a>>, XdrFault>
    ensures { Gives rename_args (λ args. args) reader.old reader.new result }
{
    Ok(RenameArgs {
        from: read_place(reader)?,
        to: read_place(reader)?,
    })
}

#[tactic(auto, unfolding(nfs3_types::specs::Calls::link_args))]
pub fn read_link_args<'a>(reader: &mut Reader<'a>) -> Result<LinkArgs<TextRef<'a>>, XdrFault>
    ensures { Gives link_args (λ args. args) reader.old reader.new result }
{
    Ok(LinkArgs {
        file: read_handle(reader)?,
        link: read_place(reader)?,
    })
}

#[tactic(auto, unfolding(nfs3_types::specs::Calls::read_dir_args))]
pub fn read_read_dir_args<'a>(reader: &mut Reader<'a>) -> Result<ReadDirArgs<TextRef<'a>>, XdrFault>
    ensures { Gives read_dir_args (λ args. args) reader.old reader.new result }
{
    Ok(ReadDirArgs {
        directory: read_handle(reader)?,
        cookie: reader.hyper()?,
        verifier: read_verifier(reader)?,
        count: reader.word()?,
    })
}

#[tactic(auto, unfolding(nfs3_types::specs::Calls::read_dir_plus_args))]
pub fn read_read_dir_plus_args<'a>(
    reader: &mut Reader<'a>,
) -> Result<ReadDirPlusArgs<TextRef<'a>>, XdrFault>
    ensures { Gives read_dir_plus_args (λ args. args) reader.old reader.new result }
{
    Ok(ReadDirPlusArgs {
        directory: read_handle(reader)?,
        cookie: reader.hyper()?,
        verifier: read_verifier(reader)?,
        dircount: reader.word()?,
        maxcount: reader.word()?,
    })
}
