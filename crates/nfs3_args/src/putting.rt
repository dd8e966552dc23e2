//! Writing the arguments of each procedure.

ghost use Rattle.xdr_grammar.specs.Writing.{Puts};
ghost use Rattle.nfs3_types.specs.Calls.{dir_op, create_how, device_data, mknod_data, set_attr_args, access_args, file_range};
ghost use Rattle.nfs3_types.specs.Calls.{write_args, create_args, mkdir_args, symlink_args, mknod_args, rename_args, link_args};
ghost use Rattle.nfs3_types.specs.Calls.{read_dir_args, read_dir_plus_args};

use crate::texts::{put_handle, put_text};
use nfs3_items::{
    put_file_type, put_optional_time, put_sattr, put_spec_data, put_stable_how, put_verifier,
};
use nfs3_types::{
    AccessArgs, CreateArgs, CreateHow, DeviceData, DirOp, FileRange, FileType, LinkArgs, MkdirArgs,
    MknodArgs, MknodData, NoMemory, ReadDirArgs, ReadDirPlusArgs, RenameArgs, SetAttrArgs,
    SymlinkArgs, TextRef, WriteArgs,
};
use xdr::{put_hyper, put_word};

#[tactic(auto, unfolding(nfs3_types::specs::Calls::dir_op, xdr_grammar::specs::Items::word))]
pub fn put_place(out: &mut Vec<u8>, place: &DirOp<TextRef<'_>>) -> Result<(), NoMemory>
    requires { dir_op.Fits place.now }
    ensures { Puts dir_op place.now out.old out.new result }
{
    put_handle(out, &place.directory)?;
    put_text(out, &place.name)
}

#[tactic(auto, unfolding(nfs3_types::specs::Calls::create_how, xdr_grammar::specs::Items::pick, xdr_grammar::specs::Items::word))]
fn put_create_how(out: &mut Vec<u8>, how: &CreateHow) -> Result<(), NoMemory>
    ensures { Puts create_how how.now out.old out.new result }
{
    match how {
        CreateHow::Unchecked(attributes) => {
            put_word(out, 0)?;
            put_sattr(out, attributes)
        }
        CreateHow::Guarded(attributes) => {
            put_word(out, 1)?;
            put_sattr(out, attributes)
        }
        CreateHow::Exclusive(verifier) => {
            put_word(out, 2)?;
            put_verifier(out, *verifier)
        }
    }
}

#[tactic(auto, unfolding(nfs3_types::specs::Calls::device_data))]
fn put_device(out: &mut Vec<u8>, device: &DeviceData) -> Result<(), NoMemory>
    ensures { Puts device_data device.now out.old out.new result }
{
    put_sattr(out, &device.attributes)?;
    put_spec_data(out, device.spec)
}

#[tactic(auto, unfolding(nfs3_types::specs::Calls::mknod_data, nfs3_types::specs::Calls::of_type))]
fn put_mknod_data(out: &mut Vec<u8>, what: &MknodData) -> Result<(), NoMemory>
    requires { mknod_data.Fits what.now }
    ensures { Puts mknod_data what.now out.old out.new result }
{
    match what {
        MknodData::Chr(device) => {
            put_file_type(out, FileType::Chr)?;
            put_device(out, device)
        }
        MknodData::Blk(device) => {
            put_file_type(out, FileType::Blk)?;
            put_device(out, device)
        }
        MknodData::Sock(attributes) => {
            put_file_type(out, FileType::Sock)?;
            put_sattr(out, attributes)
        }
        MknodData::Fifo(attributes) => {
            put_file_type(out, FileType::Fifo)?;
            put_sattr(out, attributes)
        }
        MknodData::Other(kind) => put_file_type(out, *kind),
    }
}

#[tactic(auto, unfolding(nfs3_types::specs::Calls::set_attr_args))]
pub fn put_set_attr_args(out: &mut Vec<u8>, args: &SetAttrArgs<TextRef<'_>>) -> Result<(), NoMemory>
    requires { set_attr_args.Fits args.now }
    ensures { Puts set_attr_args args.now out.old out.new result }
{
    put_handle(out, &args.object)?;
    put_sattr(out, &args.attributes)?;
    put_optional_time(out, args.guard)
}

#[tactic(auto, unfolding(nfs3_types::specs::Calls::access_args, xdr_grammar::specs::Items::word))]
pub fn put_access_args(out: &mut Vec<u8>, args: &AccessArgs<TextRef<'_>>) -> Result<(), NoMemory>
    requires { access_args.Fits args.now }
    ensures { Puts access_args args.now out.old out.new result }
{
    put_handle(out, &args.object)?;
    put_word(out, args.access)
}

#[tactic(auto, unfolding(nfs3_types::specs::Calls::file_range, xdr_grammar::specs::Items::word, xdr_grammar::specs::Items::hyper))]
pub fn put_file_range(out: &mut Vec<u8>, args: &FileRange<TextRef<'_>>) -> Result<(), NoMemory>
    requires { file_range.Fits args.now }
    ensures { Puts file_range args.now out.old out.new result }
{
    put_handle(out, &args.file)?;
    put_hyper(out, args.offset)?;
    put_word(out, args.count)
}

#[tactic(auto, unfolding(nfs3_types::specs::Calls::write_args, xdr_grammar::specs::Items::word, xdr_grammar::specs::Items::hyper))]
pub fn put_write_args(out: &mut Vec<u8>, args: &WriteArgs<TextRef<'_>>) -> Result<(), NoMemory>
    requires { write_args.Fits args.now }
    ensures { Puts write_args args.now out.old out.new result }
{
    put_handle(out, &args.file)?;
    put_hyper(out, args.offset)?;
    put_word(out, args.count)?;
    put_stable_how(out, args.stable)?;
    put_text(out, &args.data)
}

#[tactic(auto, unfolding(nfs3_types::specs::Calls::create_args))]
pub fn put_create_args(out: &mut Vec<u8>, args: &CreateArgs<TextRef<'_>>) -> Result<(), NoMemory>
    requires { create_args.Fits args.now }
    ensures { Puts create_args args.now out.old out.new result }
{
    put_place(out, &args.place)?;
    put_create_how(out, &args.how)
}

#[tactic(auto, unfolding(nfs3_types::specs::Calls::mkdir_args))]
pub fn put_mkdir_args(out: &mut Vec<u8>, args: &MkdirArgs<TextRef<'_>>) -> Result<(), NoMemory>
    requires { mkdir_args.Fits args.now }
    ensures { Puts mkdir_args args.now out.old out.new result }
{
    put_place(out, &args.place)?;
    put_sattr(out, &args.attributes)
}

#[tactic(auto, unfolding(nfs3_types::specs::Calls::symlink_args, xdr_grammar::specs::Items::word))]
pub fn put_symlink_args(out: &mut Vec<u8>, args: &SymlinkArgs<TextRef<'_>>) -> Result<(), NoMemory>
    requires { symlink_args.Fits args.now }
    ensures { Puts symlink_args args.now out.old out.new result }
{
    put_place(out, &args.place)?;
    put_sattr(out, &args.attributes)?;
    put_text(out, &args.target)
}

#[tactic(auto, unfolding(nfs3_types::specs::Calls::mknod_args))]
pub fn put_mknod_args(out: &mut Vec<u8>, args: &MknodArgs<TextRef<'_>>) -> Result<(), NoMemory>
    requires { mknod_args.Fits args.now }
    ensures { Puts mknod_args args.now out.old out.new result }
{
    put_place(out, &args.place)?;
    put_mknod_data(out, &args.what)
}

#[tactic(auto, unfolding(nfs3_types::specs::Calls::rename_args))]
pub fn put_rename_args(out: &mut Vec<u8>, args: &RenameArgs<TextRef<'_>>) -> Result<(), NoMemory>
    requires { rename_args.Fits args.now }
    ensures { Puts rename_args args.now out.old out.new result }
{
    put_place(out, &args.from)?;
    put_place(out, &args.to)
}

#[tactic(auto, unfolding(nfs3_types::specs::Calls::link_args))]
pub fn put_link_args(out: &mut Vec<u8>, args: &LinkArgs<TextRef<'_>>) -> Result<(), NoMemory>
    requires { link_args.Fits args.now }
    ensures { Puts link_args args.now out.old out.new result }
{
    put_handle(out, &args.file)?;
    put_place(out, &args.link)
}

#[tactic(auto, unfolding(nfs3_types::specs::Calls::read_dir_args, xdr_grammar::specs::Items::word, xdr_grammar::specs::Items::hyper))]
pub fn put_read_dir_args(out: &mut Vec<u8>, args: &ReadDirArgs<TextRef<'_>>) -> Result<(), NoMemory>
    requires { read_dir_args.Fits args.now }
    ensures { Puts read_dir_args args.now out.old out.new result }
{
    put_handle(out, &args.directory)?;
    put_hyper(out, args.cookie)?;
    put_verifier(out, args.verifier)?;
    put_word(out, args.count)
}

#[tactic(auto, unfolding(nfs3_types::specs::Calls::read_dir_plus_args, xdr_grammar::specs::Items::word, xdr_grammar::specs::Items::hyper))]
pub fn put_read_dir_plus_args(
    out: &mut Vec<u8>,
    args: &ReadDirPlusArgs<TextRef<'_>>,
) -> Result<(), NoMemory>
    requires { read_dir_plus_args.Fits args.now }
    ensures { Puts read_dir_plus_args args.now out.old out.new result }
{
    put_handle(out, &args.directory)?;
    put_hyper(out, args.cookie)?;
    put_verifier(out, args.verifier)?;
    put_word(out, args.dircount)?;
    put_word(out, args.maxcount)
}
