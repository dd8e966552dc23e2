//! How many bytes arguments take.

ghost use Rattle.std.specs.Prelude.{◌≡◌, ◌^◌, ◌<◌, ◌≤◌};
ghost use Rattle.nfs3_args.specs.Fitting.{CanBeSpelled};
ghost use Rattle.nfs3_types.specs.Calls.{called, procedure_of, arguments, call_of, dir_op, create_how, mknod_data, set_attr_args};
ghost use Rattle.nfs3_types.specs.Calls.{access_args, file_range, write_args, create_args, mkdir_args, symlink_args, mknod_args};
ghost use Rattle.nfs3_types.specs.Calls.{rename_args, link_args, read_dir_args, read_dir_plus_args};

use crate::texts::{handle_size, text_size};
use nfs3_items::{optional_time_size, sattr_size};
use nfs3_types::{
    AccessArgs, Call, CallOver, CreateArgs, CreateHow, DirOp, FileRange, LinkArgs, MkdirArgs,
    MknodArgs, MknodData, ReadDirArgs, ReadDirPlusArgs, RenameArgs, SetAttrArgs, SymlinkArgs,
    TextRef, WriteArgs,
};

#[tactic(auto, unfolding(nfs3_types::specs::Calls::dir_op, xdr_grammar::specs::Items::word))]
fn place_size(place: &DirOp<TextRef<'_>>) -> usize
    requires spelled { dir_op.Fits place.now }
    requires short { dir_op.size place.now < 2 ^ 31 }
    ensures { result ≡ dir_op.size place.now }
{
    handle_size(&place.directory) + text_size(&place.name)
}

#[tactic(auto, unfolding(nfs3_types::specs::Calls::create_how, nfs3_types::specs::Calls::verifier, xdr_grammar::specs::Items::pick, xdr_grammar::specs::Items::word, xdr_grammar::specs::Items::fixed))]
fn how_size(how: &CreateHow) -> usize
    ensures is { result ≡ create_how.size how.now }
    ensures small { result ≤ 64 }
{
    match how {
        CreateHow::Unchecked(attributes) | CreateHow::Guarded(attributes) => 4
            + sattr_size(attributes),
        CreateHow::Exclusive(_) => 12,
    }
}

#[tactic(auto, unfolding(nfs3_types::specs::Calls::mknod_data, nfs3_types::specs::Calls::of_type, nfs3_types::specs::Calls::device_data, nfs3_types::specs::Attributes::spec_data, nfs3_types::specs::FileTypes::file_type, xdr_grammar::specs::Enumerations::enumeration, xdr_grammar::specs::Items::word))]
fn what_size(what: &MknodData) -> usize
    ensures is { result ≡ mknod_data.size what.now }
    ensures small { result ≤ 72 }
{
    match what {
        MknodData::Chr(device) | MknodData::Blk(device) => 12 + sattr_size(&device.attributes),
        MknodData::Sock(attributes) | MknodData::Fifo(attributes) => 4 + sattr_size(attributes),
        MknodData::Other(_) => 4,
    }
}

#[tactic(auto, unfolding(nfs3_types::specs::Calls::set_attr_args))]
fn set_attr_args_size(args: &SetAttrArgs<TextRef<'_>>) -> usize
    requires spelled { set_attr_args.Fits args.now }
    requires short { set_attr_args.size args.now < 2 ^ 31 }
    ensures { result ≡ set_attr_args.size args.now }
{
    handle_size(&args.object) + sattr_size(&args.attributes) + optional_time_size(&args.guard)
}

#[tactic(auto, unfolding(nfs3_types::specs::Calls::access_args, xdr_grammar::specs::Items::word))]
fn access_args_size(args: &AccessArgs<TextRef<'_>>) -> usize
    requires spelled { access_args.Fits args.now }
    requires short { access_args.size args.now < 2 ^ 31 }
    ensures { result ≡ access_args.size args.now }
{
    4 + handle_size(&args.object)
}

#[tactic(auto, unfolding(nfs3_types::specs::Calls::file_range, xdr_grammar::specs::Items::word, xdr_grammar::specs::Items::hyper))]
fn file_range_size(args: &FileRange<TextRef<'_>>) -> usize
    requires spelled { file_range.Fits args.now }
    requires short { file_range.size args.now < 2 ^ 31 }
    ensures { result ≡ file_range.size args.now }
{
    12 + handle_size(&args.file)
}

#[tactic(auto, unfolding(nfs3_types::specs::Calls::write_args, xdr_grammar::specs::Items::word, xdr_grammar::specs::Items::hyper, nfs3_types::specs::Stability::stable_how, xdr_grammar::specs::Enumerations::enumeration))]
fn write_args_size(args: &WriteArgs<TextRef<'_>>) -> usize
    requires spelled { write_args.Fits args.now }
    requires short { write_args.size args.now < 2 ^ 31 }
    ensures { result ≡ write_args.size args.now }
{
    16 + handle_size(&args.file) + text_size(&args.data)
}

#[tactic(auto, unfolding(nfs3_types::specs::Calls::create_args))]
fn create_args_size(args: &CreateArgs<TextRef<'_>>) -> usize
    requires spelled { create_args.Fits args.now }
    requires short { create_args.size args.now < 2 ^ 31 }
    ensures { result ≡ create_args.size args.now }
{
    place_size(&args.place) + how_size(&args.how)
}

#[tactic(auto, unfolding(nfs3_types::specs::Calls::mkdir_args))]
fn mkdir_args_size(args: &MkdirArgs<TextRef<'_>>) -> usize
    requires spelled { mkdir_args.Fits args.now }
    requires short { mkdir_args.size args.now < 2 ^ 31 }
    ensures { result ≡ mkdir_args.size args.now }
{
    place_size(&args.place) + sattr_size(&args.attributes)
}

#[tactic(auto, unfolding(nfs3_types::specs::Calls::symlink_args, xdr_grammar::specs::Items::word))]
fn symlink_args_size(args: &SymlinkArgs<TextRef<'_>>) -> usize
    requires spelled { symlink_args.Fits args.now }
    requires short { symlink_args.size args.now < 2 ^ 31 }
    ensures { result ≡ symlink_args.size args.now }
{
    place_size(&args.place) + sattr_size(&args.attributes) + text_size(&args.target)
}

#[tactic(auto, unfolding(nfs3_types::specs::Calls::mknod_args))]
fn mknod_args_size(args: &MknodArgs<TextRef<'_>>) -> usize
    requires spelled { mknod_args.Fits args.now }
    requires short { mknod_args.size args.now < 2 ^ 31 }
    ensures { result ≡ mknod_args.size args.now }
{
    place_size(&args.place) + what_size(&args.what)
}

#[tactic(auto, unfolding(nfs3_types::specs::Calls::rename_args))]
fn rename_args_size(args: &RenameArgs<TextRef<'_>>) -> usize
    requires spelled { rename_args.Fits args.now }
    requires short { rename_args.size args.now < 2 ^ 31 }
    ensures { result ≡ rename_args.size args.now }
{
    place_size(&args.from) + place_size(&args.to)
}

#[tactic(auto, unfolding(nfs3_types::specs::Calls::link_args))]
fn link_args_size(args: &LinkArgs<TextRef<'_>>) -> usize
    requires spelled { link_args.Fits args.now }
    requires short { link_args.size args.now < 2 ^ 31 }
    ensures { result ≡ link_args.size args.now }
{
    handle_size(&args.file) + place_size(&args.link)
}

#[tactic(auto, unfolding(nfs3_types::specs::Calls::read_dir_args, xdr_grammar::specs::Items::word, xdr_grammar::specs::Items::hyper, nfs3_types::specs::Calls::verifier, xdr_grammar::specs::Items::fixed))]
fn read_dir_args_size(args: &ReadDirArgs<TextRef<'_>>) -> usize
    requires spelled { read_dir_args.Fits args.now }
    requires short { read_dir_args.size args.now < 2 ^ 31 }
    ensures { result ≡ read_dir_args.size args.now }
{
    20 + handle_size(&args.directory)
}

#[tactic(auto, unfolding(nfs3_types::specs::Calls::read_dir_plus_args, xdr_grammar::specs::Items::word, xdr_grammar::specs::Items::hyper, nfs3_types::specs::Calls::verifier, xdr_grammar::specs::Items::fixed))]
fn read_dir_plus_args_size(args: &ReadDirPlusArgs<TextRef<'_>>) -> usize
    requires spelled { read_dir_plus_args.Fits args.now }
    requires short { read_dir_plus_args.size args.now < 2 ^ 31 }
    ensures { result ≡ read_dir_plus_args.size args.now }
{
    24 + handle_size(&args.directory)
}

#[tactic(auto, unfolding(nfs3_types::specs::Calls::arguments))]
fn size_of(lent: &Call<'_>) -> usize
    requires spelled { CanBeSpelled lent.now }
    requires short { (arguments (called lent.now)).size lent.now < 2 ^ 31 }
    ensures { result ≡ (arguments (called lent.now)).size lent.now }
{
    match lent {
        CallOver::Null => 0,
        CallOver::GetAttr(args) => handle_size(args),
        CallOver::SetAttr(args) => set_attr_args_size(args),
        CallOver::Lookup(args) => place_size(args),
        CallOver::Access(args) => access_args_size(args),
        CallOver::ReadLink(args) => handle_size(args),
        CallOver::Read(args) => file_range_size(args),
        CallOver::Write(args) => write_args_size(args),
        CallOver::Create(args) => create_args_size(args),
        CallOver::Mkdir(args) => mkdir_args_size(args),
        CallOver::Symlink(args) => symlink_args_size(args),
        CallOver::Mknod(args) => mknod_args_size(args),
        CallOver::Remove(args) => place_size(args),
        CallOver::Rmdir(args) => place_size(args),
        CallOver::Rename(args) => rename_args_size(args),
        CallOver::Link(args) => link_args_size(args),
        CallOver::ReadDir(args) => read_dir_args_size(args),
        CallOver::ReadDirPlus(args) => read_dir_plus_args_size(args),
        CallOver::FsStat(args) => handle_size(args),
        CallOver::FsInfo(args) => handle_size(args),
        CallOver::PathConf(args) => handle_size(args),
        CallOver::Commit(args) => file_range_size(args),
    }
}

/// How many bytes the one spelling of a call's arguments has, which has to be one, shorter than 2^31 bytes.
pub fn args_size(lent: &Call<'_>) -> usize
    requires spelled { (call_of (procedure_of lent.now)).Fits lent.now }
    requires short { (call_of (procedure_of lent.now)).size lent.now < 2 ^ 31 }
    ensures { result ≡ (call_of (procedure_of lent.now)).size lent.now }
{
    size_of(lent)
}
