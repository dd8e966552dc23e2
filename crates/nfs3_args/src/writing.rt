//! Writing arguments.

ghost use Rattle.std.specs.Prelude.{◌≡◌, ◌-◌, ◌^◌, ◌<◌, OnErr};
ghost use Rattle.xdr_grammar.specs.Writing.{Puts};
ghost use Rattle.nfs3_types.specs.Calls.{called, procedure_of, arguments, call_of};
ghost use Rattle.nfs3_args.specs.Fitting.{CanBeSpelled};

use crate::putting::{
    put_access_args, put_create_args, put_file_range, put_link_args, put_mkdir_args,
    put_mknod_args, put_place, put_read_dir_args, put_read_dir_plus_args, put_rename_args,
    put_set_attr_args, put_symlink_args, put_write_args,
};
use crate::size::args_size;
use crate::texts::put_handle;
use nfs3_types::{Call, CallOver, NoMemory};

#[tactic(auto, unfolding(nfs3_types::specs::Calls::arguments))]
fn put_call(out: &mut Vec<u8>, lent: &Call<'_>) -> Result<(), NoMemory>
    requires { CanBeSpelled lent.now }
    ensures { Puts (arguments (called lent.now)) lent.now out.old out.new result }
{
    match lent {
        CallOver::Null => Ok(()),
        CallOver::GetAttr(args) => put_handle(out, args),
        CallOver::SetAttr(args) => put_set_attr_args(out, args),
        CallOver::Lookup(args) => put_place(out, args),
        CallOver::Access(args) => put_access_args(out, args),
        CallOver::ReadLink(args) => put_handle(out, args),
        CallOver::Read(args) => put_file_range(out, args),
        CallOver::Write(args) => put_write_args(out, args),
        CallOver::Create(args) => put_create_args(out, args),
        CallOver::Mkdir(args) => put_mkdir_args(out, args),
        CallOver::Symlink(args) => put_symlink_args(out, args),
        CallOver::Mknod(args) => put_mknod_args(out, args),
        CallOver::Remove(args) => put_place(out, args),
        CallOver::Rmdir(args) => put_place(out, args),
        CallOver::Rename(args) => put_rename_args(out, args),
        CallOver::Link(args) => put_link_args(out, args),
        CallOver::ReadDir(args) => put_read_dir_args(out, args),
        CallOver::ReadDirPlus(args) => put_read_dir_plus_args(out, args),
        CallOver::FsStat(args) => put_handle(out, args),
        CallOver::FsInfo(args) => put_handle(out, args),
        CallOver::PathConf(args) => put_handle(out, args),
        CallOver::Commit(args) => put_file_range(out, args),
    }
}

/// Adds the one spelling of a call's arguments, which has to be one and shorter than 2^31 - 24 bytes. At
/// `NoMemory` the buffer holds what it held.
pub fn write_args(lent: &Call<'_>, out: &mut Vec<u8>) -> Result<(), NoMemory>
    requires spelled { (call_of (procedure_of lent.now)).Fits lent.now }
    requires short { (call_of (procedure_of lent.now)).size lent.now < 2 ^ 31 - 24 }
    ensures puts { Puts (call_of (procedure_of lent.now)) lent.now out.old out.new result }
    ensures err { OnErr result (out.new.items ≡ out.old.items) }
{
    out.reserve(args_size(lent))?;
    put_call(out, lent)
}
