//! Reading arguments.

ghost use Rattle.std.specs.Prelude.{◌≡◌, ◌≤◌, length, Ok, IfOk, IfErr};
ghost use Rattle.xdr_grammar.specs.Reading.{Gives, GivesWhole};
ghost use Rattle.xdr_grammar.specs.Whole.{whole, BreaksWhole};
ghost use Rattle.nfs3_types.specs.Calls.{Call as PlainCall, procedure_of, arguments, call_of};

use crate::readers::{
    read_access_args, read_create_args, read_file_range, read_link_args, read_mkdir_args,
    read_mknod_args, read_place, read_read_dir_args, read_read_dir_plus_args, read_rename_args,
    read_set_attr_args, read_symlink_args, read_write_args,
};
use nfs3_items::read_handle;
use nfs3_types::{Call, CallOver, Procedure};
use xdr::Reader;
use xdr_grammar::XdrFault;

/// Reads the call of a procedure.
#[tactic(auto, unfolding(nfs3_types::specs::Calls::arguments))]
fn read_call<'a>(procedure: Procedure, reader: &mut Reader<'a>) -> Result<Call<'a>, XdrFault>
    ensures { Gives (arguments procedure) (λ lent. lent) reader.old reader.new result }
{
    match procedure {
        Procedure::GetAttr => Ok(CallOver::GetAttr(read_handle(reader)?)),
        Procedure::SetAttr => Ok(CallOver::SetAttr(read_set_attr_args(reader)?)),
        Procedure::Lookup => Ok(CallOver::Lookup(read_place(reader)?)),
        Procedure::Access => Ok(CallOver::Access(read_access_args(reader)?)),
        Procedure::ReadLink => Ok(CallOver::ReadLink(read_handle(reader)?)),
        Procedure::Read => Ok(CallOver::Read(read_file_range(reader)?)),
        Procedure::Write => Ok(CallOver::Write(read_write_args(reader)?)),
        Procedure::Create => Ok(CallOver::Create(read_create_args(reader)?)),
        Procedure::Mkdir => Ok(CallOver::Mkdir(read_mkdir_args(reader)?)),
        Procedure::Symlink => Ok(CallOver::Symlink(read_symlink_args(reader)?)),
        Procedure::Mknod => Ok(CallOver::Mknod(read_mknod_args(reader)?)),
        Procedure::Remove => Ok(CallOver::Remove(read_place(reader)?)),
        Procedure::Rmdir => Ok(CallOver::Rmdir(read_place(reader)?)),
        Procedure::Rename => Ok(CallOver::Rename(read_rename_args(reader)?)),
        Procedure::Link => Ok(CallOver::Link(read_link_args(reader)?)),
        Procedure::ReadDir => Ok(CallOver::ReadDir(read_read_dir_args(reader)?)),
        Procedure::ReadDirPlus => Ok(CallOver::ReadDirPlus(read_read_dir_plus_args(reader)?)),
        Procedure::FsStat => Ok(CallOver::FsStat(read_handle(reader)?)),
        Procedure::FsInfo => Ok(CallOver::FsInfo(read_handle(reader)?)),
        Procedure::PathConf => Ok(CallOver::PathConf(read_handle(reader)?)),
        Procedure::Commit => Ok(CallOver::Commit(read_file_range(reader)?)),
        Procedure::Null => Ok(CallOver::Null),
    }
}

/// Reads the call that the whole text spells.
#[tactic(auto, unfolding(nfs3_types::specs::Calls::call_of))]
fn read_whole<'a>(procedure: u32, args: &'a [u8]) -> Result<Call<'a>, XdrFault>
    ensures { GivesWhole (λ lent. lent) (whole (call_of procedure) args.now) result }
{
    let mut reader = Reader::new(args);
    let lent = read_call(Procedure::at(procedure), &mut reader)?;
    reader.end()?;
    Ok(lent)
}

/// Reads a whole call from the bytes of its arguments, by the procedure's number. Handles, names and
/// content are parts of `args`, and no memory is taken. The fault is the first one; `Trailing` comes
/// exactly where bytes remain behind the arguments. What was read can be written again, in as many bytes.
pub fn read_args<'a>(procedure: u32, args: &'a [u8]) -> Result<Call<'a>, XdrFault>
    requires { procedure ≤ 21 }
    ensures gives { GivesWhole (λ lent. lent) (whole (call_of procedure) args.now) result }
    ensures found { IfOk result (λ lent. (call_of procedure).Spells lent args.now) }
    ensures only { (spelled : PlainCall) → (call_of procedure).Spells spelled args.now → result ≡ Ok spelled }
    ensures procedure { IfOk result (λ lent. procedure_of lent ≡ procedure) }
    ensures fits { IfOk result (λ lent. (call_of procedure).Fits lent) }
    ensures size { IfOk result (λ lent. (call_of procedure).size lent ≡ length args.now) }
    ensures fault { IfErr result (λ fault. BreaksWhole (call_of procedure) args.now fault) }
{
    read_whole(procedure, args)
}
