//! Inodes, as bytes.

ghost use Rattle.std.specs.Prelude.{◌≡◌, ◌≤◌, length, Some, IfOk, OnOk};
ghost use Rattle.xdr_grammar.specs.Reading.{Gives};
ghost use Rattle.xdr_grammar.specs.Writing.{Puts};
ghost use Rattle.nfs3_types.specs.Attributes.{time};
ghost use Rattle.fs_rules.specs.Limits.{longest_target};
ghost use Rattle.fs_keys.specs.Inodes.{byte, flag, kind as kind_row, verifier, no_verifier, head as head_row};
ghost use Rattle.fs_keys.specs.Inodes.{value_of as bytes_of, inode_of as inode_in};
ghost use Rattle.xdr_grammar.specs.Items.{word, hyper, fixed};

use crate::inode::{Head, Inode};
use fs_rules::Inode as Kept;
use fs_rules::limits::LONGEST_TARGET;
use nfs3_types::{FileType, Moment, NoMemory, Text};
use pair_types::Value;
use std::alloc::Global;
use xdr::{Reader, put_fixed, put_hyper, put_word};
use xdr_grammar::XdrFault;

/// How many bytes an inode has before a link's target.
const HEAD: usize = 90;

#[tactic(auto, unfolding(xdr_grammar::specs::Items::word))]
fn put_u32(out: &mut Vec<u8>, n: u32) -> Result<(), NoMemory>
    ensures puts { Puts word n out.old out.new result }
    ensures fits { word.Fits n }
{
    put_word(out, n)
}

#[tactic(auto, unfolding(xdr_grammar::specs::Items::hyper))]
pub(crate) fn put_u64(out: &mut Vec<u8>, n: u64) -> Result<(), NoMemory>
    ensures puts { Puts hyper n out.old out.new result }
    ensures fits { hyper.Fits n }
{
    put_hyper(out, n)
}

#[tactic(auto, unfolding(crate::specs::Inodes::byte))]
fn put_byte(out: &mut Vec<u8>, n: u8) -> Result<(), NoMemory>
    ensures { Puts byte n out.old out.new result }
{
    out.push(n)?;
    Ok(())
}

#[tactic(auto, unfolding(crate::specs::Inodes::flag, crate::specs::Inodes::byte))]
fn put_flag(out: &mut Vec<u8>, there: bool) -> Result<(), NoMemory>
    ensures { Puts flag there out.old out.new result }
{
    put_byte(out, u8::from(there))
}

#[tactic(auto, unfolding(crate::specs::Inodes::kind, crate::specs::Inodes::byte))]
fn put_kind(out: &mut Vec<u8>, kind: FileType) -> Result<(), NoMemory>
    ensures { Puts kind_row kind out.old out.new result }
{
    put_byte(out, kind.number() as u8)
}

#[tactic(auto, unfolding(nfs3_types::specs::Attributes::time, xdr_grammar::specs::Items::word))]
pub(crate) fn put_time(out: &mut Vec<u8>, at: Moment) -> Result<(), NoMemory>
    ensures puts { Puts time at out.old out.new result }
    ensures fits { OnOk result (time.Fits at) }
{
    put_u32(out, at.seconds)?;
    put_u32(out, at.nanos)?;
    Ok(())
}

/// The verifier of an EXCLUSIVE CREATE, or zeros.
#[tactic(auto, unfolding(crate::specs::Inodes::verifier, crate::specs::Inodes::no_verifier, crate::specs::Inodes::flag, crate::specs::Inodes::byte, xdr_grammar::specs::Items::fixed))]
fn put_verifier(out: &mut Vec<u8>, bytes: &Option<[u8; 8]>) -> Result<(), NoMemory>
    ensures puts { Puts verifier bytes.now out.old out.new result }
    ensures fits { OnOk result (verifier.Fits bytes.now) }
{
    match bytes {
        Some(bytes) => {
            put_flag(out, true)?;
            put_fixed(out, bytes)?;
            Ok(())
        }
        None => {
            put_flag(out, false)?;
            put_fixed(out, &[0; 8])?;
            Ok(())
        }
    }
}

#[tactic(auto, unfolding(crate::specs::Inodes::head, xdr_grammar::specs::Items::word, xdr_grammar::specs::Items::hyper))]
fn put_head(out: &mut Vec<u8>, head: &Head) -> Result<(), NoMemory>
    ensures puts { Puts head_row head.now out.old out.new result }
    ensures fits { OnOk result (head_row.Fits head.now) }
{
    put_kind(out, head.kept.kind)?;
    put_u32(out, head.kept.mode)?;
    put_u32(out, head.kept.nlink)?;
    put_u32(out, head.kept.uid)?;
    put_u32(out, head.kept.gid)?;
    put_u64(out, head.size)?;
    put_time(out, head.kept.atime)?;
    put_time(out, head.kept.mtime)?;
    put_time(out, head.kept.ctime)?;
    put_u64(out, head.kept.parent)?;
    put_u64(out, head.kept.next_cookie)?;
    put_verifier(out, &head.kept.verifier)?;
    put_u64(out, head.kept.cuts)?;
    put_u64(out, head.floor)?;
    Ok(())
}

/// The bytes of an inode, as they are kept: they spell it.
pub fn value_of(alloc: Global, inode: &Inode) -> Result<Value, NoMemory>
    requires { length inode.now.target ≤ longest_target }
    ensures is { IfOk result (λ value. value ≡ bytes_of inode.now) }
    ensures again { IfOk result (λ value. inode_in value ≡ Some inode.now) }
    ensures short { IfOk result (λ value. length value ≤ 1113) }
{
    let target = inode.target.as_slice();
    let mut value = Vec::with_capacity(alloc, HEAD + target.len())?;
    put_head(&mut value, &inode.head)?;
    value.extend_from_slice(target)?;
    Ok(Value::from_vec(value))
}

#[tactic(auto, unfolding(crate::specs::Inodes::byte))]
fn read_byte(reader: &mut Reader<'_>) -> Result<u8, XdrFault>
    ensures { Gives byte (λ n. n) reader.old reader.new result }
{
    let rest = reader.rest();
    match rest {
        [] => Err(XdrFault::Short),
        [n, rest @ ..] => {
            *reader = Reader::new(rest);
            Ok(*n)
        }
    }
}

#[tactic(auto, unfolding(crate::specs::Inodes::flag))]
fn read_flag(reader: &mut Reader<'_>) -> Result<bool, XdrFault>
    ensures { Gives flag (λ there. there) reader.old reader.new result }
{
    match read_byte(reader)? {
        0 => Ok(false),
        1 => Ok(true),
        _ => Err(XdrFault::BadBool),
    }
}

#[tactic(auto, unfolding(crate::specs::Inodes::kind))]
fn read_kind(reader: &mut Reader<'_>) -> Result<FileType, XdrFault>
    ensures { Gives kind_row (λ kind. kind) reader.old reader.new result }
{
    let number = read_byte(reader)?;
    match FileType::of(u32::from(number)) {
        Some(kind) => Ok(kind),
        None => Err(XdrFault::BadEnum),
    }
}

#[tactic(auto, unfolding(nfs3_types::specs::Attributes::time))]
pub(crate) fn read_time(reader: &mut Reader<'_>) -> Result<Moment, XdrFault>
    ensures { Gives time (λ at. at) reader.old reader.new result }
{
    Ok(Moment {
        seconds: reader.word()?,
        nanos: reader.word()?,
    })
}

pub(crate) fn read_eight(reader: &mut Reader<'_>) -> Result<[u8; 8], XdrFault>
    ensures { Gives (fixed 8) (λ bytes. bytes) reader.old reader.new result }
{
    let part = reader.fixed(8)?;
    let mut bytes = [0; 8];
    bytes.copy_from_slice(part);
    Ok(bytes)
}

#[tactic(auto, unfolding(crate::specs::Inodes::no_verifier))]
fn read_no_verifier(reader: &mut Reader<'_>) -> Result<Option<[u8; 8]>, XdrFault>
    ensures { Gives no_verifier (λ bytes. bytes) reader.old reader.new result }
{
    let bytes = read_eight(reader)?;
    if bytes == [0; 8] {
        Ok(None)
    } else {
        Err(XdrFault::BadEnum)
    }
}

#[tactic(auto, unfolding(crate::specs::Inodes::verifier))]
fn read_verifier(reader: &mut Reader<'_>) -> Result<Option<[u8; 8]>, XdrFault>
    ensures { Gives verifier (λ bytes. bytes) reader.old reader.new result }
{
    if read_flag(reader)? {
        Ok(Some(read_eight(reader)?))
    } else {
        read_no_verifier(reader)
    }
}

#[tactic(auto, unfolding(crate::specs::Inodes::head))]
fn read_head(reader: &mut Reader<'_>) -> Result<Head, XdrFault>
    ensures { Gives head_row (λ head. head) reader.old reader.new result }
{
    let kind = read_kind(reader)?;
    let mode = reader.word()?;
    let nlink = reader.word()?;
    let uid = reader.word()?;
    let gid = reader.word()?;
    let size = reader.hyper()?;
    let atime = read_time(reader)?;
    let mtime = read_time(reader)?;
    let ctime = read_time(reader)?;
    let parent = reader.hyper()?;
    let next_cookie = reader.hyper()?;
    let verifier = read_verifier(reader)?;
    let cuts = reader.hyper()?;
    let floor = reader.hyper()?;
    Ok(Head {
        kept: Kept {
            kind,
            mode,
            nlink,
            uid,
            gid,
            atime,
            mtime,
            ctime,
            parent,
            next_cookie,
            verifier,
            cuts,
        },
        size,
        floor,
    })
}

/// The inode that these bytes spell; `None` where they spell none, and where the target would be too long.
#[tactic(auto, unfolding(fs_rules::specs::Limits::longest_target))]
pub fn inode_of(alloc: Global, value: &[u8]) -> Result<Option<Inode>, NoMemory>
    ensures { IfOk result (λ inode. inode ≡ inode_in value.now) }
{
    let mut reader = Reader::new(value);
    let Ok(head) = read_head(&mut reader) else {
        return Ok(None);
    };
    let target = reader.rest();
    if target.len() > LONGEST_TARGET {
        return Ok(None);
    }
    Ok(Some(Inode {
        head,
        target: Text::from_slice(alloc, target)?,
    }))
}
