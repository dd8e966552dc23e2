//! Reading attributes.

ghost use Rattle.xdr_grammar.specs.Reading.{Gives};
ghost use Rattle.nfs3_types.specs.Attributes.{fattr, post_op_attr, optional_word, optional_hyper, optional_time, set_time, sattr};
ghost use Rattle.nfs3_types.specs.Attributes.{wcc_attr, pre_op_attr, wcc_data};

use crate::read::{read_file_type, read_spec_data, read_time};
use nfs3_types::{Fattr, Moment, Sattr, SetTime, Wcc, WccAttr};
use xdr::Reader;
use xdr_grammar::XdrFault;

/// Reads a file's attributes (fattr3).
#[tactic(auto, unfolding(nfs3_types::specs::Attributes::fattr))]
pub fn read_fattr(reader: &mut Reader<'_>) -> Result<Fattr, XdrFault>
    ensures { Gives fattr (λ attributes. attributes) reader.old reader.new result }
{
    Ok(Fattr {
        kind: read_file_type(reader)?,
        mode: reader.word()?,
        nlink: reader.word()?,
        uid: reader.word()?,
        gid: reader.word()?,
        size: reader.hyper()?,
        used: reader.hyper()?,
        rdev: read_spec_data(reader)?,
        fsid: reader.hyper()?,
        fileid: reader.hyper()?,
        atime: read_time(reader)?,
        mtime: read_time(reader)?,
        ctime: read_time(reader)?,
    })
}

/// Reads attributes that may be absent (post_op_attr).
#[tactic(auto, unfolding(nfs3_types::specs::Attributes::post_op_attr))]
pub fn read_post_op_attr(reader: &mut Reader<'_>) -> Result<Option<Fattr>, XdrFault>
    ensures { Gives post_op_attr (λ attributes. attributes) reader.old reader.new result }
{
    if reader.truth()? {
        Ok(Some(read_fattr(reader)?))
    } else {
        Ok(None)
    }
}

#[tactic(auto, unfolding(nfs3_types::specs::Attributes::optional_word))]
fn read_optional_word(reader: &mut Reader<'_>) -> Result<Option<u32>, XdrFault>
    ensures { Gives optional_word (λ word. word) reader.old reader.new result }
{
    if reader.truth()? {
        Ok(Some(reader.word()?))
    } else {
        Ok(None)
    }
}

#[tactic(auto, unfolding(nfs3_types::specs::Attributes::optional_hyper))]
fn read_optional_hyper(reader: &mut Reader<'_>) -> Result<Option<u64>, XdrFault>
    ensures { Gives optional_hyper (λ hyper. hyper) reader.old reader.new result }
{
    if reader.truth()? {
        Ok(Some(reader.hyper()?))
    } else {
        Ok(None)
    }
}

/// Reads a time that may be absent (sattrguard3).
#[tactic(auto, unfolding(nfs3_types::specs::Attributes::optional_time))]
pub fn read_optional_time(reader: &mut Reader<'_>) -> Result<Option<Moment>, XdrFault>
    ensures { Gives optional_time (λ time. time) reader.old reader.new result }
{
    if reader.truth()? {
        Ok(Some(read_time(reader)?))
    } else {
        Ok(None)
    }
}

#[tactic(auto, unfolding(nfs3_types::specs::Attributes::set_time))]
fn read_set_time(reader: &mut Reader<'_>) -> Result<SetTime, XdrFault>
    ensures { Gives set_time (λ time. time) reader.old reader.new result }
{
    match reader.pick(0, 2)? {
        0 => Ok(SetTime::DontChange),
        2 => Ok(SetTime::ClientTime(read_time(reader)?)),
        _ => Ok(SetTime::ServerTime),
    }
}

/// Reads attributes that are to be set (sattr3).
#[tactic(auto, unfolding(nfs3_types::specs::Attributes::sattr))]
pub fn read_sattr(reader: &mut Reader<'_>) -> Result<Sattr, XdrFault>
    ensures { Gives sattr (λ attributes. attributes) reader.old reader.new result }
{
    Ok(Sattr {
        mode: read_optional_word(reader)?,
        uid: read_optional_word(reader)?,
        gid: read_optional_word(reader)?,
        size: read_optional_hyper(reader)?,
        atime: read_set_time(reader)?,
        mtime: read_set_time(reader)?,
    })
}

#[tactic(auto, unfolding(nfs3_types::specs::Attributes::wcc_attr))]
fn read_wcc_attr(reader: &mut Reader<'_>) -> Result<WccAttr, XdrFault>
    ensures { Gives wcc_attr (λ attributes. attributes) reader.old reader.new result }
{
    Ok(WccAttr {
        size: reader.hyper()?,
        mtime: read_time(reader)?,
        ctime: read_time(reader)?,
    })
}

#[tactic(auto, unfolding(nfs3_types::specs::Attributes::pre_op_attr))]
fn read_pre_op_attr(reader: &mut Reader<'_>) -> Result<Option<WccAttr>, XdrFault>
    ensures { Gives pre_op_attr (λ attributes. attributes) reader.old reader.new result }
{
    if reader.truth()? {
        Ok(Some(read_wcc_attr(reader)?))
    } else {
        Ok(None)
    }
}

/// Reads the attributes before and after a call (wcc_data).
#[tactic(auto, unfolding(nfs3_types::specs::Attributes::wcc_data))]
pub fn read_wcc(reader: &mut Reader<'_>) -> Result<Wcc, XdrFault>
    ensures { Gives wcc_data (λ wcc. wcc) reader.old reader.new result }
{
    Ok(Wcc {
        before: read_pre_op_attr(reader)?,
        after: read_post_op_attr(reader)?,
    })
}
