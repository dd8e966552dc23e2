//! The values of all records but inodes, as bytes.

ghost use Rattle.std.specs.Prelude.{◌≡◌, ◌≤◌, length, Some, IfOk, OnOk};
ghost use Rattle.fs_rules.specs.Limits.{longest_name};
ghost use Rattle.xdr_grammar.specs.Items.{hyper};
ghost use Rattle.xdr_grammar.specs.Reading.{Gives};
ghost use Rattle.xdr_grammar.specs.Writing.{Puts};
ghost use Rattle.fs_keys.specs.Values.{first as first_row, name as name_row, extent as extent_row, times as times_row};
ghost use Rattle.fs_keys.specs.Values.{first_in, lane_in, name_in, extent_in, times_in, cookie_in as said_in};
ghost use Rattle.fs_keys.specs.Values.{cookie_value as bytes_of};

use crate::rows::{CookieRow, Extent, First, NameRow};
use crate::value::{put_time, put_u64, read_eight, read_time};
use fs_rules::Times;
use fs_rules::limits::LONGEST_NAME;
use nfs3_types::{NoMemory, Text};
use pair_types::Value;
use std::alloc::Global;
use xdr::{Reader, put_fixed};
use xdr_grammar::XdrFault;

#[tactic(auto, unfolding(crate::specs::Values::first))]
fn put_first(out: &mut Vec<u8>, row: &First) -> Result<(), NoMemory>
    ensures puts { Puts first_row row.now out.old out.new result }
    ensures fits { OnOk result (first_row.Fits row.now) }
{
    put_u64(out, row.epoch)?;
    put_u64(out, row.fsid)?;
    put_fixed(out, &row.verifier)?;
    Ok(())
}

#[tactic(auto, unfolding(crate::specs::Values::name))]
fn put_name(out: &mut Vec<u8>, row: NameRow) -> Result<(), NoMemory>
    ensures puts { Puts name_row row out.old out.new result }
    ensures fits { OnOk result (name_row.Fits row) }
{
    put_u64(out, row.cookie)?;
    put_u64(out, row.fileid)?;
    Ok(())
}

#[tactic(auto, unfolding(crate::specs::Values::extent))]
fn put_extent(out: &mut Vec<u8>, row: Extent) -> Result<(), NoMemory>
    ensures puts { Puts extent_row row out.old out.new result }
    ensures fits { OnOk result (extent_row.Fits row) }
{
    put_u64(out, row.number)?;
    put_u64(out, row.stamp)?;
    Ok(())
}

#[tactic(auto, unfolding(crate::specs::Values::times))]
fn put_times(out: &mut Vec<u8>, row: Times) -> Result<(), NoMemory>
    ensures puts { Puts times_row row out.old out.new result }
    ensures fits { OnOk result (times_row.Fits row) }
{
    put_time(out, row.atime)?;
    put_time(out, row.mtime)?;
    put_time(out, row.ctime)?;
    Ok(())
}

/// The value of the first record.
pub fn first_value(alloc: Global, row: &First) -> Result<Value, NoMemory>
    ensures is { IfOk result (λ value. value ≡ first_row.spelling row.now) }
    ensures again { IfOk result (λ value. first_in value ≡ Some row.now) }
{
    let mut value = Vec::with_capacity(alloc, 24)?;
    put_first(&mut value, row)?;
    Ok(Value::from_vec(value))
}

/// The value of a lane's record: the number of its next file.
pub fn lane_value(alloc: Global, next: u64) -> Result<Value, NoMemory>
    ensures is { IfOk result (λ value. value ≡ hyper.spelling next) }
    ensures again { IfOk result (λ value. lane_in value ≡ Some next) }
{
    let mut value = Vec::with_capacity(alloc, 8)?;
    put_u64(&mut value, next)?;
    Ok(Value::from_vec(value))
}

/// The value of a name's record.
pub fn name_value(alloc: Global, row: NameRow) -> Result<Value, NoMemory>
    ensures is { IfOk result (λ value. value ≡ name_row.spelling row) }
    ensures again { IfOk result (λ value. name_in value ≡ Some row) }
{
    let mut value = Vec::with_capacity(alloc, 16)?;
    put_name(&mut value, row)?;
    Ok(Value::from_vec(value))
}

/// The value of an extent's record.
pub fn extent_value(alloc: Global, row: Extent) -> Result<Value, NoMemory>
    ensures is { IfOk result (λ value. value ≡ extent_row.spelling row) }
    ensures again { IfOk result (λ value. extent_in value ≡ Some row) }
{
    let mut value = Vec::with_capacity(alloc, 16)?;
    put_extent(&mut value, row)?;
    Ok(Value::from_vec(value))
}

/// The value of the record of the times of the directory `.snapshot`.
pub fn times_value(alloc: Global, row: Times) -> Result<Value, NoMemory>
    ensures is { IfOk result (λ value. value ≡ times_row.spelling row) }
    ensures again { IfOk result (λ value. times_in value ≡ Some row) }
{
    let mut value = Vec::with_capacity(alloc, 24)?;
    put_times(&mut value, row)?;
    Ok(Value::from_vec(value))
}

/// The value of a cookie's record.
pub fn cookie_value(alloc: Global, row: &CookieRow) -> Result<Value, NoMemory>
    requires { length row.now.name ≤ longest_name }
    ensures is { IfOk result (λ value. value ≡ bytes_of row.now) }
    ensures again { IfOk result (λ value. said_in value ≡ Some row.now) }
{
    let name = row.name.as_slice();
    let mut value = Vec::with_capacity(alloc, 8 + name.len())?;
    put_u64(&mut value, row.fileid)?;
    value.extend_from_slice(name)?;
    Ok(Value::from_vec(value))
}

#[tactic(auto, unfolding(crate::specs::Values::first))]
fn read_first(reader: &mut Reader<'_>) -> Result<First, XdrFault>
    ensures { Gives first_row (λ row. row) reader.old reader.new result }
{
    Ok(First {
        epoch: reader.hyper()?,
        fsid: reader.hyper()?,
        verifier: read_eight(reader)?,
    })
}

#[tactic(auto, unfolding(crate::specs::Values::name))]
fn read_name(reader: &mut Reader<'_>) -> Result<NameRow, XdrFault>
    ensures { Gives name_row (λ row. row) reader.old reader.new result }
{
    Ok(NameRow {
        cookie: reader.hyper()?,
        fileid: reader.hyper()?,
    })
}

#[tactic(auto, unfolding(crate::specs::Values::extent))]
fn read_extent(reader: &mut Reader<'_>) -> Result<Extent, XdrFault>
    ensures { Gives extent_row (λ row. row) reader.old reader.new result }
{
    Ok(Extent {
        number: reader.hyper()?,
        stamp: reader.hyper()?,
    })
}

#[tactic(auto, unfolding(crate::specs::Values::times))]
fn read_times(reader: &mut Reader<'_>) -> Result<Times, XdrFault>
    ensures { Gives times_row (λ row. row) reader.old reader.new result }
{
    Ok(Times {
        atime: read_time(reader)?,
        mtime: read_time(reader)?,
        ctime: read_time(reader)?,
    })
}

/// What the value of the first record says; `None` where it says nothing.
pub fn first_of(value: &[u8]) -> Option<First>
    ensures { result ≡ first_in value.now }
{
    let mut reader = Reader::new(value);
    let row = read_first(&mut reader).ok()?;
    reader.end().ok()?;
    Some(row)
}

/// The number of the next file that the value of a lane's record says; `None` where it says nothing.
pub fn lane_of(value: &[u8]) -> Option<u64>
    ensures { result ≡ lane_in value.now }
{
    let mut reader = Reader::new(value);
    let next = reader.hyper().ok()?;
    reader.end().ok()?;
    Some(next)
}

/// What the value of a name's record says; `None` where it says nothing.
pub fn name_of(value: &[u8]) -> Option<NameRow>
    ensures { result ≡ name_in value.now }
{
    let mut reader = Reader::new(value);
    let row = read_name(&mut reader).ok()?;
    reader.end().ok()?;
    Some(row)
}

/// What the value of an extent's record says; `None` where it says nothing.
pub fn extent_of(value: &[u8]) -> Option<Extent>
    ensures { result ≡ extent_in value.now }
{
    let mut reader = Reader::new(value);
    let row = read_extent(&mut reader).ok()?;
    reader.end().ok()?;
    Some(row)
}

/// What the value of the record of the times of `.snapshot` says; `None` where it says nothing.
pub fn times_of(value: &[u8]) -> Option<Times>
    ensures { result ≡ times_in value.now }
{
    let mut reader = Reader::new(value);
    let row = read_times(&mut reader).ok()?;
    reader.end().ok()?;
    Some(row)
}

/// What the value of a cookie's record says; `None` where it says nothing, and where the name would be too long.
#[tactic(auto, unfolding(fs_rules::specs::Limits::longest_name))]
pub fn cookie_of(alloc: Global, value: &[u8]) -> Result<Option<CookieRow>, NoMemory>
    ensures { IfOk result (λ row. row ≡ said_in value.now) }
{
    let mut reader = Reader::new(value);
    let Ok(fileid) = reader.hyper() else {
        return Ok(None);
    };
    let name = reader.rest();
    if name.len() > LONGEST_NAME {
        return Ok(None);
    }
    Ok(Some(CookieRow {
        fileid,
        name: Text::from_slice(alloc, name)?,
    }))
}
