//! The first calls of a number, of which no reply is told.

use anyhow::{Result, bail, ensure};
use nfs3_types::{
    CallOver, CreateArgs, CreateHow, FileRange, Handle, OwnCall, ReadDirPlusArgs, Text, WriteArgs,
};
use std::alloc::Global;
use workload::Driver;

/// A handle: its file system, its snapshot and its file.
fn handle_text(alloc: Global, of: &Text) -> Result<String> {
    let Some(handle) = Handle::of(of.as_slice()) else {
        bail!("a handle has 24 bytes");
    };
    Ok(format!(in alloc; "{}.{}.{}", handle.fsid, handle.snapshot, handle.fileid)?)
}

/// A name in a directory.
fn place_text(alloc: Global, word: &str, directory: &Text, name: &Text) -> Result<String> {
    let directory = handle_text(alloc, directory)?;
    let name = str::from_utf8(name.as_slice())?;
    Ok(format!(in alloc; "{word} {directory} {name}")?)
}

/// A WRITE: where it writes, how much, and the first and the last of the bytes.
fn write_text(alloc: Global, args: &WriteArgs<Text>) -> Result<String> {
    let file = handle_text(alloc, &args.file)?;
    let data = args.data.as_slice();
    ensure!(
        data.len() == args.count as usize,
        "as many bytes as are counted"
    );
    let [first, .., last] = data else {
        bail!("fewer than two bytes");
    };
    let (offset, count) = (args.offset, args.count);
    Ok(format!(in alloc; "WRITE {file} {offset} {count} {first} {last}")?)
}

/// A CREATE: its name, how, and the mode that is set.
fn create_text(alloc: Global, args: &CreateArgs<Text>) -> Result<String> {
    let place = place_text(alloc, "CREATE", &args.place.directory, &args.place.name)?;
    match args.how {
        CreateHow::Unchecked(set) => match set.mode {
            Some(mode) => Ok(format!(in alloc; "{place} unchecked {mode}")?),
            None => bail!("a file is made with a mode"),
        },
        _ => bail!("a file is made unchecked"),
    }
}

/// A READ: where it reads, and how much.
fn read_text(alloc: Global, range: &FileRange<Text>) -> Result<String> {
    let file = handle_text(alloc, &range.file)?;
    Ok(format!(in alloc; "READ {file} {} {}", range.offset, range.count)?)
}

/// A GETATTR.
fn attributes_text(alloc: Global, object: &Text) -> Result<String> {
    let object = handle_text(alloc, object)?;
    Ok(format!(in alloc; "GETATTR {object}")?)
}

/// A READDIRPLUS: where it goes on, and how much it may answer.
fn listing_text(alloc: Global, args: &ReadDirPlusArgs<Text>) -> Result<String> {
    let directory = handle_text(alloc, &args.directory)?;
    let (cookie, dircount, maxcount) = (args.cookie, args.dircount, args.maxcount);
    Ok(format!(in alloc; "READDIRPLUS {directory} {cookie} {dircount} {maxcount}")?)
}

/// What is said of a call.
fn call_text(alloc: Global, call: &OwnCall) -> Result<String> {
    match call {
        CallOver::GetAttr(object) => attributes_text(alloc, object),
        CallOver::Lookup(place) => place_text(alloc, "LOOKUP", &place.directory, &place.name),
        CallOver::Remove(place) => place_text(alloc, "REMOVE", &place.directory, &place.name),
        CallOver::Mkdir(args) => {
            place_text(alloc, "MKDIR", &args.place.directory, &args.place.name)
        }
        CallOver::Create(args) => create_text(alloc, args),
        CallOver::Read(range) => read_text(alloc, range),
        CallOver::Write(args) => write_text(alloc, args),
        CallOver::ReadDirPlus(args) => listing_text(alloc, args),
        _ => bail!("the workload has no such call"),
    }
}

/// What is said of the driver's next call.
fn next_text(alloc: Global, driver: &mut Driver) -> Result<String> {
    ensure!(driver.has_next(), "there is no further call");
    let call = driver.next_call(alloc)?;
    call_text(alloc, &call)
}

/// The first calls of the number, with commas between them.
pub fn told(alloc: Global, number: u64, count: u32) -> Result<String> {
    let mut driver = Driver::new(alloc, number, 0)?;
    let mut text = String::new(alloc);
    for k in 0..count {
        if 0 < k {
            text.push_str(", ")?;
        }
        let next = next_text(alloc, &mut driver)?;
        text.push_str(&next)?;
    }
    Ok(text)
}
