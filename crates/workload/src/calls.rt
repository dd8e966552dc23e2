//! The calls.

ghost use Rattle.std.specs.Prelude.{◌≡◌, ◌∷◌, IfOk, decimal};
ghost use Rattle.nfs3_types.specs.Handles.{handle};
ghost use Rattle.workload.specs.Calls.{call_of, fuse_of, in_directory, in_root, keeping, listing, making, root};
ghost use Rattle.workload.specs.Calls.{snapshots, with_mode, writing};

use crate::choice::{Choice, Kind};
use itoa::Buffer;
use nfs3_types::{
    CallOver, CreateArgs, CreateHow, DirOp, FileRange, Handle, MkdirArgs, NoMemory, OwnCall,
    ReadDirPlusArgs, Sattr, SetTime, StableHow, Text, WriteArgs,
};
use std::alloc::Global;

/// The file system.
const FSID: u64 = 1 << 32;

/// How many bytes a WRITE has.
const WRITTEN: usize = 6_000;

/// The root.
fn root() -> Handle
    ensures { result ≡ root }
{
    Handle {
        fsid: FSID,
        snapshot: 0,
        fileid: 1,
    }
}

/// The directory `.snapshot`.
fn snapshots() -> Handle
    ensures { result ≡ snapshots }
{
    Handle {
        fsid: FSID,
        snapshot: u64::MAX,
        fileid: 2,
    }
}

/// A handle's text.
fn handle_text(alloc: Global, of: Handle) -> Result<Text, NoMemory>
    ensures { IfOk result (λ text. text ≡ handle.spelling of) }
{
    Text::from_slice(alloc, &of.spell())
}

/// A letter and a number.
fn numbered(alloc: Global, letter: u8, number: u32) -> Result<Text, NoMemory>
    ensures { IfOk result (λ text. text ≡ letter ∷ decimal number) }
{
    let mut buffer = Buffer::new();
    let mut bytes = Vec::new(alloc);
    bytes.push(letter)?;
    bytes.extend_from_slice(buffer.format(number).as_bytes())?;
    Ok(Text::from_vec(bytes))
}

/// A name in a directory.
fn in_directory(alloc: Global, directory: Handle, name: Text) -> Result<DirOp<Text>, NoMemory>
    ensures { IfOk result (λ place. place ≡ in_directory directory name) }
{
    Ok(DirOp {
        directory: handle_text(alloc, directory)?,
        name,
    })
}

/// The name of this number in the root.
fn in_root(alloc: Global, name: u8) -> Result<DirOp<Text>, NoMemory>
    ensures { IfOk result (λ place. place ≡ in_root name) }
{
    let name = numbered(alloc, b'f', u32::from(name))?;
    in_directory(alloc, root(), name)
}

/// Nothing is set but a mode, where one is given.
fn with_mode(mode: Option<u32>) -> Sattr
    ensures { result ≡ with_mode mode }
{
    Sattr {
        mode,
        uid: None,
        gid: None,
        size: None,
        atime: SetTime::DontChange,
        mtime: SetTime::DontChange,
    }
}

/// READDIRPLUS of the root.
fn listing(alloc: Global) -> Result<OwnCall, NoMemory>
    ensures { IfOk result (λ call. call ≡ listing) }
{
    Ok(CallOver::ReadDirPlus(ReadDirPlusArgs {
        directory: handle_text(alloc, root())?,
        cookie: 0,
        verifier: [0; 8],
        dircount: 8192,
        maxcount: 8192,
    }))
}

/// WRITE, by the third draw.
fn writing(alloc: Global, piece: u64, file: Text) -> Result<OwnCall, NoMemory>
    ensures { IfOk result (λ call. call ≡ writing piece file) }
{
    let byte = (piece % 256) as u8;
    let data = vec![in alloc; byte; WRITTEN]?;
    Ok(CallOver::Write(WriteArgs {
        file,
        offset: 4096 * (piece % 16),
        count: WRITTEN as u32,
        stable: StableHow::FileSync,
        data: Text::from_vec(data),
    }))
}

/// CREATE of the name of this number.
fn making(alloc: Global, name: u8) -> Result<OwnCall, NoMemory>
    ensures { IfOk result (λ call. call ≡ making name) }
{
    Ok(CallOver::Create(CreateArgs {
        place: in_root(alloc, name)?,
        how: CreateHow::Unchecked(with_mode(Some(0o644))),
    }))
}

/// MKDIR in `.snapshot`, of the name of this call's number.
fn keeping(alloc: Global, number: u32) -> Result<OwnCall, NoMemory>
    ensures { IfOk result (λ call. call ≡ keeping number) }
{
    let name = numbered(alloc, b's', number)?;
    Ok(CallOver::Mkdir(MkdirArgs {
        place: in_directory(alloc, snapshots(), name)?,
        attributes: with_mode(None),
    }))
}

/// The call of this number, where this handle is known for its name.
#[tactic(auto, unfolding(crate::specs::Calls::call_of))]
pub(crate) fn call_of(
    alloc: Global,
    number: u32,
    choice: Choice,
    known: Option<Handle>,
) -> Result<OwnCall, NoMemory>
    ensures { IfOk result (λ call. call ≡ call_of number choice known) }
{
    let to = handle_text(alloc, known.unwrap_or(root()))?;
    match choice.kind {
        Kind::Listing => listing(alloc),
        Kind::Finding => Ok(CallOver::Lookup(in_root(alloc, choice.name)?)),
        Kind::Writing => writing(alloc, choice.piece, to),
        Kind::Reading => Ok(CallOver::Read(FileRange {
            file: to,
            offset: 0,
            count: 32_768,
        })),
        Kind::Asking => Ok(CallOver::GetAttr(to)),
        Kind::Removing => Ok(CallOver::Remove(in_root(alloc, choice.name)?)),
        Kind::Making => making(alloc, choice.name),
        Kind::Keeping => keeping(alloc, number),
    }
}

/// After how many steps the way to the stores is cut at the call of this number.
#[tactic(auto, unfolding(crate::specs::Calls::fuse_of))]
pub(crate) fn fuse_of(rough: u32, number: u32, piece: u64) -> Option<u64>
    ensures { result ≡ fuse_of rough number piece }
{
    if rough == 0 {
        return None;
    }
    if number % 16 == 0 {
        Some(piece % 16)
    } else {
        None
    }
}
