use nfs3_types::{
    CallOver, CreateArgs, CreateHow, Cred, DirOp, Handle, MkdirArgs, Moment, OwnCall, Sattr,
    SetAttrArgs, SetTime, StableHow, Status, SymlinkArgs, Text, WriteArgs,
};
use plain_tree::Plain;
use std::alloc::Global;
use std::test::*;

/// The file system.
const FSID: u64 = 1 << 32;

/// The snapshot number of the live tree, and that of the directory `.snapshot`.
const LIVE: u64 = 0;

const NO_SNAPSHOT: u64 = 0xffff_ffff_ffff_ffff;

/// A file's greatest size in bytes.
const MOST_SIZE: u64 = 1 << 40;

/// The first file of the first lane.
const FILE: u64 = 16;

fn handle(alloc: Global, snapshot: u64, fileid: u64) -> Result<Text, Fail> {
    let handle = Handle {
        fsid: FSID,
        snapshot,
        fileid,
    };
    Ok(Text::from_slice(alloc, &handle.spell())?)
}

/// A name in the root.
fn in_root(alloc: Global, name: &[u8]) -> Result<DirOp<Text>, Fail> {
    Ok(DirOp {
        directory: handle(alloc, LIVE, 1)?,
        name: Text::from_slice(alloc, name)?,
    })
}

/// Nothing is set but a size, where one is given.
fn attributes(size: Option<u64>) -> Sattr {
    Sattr {
        mode: None,
        uid: None,
        gid: None,
        size,
        atime: SetTime::DontChange,
        mtime: SetTime::DontChange,
    }
}

fn create(alloc: Global) -> Result<OwnCall, Fail> {
    Ok(CallOver::Create(CreateArgs {
        place: in_root(alloc, b"f")?,
        how: CreateHow::Guarded(attributes(None)),
    }))
}

/// The last five bytes that a file can have.
fn write(alloc: Global) -> Result<OwnCall, Fail> {
    Ok(CallOver::Write(WriteArgs {
        file: handle(alloc, LIVE, FILE)?,
        offset: MOST_SIZE - 5,
        count: 5,
        stable: StableHow::Unstable,
        data: Text::from_slice(alloc, b"hello")?,
    }))
}

fn symlink(alloc: Global) -> Result<OwnCall, Fail> {
    Ok(CallOver::Symlink(SymlinkArgs {
        place: in_root(alloc, b"s")?,
        attributes: attributes(None),
        target: Text::from_slice(alloc, b"f")?,
    }))
}

fn take_snapshot(alloc: Global) -> Result<OwnCall, Fail> {
    let place = DirOp {
        directory: handle(alloc, NO_SNAPSHOT, 2)?,
        name: Text::from_slice(alloc, b"kept")?,
    };
    Ok(CallOver::Mkdir(MkdirArgs {
        place,
        attributes: attributes(None),
    }))
}

fn cut(alloc: Global) -> Result<OwnCall, Fail> {
    Ok(CallOver::SetAttr(SetAttrArgs {
        object: handle(alloc, LIVE, FILE)?,
        attributes: attributes(Some(3)),
        guard: None,
    }))
}

fn remove(alloc: Global) -> Result<OwnCall, Fail> {
    Ok(CallOver::Remove(in_root(alloc, b"f")?))
}

/// The call that a letter of the table stands for.
fn call_of(alloc: Global, letter: u8) -> Result<OwnCall, Fail> {
    match letter {
        b'c' => create(alloc),
        b'w' => write(alloc),
        b'l' => symlink(alloc),
        b's' => take_snapshot(alloc),
        b't' => cut(alloc),
        _ => remove(alloc),
    }
}

/// What a call of user 0 is answered, and the nodes and the bytes that the tree has after it.
fn ask(alloc: Global, tree: &mut Plain, letter: u8) -> Result<(Status, u64, u128), Fail> {
    let cred = Cred {
        uid: 0,
        gid: 0,
        gids: Text::new(alloc),
    };
    let moment = Moment {
        seconds: 1001,
        nanos: 0,
    };
    let call = call_of(alloc, letter)?;
    let reply = tree.answer(alloc, &cred, &call, moment, 0)?;
    Ok((reply.status, tree.node_count(), tree.byte_count()))
}

fn first_tree(alloc: Global) -> Result<Plain, Fail> {
    let first = Moment {
        seconds: 1000,
        nanos: 5,
    };
    Ok(Plain::new(alloc, FSID, *b"fss\0\0\0\0\x01", first)?)
}

/// Where memory suffices, calls succeed, a hole of 2^40 bytes takes none, and the counts are those of the live tree.
#[test]
fn the_tree_is_counted(rt: HostRuntime) -> Result<(), Fail> {
    let alloc = rt.alloc();
    let most = u128::from(MOST_SIZE);
    let rows = [
        (b'c', Status::Ok, 2, 0),
        (b'c', Status::Exist, 2, 0),
        (b'w', Status::Ok, 2, most),
        (b'l', Status::Ok, 3, most),
        (b's', Status::Ok, 3, most),
        (b't', Status::Ok, 3, 3),
        (b'r', Status::Ok, 2, 0),
    ];
    let mut tree = first_tree(alloc)?;
    for (letter, status, nodes, bytes) in rows {
        let told = ask(alloc, &mut tree, letter)?;
        assert_eq!(rt; told, (status, nodes, bytes), "{letter}");
    }
    Ok(())
}
