//! A history of calls, replayed: one of them found no room.

use history_replay::{are_in_lanes, replay};
use nfs3_types::{
    Body, CallOver, Cred, DirOp, Entry, Handle, MkdirArgs, Moment, OwnCall, Reply, Sattr, SetTime,
    Status, Text,
};
use plain_tree::Plain;
use std::alloc::Global;
use std::test::*;

/// The file system.
const FSID: u64 = 1 << 32;

/// The first time.
const BEGIN: Moment = Moment {
    seconds: 0,
    nanos: 0,
};

fn first_tree(alloc: Global) -> Result<Plain, Fail> {
    Ok(Plain::new(alloc, FSID, [0, 0, 0, 0, 0, 0, 0, 1], BEGIN)?)
}

/// MKDIR of a name in the root.
fn make(alloc: Global, name: &[u8]) -> Result<OwnCall, Fail> {
    let root = Handle {
        fsid: FSID,
        snapshot: 0,
        fileid: 1,
    };
    Ok(CallOver::Mkdir(MkdirArgs {
        place: DirOp {
            directory: Text::from_slice(alloc, &root.spell())?,
            name: Text::from_slice(alloc, name)?,
        },
        attributes: Sattr {
            mode: None,
            uid: None,
            gid: None,
            size: None,
            atime: SetTime::DontChange,
            mtime: SetTime::DontChange,
        },
    }))
}

/// The caller, who may do everything.
fn caller(alloc: Global) -> Cred {
    Cred {
        uid: 0,
        gid: 0,
        gids: Text::new(alloc),
    }
}

/// An entry, of lane 0.
fn entry(alloc: Global, call: OwnCall, reply: Reply) -> Entry {
    Entry {
        pass: 0,
        serial: 0,
        cred: caller(alloc),
        call,
        moment: BEGIN,
        lane: 0,
        reply,
    }
}

/// A call that the tree answers.
fn answered(alloc: Global, tree: &mut Plain, name: &[u8]) -> Result<Entry, Fail> {
    let call = make(alloc, name)?;
    let reply = tree.answer(alloc, &caller(alloc), &call, BEGIN, 0)?;
    Ok(entry(alloc, call, reply))
}

/// A call for which there was no room.
fn refused(alloc: Global, name: &[u8]) -> Result<Entry, Fail> {
    let reply = Reply {
        procedure: 9,
        status: Status::NoSpc,
        body: Body::Nothing,
    };
    Ok(entry(alloc, make(alloc, name)?, reply))
}

/// The tree after these entries, if they are of lanes that are.
fn replayed(alloc: Global, entries: &[Entry]) -> Result<Plain, Fail> {
    let first = first_tree(alloc)?;
    if are_in_lanes(entries) {
        Ok(replay(alloc, first, entries)?)
    } else {
        Ok(first)
    }
}

#[test]
fn a_history_with_a_call_that_found_no_room(rt: HostRuntime) -> Result<(), Fail> {
    let alloc = rt.alloc();
    let mut tree = first_tree(alloc)?;
    let history = [
        answered(alloc, &mut tree, b"a")?,
        refused(alloc, b"b")?,
        answered(alloc, &mut tree, b"a")?,
        answered(alloc, &mut tree, b"c")?,
    ];
    let status = history[2].reply.status;
    assert_eq!(rt; status, Status::Exist);
    let mut again = replayed(alloc, &history)?;
    assert_eq!(rt; again.node_count(), 3);
    let last = answered(alloc, &mut again, b"c")?;
    assert_eq!(rt; last.reply.status, Status::Exist);
    Ok(())
}
