//! The calls of a number on the plain tree.

ghost use Rattle.std.specs.Prelude.{◌≡◌, ◌<◌, ◌-◌, ◌^◌, ◌+◌, ℕ, IfOk, OnOk};
ghost use Rattle.plain_tree.specs.Giving.{Answers};
ghost use Rattle.plain_tree.specs.Trees.{tree_of};
ghost use Rattle.workload_judge.specs.Played.{IsCounted, PlayedTo, asks, caller, played};

use crate::counts::Counts;
use nfs3_types::{Cred, Moment, NoMemory, OwnCall, Reply, Text};
use plain_tree::Plain;
use std::alloc::Global;
use workload::Driver;

/// The file system.
const FSID: u64 = 1 << 32;

/// The caller of each call: user 0, group 0.
fn caller(alloc: Global) -> Cred
    ensures { result ≡ caller }
{
    Cred {
        uid: 0,
        gid: 0,
        gids: Text::new(alloc),
    }
}

/// The tree before the first call.
fn first_tree(alloc: Global) -> Result<Plain, NoMemory>
    ensures { (number rough : ℕ) → IfOk result (λ tree. tree_of tree ≡ (played number rough 0).tree) }
{
    let first = Moment {
        seconds: 0,
        nanos: 0,
    };
    Plain::new(alloc, FSID, [102, 115, 115, 0, 0, 0, 0, 1], first)
}

/// What the plain tree answers to this call, after so many.
fn answered(alloc: Global, tree: &mut Plain, call: OwnCall, before: u32) -> Result<Reply, NoMemory>
    requires low { before < 2 ^ 32 - 1 }
    ensures { Answers (asks before call) (tree_of tree.old) (tree_of tree.new) result }
{
    let moment = Moment {
        seconds: before + 1,
        nanos: 0,
    };
    tree.answer(alloc, &caller(alloc), &call, moment, before % 4)
}

/// Makes one call more, after so many.
fn take_turn(
    alloc: Global,
    tree: &mut Plain,
    driver: &mut Driver,
    before: u32,
) -> Result<(), NoMemory>
    requires room { driver.old.calls < 2 ^ 32 - 1 }
    requires low { before < 2 ^ 32 - 1 }
    ensures { (number rough : ℕ) → PlayedTo number rough before (tree_of tree.old) driver.old
        → OnOk result (PlayedTo number rough (before + 1) (tree_of tree.new) driver.new) }
{
    let call = driver.next_call(alloc)?;
    let reply = answered(alloc, tree, call, before)?;
    driver.learn(&reply);
    Ok(())
}

/// Plays the first calls of this number's workload on the plain tree as it begins: call i at the moment (i, 0), by
/// user 0, with new files' numbers from the lane (i - 1) modulo 4.
pub fn play(alloc: Global, number: u64, calls: u32) -> Result<Counts, NoMemory>
    ensures { IfOk result (λ counts. IsCounted (played number 0 calls).tree counts) }
{
    let mut tree = first_tree(alloc)?;
    let mut driver = Driver::new(alloc, number, 0)?;
    for before in 0..calls {
        take_turn(alloc, &mut tree, &mut driver, before)?;
    }
    Ok(Counts {
        nodes: tree.node_count(),
        bytes: tree.byte_count(),
    })
}
