//! How the first page is made.

ghost use Rattle.std.specs.Prelude.{◌≡◌, ◌^◌, ◌≤◌, IfOk, OnOk};
ghost use Rattle.btree_page.specs.Content.{with_cell};
ghost use Rattle.btree_page.specs.Tree.{quad_cell};
ghost use Rattle.fs_keys.specs.Keys.{HasBounds};
ghost use Rattle.fs_rules.specs.Tree.{first_tree};
ghost use Rattle.first_page.specs.Records.{AreGiven, MayFollow, newborn, first_quad, lane_quad, root_row, root_quad, times_quad};
ghost use Rattle.first_page.specs.Standing.{IsFirstPage};

use btree_page::{PageBuilder, TooBig};
use fs_keys::{
    First, Head, Inode, KeyParts, first_value, key_of, lane_value, times_value, value_of,
};
use fs_rules::{Inode as Kept, Times};
use fs_sound::first_tree_is_sound;
use nfs3_types::{FileType, Moment, NoMemory, Text, TextRef};
use pair_types::{Page, Value};
use std::alloc::Global;

/// How many lanes give numbers to new files.
const LANES: u8 = 16;

/// The death of what lives.
const NEVER: u64 = u64::MAX;

/// Adds the record of these parts, born at 1 and alive.
fn add(
    alloc: Global,
    page: &mut PageBuilder,
    parts: &KeyParts<TextRef<'_>>,
    value: &Value,
) -> Result<(), NoMemory>
    requires bounds { HasBounds parts.now }
    requires follows { MayFollow page.old (newborn parts.now value.now) }
    ensures { OnOk result (page.new ≡ with_cell page.old (quad_cell (newborn parts.now value.now))) }
{
    let key = key_of(alloc, parts)?;
    match page.add_leaf(key.as_slice(), 1, NEVER, value.as_slice()) {
        Ok(()) => Ok(()),
        Err(TooBig) => unreachable!(),
    }
}

/// Adds the first record.
fn add_first(
    alloc: Global,
    page: &mut PageBuilder,
    fsid: u64,
    verifier: [u8; 8],
) -> Result<(), NoMemory>
    requires { MayFollow page.old (first_quad fsid verifier) }
    ensures { OnOk result (page.new ≡ with_cell page.old (quad_cell (first_quad fsid verifier))) }
{
    let row = First {
        epoch: 1,
        fsid,
        verifier,
    };
    let value = first_value(alloc, &row)?;
    add(alloc, page, &KeyParts::First, &value)
}

/// Adds the record of a lane.
fn add_lane(alloc: Global, page: &mut PageBuilder, lane: u8) -> Result<(), NoMemory>
    requires { MayFollow page.old (lane_quad lane) }
    ensures { OnOk result (page.new ≡ with_cell page.old (quad_cell (lane_quad lane))) }
{
    let value = lane_value(alloc, 16 + u64::from(lane))?;
    add(alloc, page, &KeyParts::Lane(lane), &value)
}

/// The inode of a root that was made at this moment.
#[tactic(auto, unfolding(fs_rules::specs::Tree::root_inode))]
fn root(alloc: Global, at: Moment) -> Inode
    ensures { result ≡ root_row at }
{
    let kept = Kept {
        kind: FileType::Dir,
        mode: 0o755,
        nlink: 2,
        uid: 0,
        gid: 0,
        atime: at,
        mtime: at,
        ctime: at,
        parent: 1,
        next_cookie: 3,
        verifier: None,
        cuts: 0,
    };
    let head = Head {
        kept,
        size: 4096,
        floor: 0,
    };
    Inode {
        head,
        target: Text::new(alloc),
    }
}

/// Adds the record of the root's inode.
fn add_root(alloc: Global, page: &mut PageBuilder, at: Moment) -> Result<(), NoMemory>
    requires { MayFollow page.old (root_quad at) }
    ensures { OnOk result (page.new ≡ with_cell page.old (quad_cell (root_quad at))) }
{
    let value = value_of(alloc, &root(alloc, at))?;
    add(alloc, page, &KeyParts::Inode(1), &value)
}

/// Adds the record of the times of `.snapshot`.
fn add_times(alloc: Global, page: &mut PageBuilder, at: Moment) -> Result<(), NoMemory>
    requires { MayFollow page.old (times_quad at) }
    ensures { OnOk result (page.new ≡ with_cell page.old (quad_cell (times_quad at))) }
{
    let row = Times {
        atime: at,
        mtime: at,
        ctime: at,
    };
    let value = times_value(alloc, row)?;
    add(alloc, page, &KeyParts::Times, &value)
}

/// What the types of the arguments say: each fits where a record has it.
fn arguments_fit(fsid: u64, verifier: [u8; 8], first: Moment)
    ensures { AreGiven fsid verifier first }
{}

/// The page of an empty file system of this number and this verifier, whose root was made at this
/// moment.
pub fn first_page(
    alloc: Global,
    fsid: u64,
    verifier: [u8; 8],
    first: Moment,
) -> Result<Page, NoMemory>
    requires { fsid ≤ 2 ^ 63 }
    ensures { IfOk result (λ page. IsFirstPage page (first_tree fsid verifier first)) }
{
    arguments_fit(fsid, verifier, first);
    first_tree_is_sound();
    let mut page = PageBuilder::new(alloc, 0)?;
    add_first(alloc, &mut page, fsid, verifier)?;
    for lane in 0..LANES {
        add_lane(alloc, &mut page, lane)?;
    }
    add_root(alloc, &mut page, first)?;
    add_times(alloc, &mut page, first)?;
    page.finish()
}
