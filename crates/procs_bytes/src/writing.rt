//! WRITE.

ghost use Rattle.std.specs.Prelude.{◌≡◌, ◌+◌, ◌<◌, ◌≤◌, ◌^◌, true, OnOk, IfOk, length, take};
ghost use Rattle.fs_rules.specs.Attributes.{is_file as is_file_kind};
ghost use Rattle.fs_rules.specs.Checks.{is_live as is_live_place};
ghost use Rattle.fs_rules.specs.Places.{Object, fileid_at};
ghost use Rattle.fs_rules.specs.Transfers as table;
ghost use Rattle.procs_object.specs.Performing.{Performs};
ghost use Rattle.procs_bytes.specs.Writing.{write_plan_for, too_far, written_attributes};

use crate::checks::is_file;
use file_ops::write_at;
use fs_rules::checks::is_live;
use fs_rules::limits::{MOST_SIZE, MOST_TRANSFER};
use fs_rules::{Inode, WritePlan, may_write, owns, wcc_of};
use fs_shows::Halt;
use inode_ops::first;
use nfs3_types::{Body, Cred, Fattr, Moment, StableHow, Status, Text, WriteArgs, WriteOk};
use pairs::Blocks;
use procs_object::{Found, find_object};
use std::alloc::Global;

/// Whether a caller may write: the owner always may.
pub fn may_fill(cred: &Cred, i: &Inode) -> bool
    ensures { result ≡ table.may_fill cred.now i.now }
{
    owns(cred, i.uid) || may_write(cred, i)
}

/// Whether bytes at an offset would make a file larger than the greatest size; no byte would.
#[tactic(auto, unfolding(fs_rules::specs::Limits::most_size))]
fn is_too_far(offset: u64, count: u32) -> bool
    ensures { result ≡ too_far offset count }
{
    count > 0 && (offset > MOST_SIZE || offset + count as u64 > MOST_SIZE)
}

/// What WRITE is going to do with what was found.
#[tactic(auto, unfolding(crate::specs::Writing::write_plan_for, fs_rules::specs::Limits::most_transfer, fs_rules::specs::Limits::most_size))]
fn plan_of(cred: &Cred, a: &WriteArgs<Text>, o: &Found) -> Result<WritePlan, Status>
    ensures check { (object : Object) → object.place ≡ o.now.place → object.inode ≡ o.now.inode.head.kept
        → write_plan_for object cred.now a.now ≡ result }
    ensures file { OnOk result (is_file_kind o.now.inode.head.kept.kind ≡ true) }
    ensures live { OnOk result (is_live_place o.now.place ≡ true) }
    ensures fileid { IfOk result (λ plan. plan.fileid ≡ fileid_at o.now.place) }
    ensures count { IfOk result (λ plan. plan.count ≤ length a.now.«data») }
    ensures few { IfOk result (λ plan. plan.count ≤ 32768) }
    ensures reach { IfOk result (λ plan. a.now.offset + plan.count < 2 ^ 64) }
{
    if !is_file(&o.inode.head.kept) {
        return Err(Status::Inval);
    }
    if !is_live(o.place) {
        return Err(Status::Rofs);
    }
    if a.count as usize != a.data.len() {
        return Err(Status::Inval);
    }
    if !may_fill(cred, &o.inode.head.kept) {
        return Err(Status::Acces);
    }
    let count = a.count.min(MOST_TRANSFER);
    if is_too_far(a.offset, count) {
        return Err(Status::FBig);
    }
    Ok(WritePlan {
        fileid: o.place.fileid(),
        count,
    })
}

/// The attributes of a file behind a write of so many bytes.
#[tactic(auto, unfolding(crate::specs::Writing::written_attributes))]
fn attributes_behind(before: &Fattr, offset: u64, count: u32, now: Moment) -> Fattr
    requires { offset + count < 2 ^ 64 }
    ensures { result ≡ written_attributes before.now offset count now }
{
    if count == 0 {
        return *before;
    }
    let size = before.size.max(offset + count as u64);
    Fattr {
        size,
        used: size,
        mtime: now,
        ctime: now,
        ..*before
    }
}

/// The first bytes of a text, so many.
fn front(text: &Text, count: u32) -> &[u8]
    requires { count ≤ length text.now }
    ensures { result.now ≡ take count text.now }
{
    &text.as_slice()[..count as usize]
}

/// WRITE.
#[tactic(none)]
pub fn write<P: Blocks>(
    alloc: Global,
    pairs: &mut P,
    cred: &Cred,
    a: &WriteArgs<Text>,
    now: Moment,
) -> Result<Body, Halt>
    ensures { Performs P.told pairs.old pairs.new 6 (λ t. table.write t cred.now a.now now) result }
{
    let begins = match first(alloc, pairs) {
        Ok(begins) => begins,
        Err(fault) => return Err(Halt::Fault(fault)),
    };
    let o = match find_object(alloc, pairs, &begins, a.file.as_slice()) {
        Ok(o) => o,
        Err(halt) => return Err(halt),
    };
    let plan = match plan_of(cred, a, &o) {
        Ok(plan) => plan,
        Err(status) => return Err(Halt::Refused(status)),
    };
    let before = o.attributes;
    let after = attributes_behind(&before, a.offset, plan.count, now);
    let bytes = front(&a.data, plan.count);
    match write_at(alloc, pairs, plan.fileid, a.offset, bytes, now) {
        Ok(()) => Ok(Body::Write(WriteOk {
            file: wcc_of(Some(before), Some(after)),
            count: plan.count,
            committed: StableHow::FileSync,
            verifier: begins.verifier,
        })),
        Err(fault) => Err(Halt::Fault(fault)),
    }
}
