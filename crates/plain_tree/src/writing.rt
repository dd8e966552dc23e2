//! WRITE.

ghost use Rattle.std.specs.Prelude.{◌≡◌, ◌+◌, ◌^◌, ◌<◌, ◌≤◌, ◌&&◌, nat_lt, IfOk, length};
ghost use Rattle.fs_rules.specs.Transfers as table;
ghost use Rattle.plain_tree.specs.Giving.{DoesOwn};

use crate::checks::{need_file, need_live};
use crate::fault::Fault;
use crate::plain::Plain;
use fs_rules::checks::{need, refuse_if};
use fs_rules::limits::{MOST_SIZE, MOST_TRANSFER};
use fs_rules::{Inode, Place, WritePlan, may_write, owns, wcc_of};
use nfs3_types::{Body, Cred, Moment, StableHow, Status, Text, WriteArgs, WriteOk};
use std::alloc::Global;

/// The caller may write: the owner always may.
pub fn may_fill(cred: &Cred, i: &Inode) -> bool
    ensures { result ≡ table.may_fill cred.now i.now }
{
    owns(cred, i.uid) || may_write(cred, i)
}

/// Whether bytes at an offset would make a file larger than the greatest size; no byte would.
fn is_too_far(offset: u64, count: u32) -> bool
    ensures { result ≡ (nat_lt 0 count && nat_lt (2 ^ 40) (offset + count)) }
{
    count > 0 && (offset > MOST_SIZE || offset + count as u64 > MOST_SIZE)
}

impl Plain {
    ghost use Rattle.plain_tree.specs.Trees.{tree_of};

    /// What WRITE is going to do: it writes no more than the call has, and no further than a file may reach.
    #[tactic(auto, unfolding(fs_rules::specs::Transfers::write_plan, fs_rules::specs::Limits::most_transfer, fs_rules::specs::Limits::most_size))]
    fn write_plan(&self, cred: &Cred, a: &WriteArgs<Text>) -> Result<WritePlan, Status>
        ensures plan { result ≡ table.write_plan (tree_of self.now) cred.now a.now }
        ensures count { IfOk result (λ plan. plan.count ≤ length a.now.«data») }
        ensures reach { IfOk result (λ plan. a.now.offset + plan.count < 2 ^ 64) }
    {
        let o = self.find_object(a.file.as_slice())?;
        need_file(&o)?;
        need_live(&o)?;
        need(a.count as usize == a.data.len(), Status::Inval)?;
        need(may_fill(cred, &o.inode), Status::Acces)?;
        let count = a.count.min(MOST_TRANSFER);
        refuse_if(is_too_far(a.offset, count), Status::FBig)?;
        Ok(WritePlan {
            fileid: o.place.fileid(),
            count,
        })
    }

    /// WRITE.
    #[tactic(auto, unfolding(fs_rules::specs::Transfers::write, fs_rules::specs::Edits::edit_node))]
    pub(crate) fn write(
        &mut self,
        alloc: Global,
        cred: &Cred,
        a: &WriteArgs<Text>,
        now: Moment,
    ) -> Result<Body, Fault>
        ensures { DoesOwn (table.write (tree_of self.old) cred.now a.now now) (tree_of self.old) (tree_of self.new) result }
    {
        let plan = self.write_plan(cred, a)?;
        let place = Place::Live(plan.fileid);
        let before = self.shown(place);
        let bytes = &a.data.as_slice()[..plan.count as usize];
        self.nodes.write(alloc, plan.fileid, a.offset, bytes, now)?;
        Ok(Body::Write(WriteOk {
            file: wcc_of(before, self.shown(place)),
            count: plan.count,
            committed: StableHow::FileSync,
            verifier: self.verifier,
        }))
    }
}
