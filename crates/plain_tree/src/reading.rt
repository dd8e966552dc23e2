//! What a file holds, and that it lasts: READ and COMMIT.

ghost use Rattle.std.specs.Prelude.{◌≡◌, take, drop, IfOk};
ghost use Rattle.fs_rules.specs.Places.{content_at};
ghost use Rattle.fs_rules.specs.Transfers as table;
ghost use Rattle.plain_tree.specs.Giving.{GivesOwn};

use crate::checks::need_file;
use crate::fault::Fault;
use crate::plain::Plain;
use fs_rules::checks::need;
use fs_rules::limits::MOST_TRANSFER;
use fs_rules::{Place, may_read, may_search, owns, wcc_of};
use nfs3_types::{Body, CommitOk, Cred, FileRange, NoMemory, ReadOk, Status, Text};
use plain_nodes::Node;
use std::alloc::Global;

/// All that a node holds, or `NoMemory`.
fn whole_content(alloc: Global, node: &Node) -> Result<Text, NoMemory>
    ensures { IfOk result (λ text. text ≡ node.now.content) }
{
    node.content.read(alloc, 0, node.content.len() as usize)
}

/// How many bytes are read: what is asked for, at most the greatest transfer, and what the file has there.
#[tactic(auto, unfolding(fs_rules::specs::Limits::most_transfer))]
fn read_count(a: &FileRange<Text>, size: u64) -> u32
    ensures { result ≡ table.read_count a.now size }
{
    let there = size.saturating_sub(a.offset);
    a.count.min(there.min(MOST_TRANSFER as u64) as u32)
}

impl Plain {
    ghost use Rattle.plain_tree.specs.Trees.{tree_of};

    /// All that a file holds, or what a symbolic link leads to; or `NoMemory`. A directory holds nothing.
    #[tactic(auto, unfolding(fs_rules::specs::Places::node_at, fs_rules::specs::Places::snapshot_directory))]
    pub(crate) fn content_at(&self, alloc: Global, place: Place) -> Result<Text, NoMemory>
        ensures { IfOk result (λ text. text ≡ content_at (tree_of self.now) place) }
    {
        match place {
            Place::Live(fileid) => match self.nodes.get(fileid) {
                Some(node) => whole_content(alloc, node),
                None => Ok(Text::new(alloc)),
            },
            Place::SnapshotDirectory => Ok(Text::new(alloc)),
            Place::Kept(number, fileid) => match self.kept_node(number, fileid) {
                Some(node) => whole_content(alloc, node),
                None => Ok(Text::new(alloc)),
            },
        }
    }

    /// Up to `count` of the bytes that a file holds, from an offset on, or `NoMemory`.
    #[tactic(auto, unfolding(fs_rules::specs::Places::node_at, fs_rules::specs::Places::snapshot_directory))]
    fn content_from(
        &self,
        alloc: Global,
        place: Place,
        offset: u64,
        count: u32,
    ) -> Result<Text, NoMemory>
        ensures { IfOk result (λ text. text ≡ take count (drop offset (content_at (tree_of self.now) place))) }
    {
        match place {
            Place::Live(fileid) => match self.nodes.get(fileid) {
                Some(node) => node.content.read(alloc, offset, count as usize),
                None => Ok(Text::new(alloc)),
            },
            Place::SnapshotDirectory => Ok(Text::new(alloc)),
            Place::Kept(number, fileid) => match self.kept_node(number, fileid) {
                Some(node) => node.content.read(alloc, offset, count as usize),
                None => Ok(Text::new(alloc)),
            },
        }
    }

    /// READ.
    #[tactic(auto, unfolding(fs_rules::specs::Transfers::read))]
    pub(crate) fn read(
        &self,
        alloc: Global,
        cred: &Cred,
        a: &FileRange<Text>,
    ) -> Result<Body, Fault>
        ensures { GivesOwn (table.read (tree_of self.now) cred.now a.now) result }
    {
        let o = self.find_object(a.file.as_slice())?;
        need_file(&o)?;
        let i = &o.inode;
        need(
            owns(cred, i.uid) || may_read(cred, i) || may_search(cred, i),
            Status::Acces,
        )?;
        let count = read_count(a, o.size);
        let end = a.offset.saturating_add(count as u64);
        Ok(Body::Read(ReadOk {
            attributes: Some(self.attributes(&o)),
            count,
            eof: o.size <= end,
            data: self.content_from(alloc, o.place, a.offset, count)?,
        }))
    }

    /// COMMIT: all that is written is lasting at once.
    #[tactic(auto, unfolding(fs_rules::specs::Transfers::commit))]
    pub(crate) fn commit(&self, a: &FileRange<Text>) -> Result<Body, Status>
        ensures { result ≡ table.commit (tree_of self.now) a.now }
    {
        let o = self.find_object(a.file.as_slice())?;
        need_file(&o)?;
        let shown = self.shown(o.place);
        Ok(Body::Commit(CommitOk {
            file: wcc_of(shown, shown),
            verifier: self.verifier,
        }))
    }
}
