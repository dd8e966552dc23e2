//! MKDIR and SYMLINK outside of `.snapshot`, and what CREATE shares with them.

ghost use Rattle.std.specs.Prelude.{◌≡◌, ◌<◌, true, IfOk, OnOk, OnErr};
ghost use Rattle.nfs3_types.specs.declared.file_type.FileType.TheVariants.{Dir, Lnk};
ghost use Rattle.fs_rules.specs.Checks.{is_live};
ghost use Rattle.fs_rules.specs.Making as table;
ghost use Rattle.fs_rules.specs.declared.place.Place.TheVariants.{Live};
ghost use Rattle.plain_tree.specs.Giving.{DoesOwn};
ghost use Rattle.plain_tree.specs.Needs.{CanMake, Stands};

use crate::checks::{need_place_for, need_search};
use crate::fault::Fault;
use crate::object::Object;
use crate::plain::Plain;
use file_content::Content;
use fs_rules::checks::{
    is_directory, is_dots, is_file, is_of_others, is_others, is_snapshots_name, lacks_cookies,
    lacks_links, need, no_fault, refuse_if,
};
use fs_rules::limits::MOST_NUMBERS;
use fs_rules::{Inode, NewPlan, Place, is_too_large, may_write, target_fault, time_by, wcc_of};
use nfs3_types::{
    Body, CreateOk, Cred, FileType, MkdirArgs, Moment, NoMemory, Sattr, Status, SymlinkArgs, Text,
};
use plain_nodes::Node;
use std::alloc::Global;
use std::marker::Model;

/// What is to be made.
#[derive(Drop)]
pub struct Making {
    /// What kind of node.
    pub kind: FileType,
    /// What is set of its attributes.
    pub attributes: Sattr,
    /// The mode, where none is given.
    pub mode: u32,
    /// What it holds.
    pub content: Content,
    /// The verifier of an EXCLUSIVE CREATE.
    pub verifier: Option<[u8; 8]>,
}

impl Model for Making {
    ghost use Rattle.fs_rules.specs.Making.{Making};

    ghost Value = { Making };

    ghost view = { λ m. record {
      kind = m.kind;
      attributes = m.attributes;
      mode = m.mode;
      content = m.content;
      verifier = m.verifier;
    } };
}

impl Making {
    /// What kind of node it is.
    fn kind(&self) -> FileType
        ensures { result ≡ self.now.kind }
    {
        self.kind
    }
}

/// A directory is to be made. It takes no memory.
fn new_directory(alloc: Global, s: &Sattr) -> Making
    ensures { result ≡ table.new_directory s.now }
{
    Making {
        kind: FileType::Dir,
        attributes: *s,
        mode: 0o755,
        content: Content::new(alloc),
        verifier: None,
    }
}

/// A symbolic link is to be made; or `NoMemory`.
#[tactic(auto, unfolding(fs_rules::specs::Edits::written, fs_rules::specs::Edits::resized))]
fn new_link(alloc: Global, s: &Sattr, target: &[u8]) -> Result<Making, NoMemory>
    ensures { IfOk result (λ m. m ≡ table.new_link s.now target.now) }
{
    let mut content = Content::new(alloc);
    content.write(alloc, 0, target)?;
    Ok(Making {
        kind: FileType::Lnk,
        attributes: *s,
        mode: 0o777,
        content,
        verifier: None,
    })
}

/// A new node in the directory of this number. It takes no memory.
#[tactic(auto, unfolding(fs_rules::specs::Making::new_node))]
pub fn new_node(alloc: Global, cred: &Cred, now: Moment, parent: u64, m: Making) -> Node
    ensures { result ≡ table.new_node cred.now now parent m }
{
    let is_directory = is_directory(m.kind);
    let s = m.attributes;
    Node {
        inode: Inode {
            kind: m.kind,
            mode: s.mode.unwrap_or(m.mode) % 4096,
            nlink: if is_directory { 2 } else { 1 },
            uid: s.uid.unwrap_or(cred.uid),
            gid: s.gid.unwrap_or(cred.gid),
            atime: time_by(s.atime, now, now),
            mtime: time_by(s.mtime, now, now),
            ctime: now,
            parent: if is_directory { parent } else { 0 },
            next_cookie: if is_directory { 3 } else { 0 },
            verifier: m.verifier,
            cuts: 0,
        },
        content: m.content,
        names: Vec::new(alloc),
    }
}

// ---- checks

/// A name that is there without an entry.
pub fn is_reserved(directory: &Object, name: &[u8]) -> bool
    ensures { result ≡ table.is_reserved directory.now name.now }
{
    is_dots(name) || is_snapshots_name(directory.place, name)
}

impl Plain {
    ghost use Rattle.plain_tree.specs.Trees.{tree_of};

    /// Whether no number is left in a lane.
    #[tactic(auto, unfolding(fs_rules::specs::Limits::most_numbers))]
    fn lacks_numbers(&self, lane: usize) -> bool
        requires { lane < 16 }
        ensures { result ≡ table.lacks_numbers (tree_of self.now) lane }
    {
        self.next_fileids[lane] >= MOST_NUMBERS
    }

    /// A new node of this kind can be made in a directory, and there is a number for it.
    #[tactic(auto, unfolding(fs_rules::specs::Making::need_new_node))]
    pub(crate) fn need_new_node(
        &self,
        cred: &Cred,
        lane: usize,
        directory: &Inode,
        kind: FileType,
        s: &Sattr,
    ) -> Result<(), Status>
        requires { lane < 16 }
        ensures { result ≡ table.need_new_node (tree_of self.now) cred.now lane directory.now kind s.now }
    {
        refuse_if(is_others(cred, s.uid), Status::Perm)?;
        refuse_if(is_of_others(cred, s.gid), Status::Perm)?;
        refuse_if(is_file(kind) && is_too_large(s.size), Status::Inval)?;
        refuse_if(lacks_links(kind, directory), Status::MLink)?;
        refuse_if(self.lacks_numbers(lane), Status::NoSpc)?;
        refuse_if(lacks_cookies(directory), Status::NoSpc)
    }

    /// A name that is there.
    fn is_taken(&self, directory: &Object, name: &[u8]) -> bool
        requires { is_live directory.now.place ≡ true }
        ensures { result ≡ table.is_taken (tree_of self.now) directory.now name.now }
    {
        is_reserved(directory, name) || self.entry_at(directory.place, name).is_some()
    }

    /// A name that is free, and a directory in which the caller may write.
    #[tactic(auto, unfolding(fs_rules::specs::Making::need_free_name))]
    pub(crate) fn need_free_name(
        &self,
        cred: &Cred,
        directory: &Object,
        name: &[u8],
    ) -> Result<(), Status>
        requires { is_live directory.now.place ≡ true }
        ensures { result ≡ table.need_free_name (tree_of self.now) cred.now directory.now name.now }
    {
        refuse_if(self.is_taken(directory, name), Status::Exist)?;
        need(may_write(cred, &directory.inode), Status::Acces)
    }

    // ---- a node and its name

    /// Makes a node and its name, as planned; or answers `NoMemory`, and leaves the tree as it was.
    #[tactic(auto, unfolding(fs_rules::specs::Making::make_node, fs_rules::specs::Making::new_node, fs_rules::specs::Edits::edit_node, fs_rules::specs::Edits::add_node, fs_rules::specs::Edits::give_number, fs_rules::specs::Limits::most_links, fs_rules::specs::Limits::most_numbers))]
    fn make_node(
        &mut self,
        alloc: Global,
        cred: &Cred,
        now: Moment,
        lane: usize,
        plan: &NewPlan,
        name: &[u8],
        m: Making,
    ) -> Result<(), NoMemory>
        requires lane { lane < 16 }
        requires room { CanMake (tree_of self.old) lane m.kind plan.now.directory }
        ensures ok { OnOk result (tree_of self.new ≡ table.make_node cred.now now lane plan.now name.now m (tree_of self.old)) }
        ensures err { OnErr result (tree_of self.new ≡ tree_of self.old) }
    {
        let directory = plan.directory;
        let kind = m.kind();
        let node = new_node(alloc, cred, now, directory, m);
        self.nodes
            .add(alloc, plan.fileid, node, directory, kind, name, now)?;
        self.next_fileids[lane] += 16;
        Ok(())
    }

    /// Makes a node and its name, as planned, and tells of it; or answers `NoMemory`, and leaves the tree as it was.
    #[tactic(auto, unfolding(fs_rules::specs::Making::make_node, fs_rules::specs::Making::told_of_new, fs_rules::specs::Edits::edit_node, fs_rules::specs::Edits::add_node, fs_rules::specs::Edits::give_number, fs_rules::specs::Places::handle_at))]
    pub(crate) fn make_and_tell(
        &mut self,
        alloc: Global,
        cred: &Cred,
        now: Moment,
        lane: usize,
        plan: &NewPlan,
        name: &[u8],
        m: Making,
    ) -> Result<CreateOk, NoMemory>
        requires lane { lane < 16 }
        requires room { CanMake (tree_of self.old) lane m.kind plan.now.directory }
        ensures made { OnOk result (tree_of self.new ≡ table.make_node cred.now now lane plan.now name.now m (tree_of self.old)) }
        ensures told { IfOk result (λ told. told ≡ table.told_of_new (tree_of self.old) (tree_of self.new)
            (Live plan.now.directory) (Live plan.now.fileid)) }
        ensures err { OnErr result (tree_of self.new ≡ tree_of self.old) }
    {
        let directory = Place::Live(plan.directory);
        let object = Place::Live(plan.fileid);
        let before = self.shown(directory);
        let handle = self.handle_at(alloc, object)?;
        self.make_node(alloc, cred, now, lane, plan, name, m)?;
        Ok(CreateOk {
            object: Some(handle),
            attributes: self.shown(object),
            directory: wcc_of(before, self.shown(directory)),
        })
    }

    // ---- MKDIR, once its directory is found

    /// What MKDIR is going to do.
    #[tactic(auto, unfolding(fs_rules::specs::Making::make_directory_plan))]
    fn make_directory_plan(
        &self,
        cred: &Cred,
        a: &MkdirArgs<Text>,
        lane: usize,
        directory: &Object,
    ) -> Result<NewPlan, Status>
        requires lane { lane < 16 }
        requires found { Stands (tree_of self.now) directory.now }
        ensures check { result ≡ table.make_directory_plan (tree_of self.now) cred.now a.now lane directory.now }
        ensures room { IfOk result (λ plan. CanMake (tree_of self.now) lane Dir plan.directory) }
    {
        let name = a.place.name.as_slice();
        need_place_for(directory, name)?;
        need_search(cred, directory)?;
        self.need_free_name(cred, directory, name)?;
        self.need_new_node(cred, lane, &directory.inode, FileType::Dir, &a.attributes)?;
        Ok(NewPlan {
            directory: directory.place.fileid(),
            fileid: self.next_fileids[lane],
        })
    }

    /// MKDIR outside of `.snapshot`, whose new directory gets a number of this lane.
    #[tactic(auto, unfolding(fs_rules::specs::Making::make_directory))]
    pub(crate) fn make_directory(
        &mut self,
        alloc: Global,
        cred: &Cred,
        a: &MkdirArgs<Text>,
        now: Moment,
        lane: usize,
        directory: &Object,
    ) -> Result<Body, Fault>
        requires lane { lane < 16 }
        requires found { Stands (tree_of self.old) directory.now }
        ensures { DoesOwn (table.make_directory (tree_of self.old) cred.now a.now now lane directory.now) (tree_of self.old)
            (tree_of self.new) result }
    {
        let plan = self.make_directory_plan(cred, a, lane, directory)?;
        let name = a.place.name.as_slice();
        let making = new_directory(alloc, &a.attributes);
        let told = self.make_and_tell(alloc, cred, now, lane, &plan, name, making)?;
        Ok(Body::Mkdir(told))
    }

    // ---- SYMLINK

    /// What SYMLINK is going to do.
    #[tactic(auto, unfolding(fs_rules::specs::Making::symlink_plan))]
    fn symlink_plan(
        &self,
        cred: &Cred,
        a: &SymlinkArgs<Text>,
        lane: usize,
    ) -> Result<NewPlan, Status>
        requires { lane < 16 }
        ensures check { result ≡ table.symlink_plan (tree_of self.now) cred.now a.now lane }
        ensures room { IfOk result (λ plan. CanMake (tree_of self.now) lane Lnk plan.directory) }
    {
        let directory = self.find_directory(&a.place)?;
        need_search(cred, &directory)?;
        self.need_free_name(cred, &directory, a.place.name.as_slice())?;
        no_fault(target_fault(a.target.as_slice()))?;
        self.need_new_node(cred, lane, &directory.inode, FileType::Lnk, &a.attributes)?;
        Ok(NewPlan {
            directory: directory.place.fileid(),
            fileid: self.next_fileids[lane],
        })
    }

    /// SYMLINK, whose new link gets a number of this lane.
    #[tactic(auto, unfolding(fs_rules::specs::Making::symlink))]
    pub(crate) fn symlink(
        &mut self,
        alloc: Global,
        cred: &Cred,
        a: &SymlinkArgs<Text>,
        now: Moment,
        lane: usize,
    ) -> Result<Body, Fault>
        requires { lane < 16 }
        ensures { DoesOwn (table.symlink (tree_of self.old) cred.now a.now now lane) (tree_of self.old) (tree_of self.new)
            result }
    {
        let plan = self.symlink_plan(cred, a, lane)?;
        let name = a.place.name.as_slice();
        let making = new_link(alloc, &a.attributes, a.target.as_slice())?;
        let told = self.make_and_tell(alloc, cred, now, lane, &plan, name, making)?;
        Ok(Body::Symlink(told))
    }
}
