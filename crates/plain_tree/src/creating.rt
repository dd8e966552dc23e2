//! CREATE.

ghost use Rattle.std.specs.Prelude.{◌≡◌, ◌<◌, true, false, IfOk, IfSome, OnErr, OnOk};
ghost use Rattle.fs_rules.specs.Checks.{is_live};
ghost use Rattle.fs_rules.specs.Edits.{edit_node};
ghost use Rattle.fs_rules.specs.Making as table;
ghost use Rattle.fs_rules.specs.declared.place.Place.TheVariants.{Live};
ghost use Rattle.plain_nodes.specs.Needs.{HasCuts};
ghost use Rattle.nfs3_types.specs.declared.file_type.FileType.TheVariants.{Reg};
ghost use Rattle.plain_tree.specs.Giving.{DoesOwn};
ghost use Rattle.plain_tree.specs.Needs.{CanMake, Stands};

use crate::checks::need_search;
use crate::fault::Fault;
use crate::making::{Making, is_reserved};
use crate::object::Object;
use crate::plain::Plain;
use crate::setting::lacks_cuts;
use crate::writing::may_fill;
use file_content::Content;
use fs_rules::checks::{is_file, need, refuse_if};
use fs_rules::{CreatePlan, Inode, NameEntry, NewPlan, Place, is_too_large, may_write, wcc_of};
use nfs3_types::{
    Body, CreateArgs, CreateHow, CreateOk, Cred, FileType, Moment, NoMemory, Sattr, SetTime,
    Status, Text,
};
use std::alloc::Global;

/// What is set: of EXCLUSIVE nothing, and the mode is 0.
fn create_attributes(how: CreateHow) -> Sattr
    ensures { result ≡ table.create_attributes how }
{
    match how {
        CreateHow::Unchecked(s) => s,
        CreateHow::Guarded(s) => s,
        CreateHow::Exclusive(_) => Sattr {
            mode: Some(0),
            uid: None,
            gid: None,
            size: None,
            atime: SetTime::DontChange,
            mtime: SetTime::DontChange,
        },
    }
}

/// The verifier that the new file gets.
fn create_verifier(how: CreateHow) -> Option<[u8; 8]>
    ensures { result ≡ table.create_verifier how }
{
    match how {
        CreateHow::Unchecked(_) => None,
        CreateHow::Guarded(_) => None,
        CreateHow::Exclusive(verifier) => Some(verifier),
    }
}

/// A file is to be made. It takes no memory.
fn new_file(alloc: Global, how: CreateHow) -> Making
    ensures { result ≡ table.new_file how }
{
    let attributes = create_attributes(how);
    Making {
        kind: FileType::Reg,
        attributes,
        mode: 0o644,
        content: Content::zeros(alloc, attributes.size.unwrap_or(0)),
        verifier: create_verifier(how),
    }
}

/// Whether a file that is there may be taken: by UNCHECKED every one, by EXCLUSIVE what its own verifier made.
fn may_reuse(how: CreateHow, file: &Inode) -> bool
    ensures { result ≡ table.may_reuse how file.now }
{
    match how {
        CreateHow::Unchecked(_) => true,
        CreateHow::Guarded(_) => false,
        CreateHow::Exclusive(verifier) => match file.verifier {
            Some(own) => own.as_slice() == verifier.as_slice(),
            None => false,
        },
    }
}

/// The size that a file that is there is given.
fn size_over(how: CreateHow) -> Option<u64>
    ensures { result ≡ table.size_over how }
{
    match how {
        CreateHow::Unchecked(s) => s.size,
        CreateHow::Guarded(_) => None,
        CreateHow::Exclusive(_) => None,
    }
}

impl Plain {
    ghost use Rattle.plain_nodes.specs.Nodes.{nodes_of};
    ghost use Rattle.plain_tree.specs.Trees.{tree_of};

    /// CREATE where the name is there.
    #[tactic(auto, unfolding(fs_rules::specs::Making::reuse_plan))]
    fn reuse_plan(
        &self,
        cred: &Cred,
        directory: &Object,
        e: &NameEntry,
        how: CreateHow,
    ) -> Result<CreatePlan, Status>
        ensures check { result ≡ table.reuse_plan (tree_of self.now) cred.now directory.now e.now how }
        ensures old { IfOk result (λ plan. plan.is_new ≡ false) }
        ensures cuts { IfOk result (λ plan. IfSome (nodes_of self.now.nodes plan.fileid) (HasCuts plan.size)) }
    {
        let Some(file) = self.object_at(Place::Live(e.fileid)) else {
            return Err(Status::Exist);
        };
        let size = size_over(how);
        need(is_file(file.inode.kind), Status::Exist)?;
        need(may_reuse(how, &file.inode), Status::Exist)?;
        refuse_if(
            size.is_some() && !may_fill(cred, &file.inode),
            Status::Acces,
        )?;
        refuse_if(is_too_large(size), Status::Inval)?;
        refuse_if(lacks_cuts(size, &file), Status::NoSpc)?;
        Ok(CreatePlan {
            directory: directory.place.fileid(),
            fileid: e.fileid,
            is_new: false,
            size,
        })
    }

    /// CREATE where the name is not there.
    #[tactic(auto, unfolding(fs_rules::specs::Making::new_plan))]
    fn new_plan(
        &self,
        cred: &Cred,
        directory: &Object,
        how: CreateHow,
        lane: usize,
    ) -> Result<CreatePlan, Status>
        requires lane { lane < 16 }
        requires found { Stands (tree_of self.now) directory.now }
        requires live { is_live directory.now.place ≡ true }
        ensures check { result ≡ table.new_plan (tree_of self.now) cred.now directory.now how lane }
        ensures new { IfOk result (λ plan. plan.is_new ≡ true) }
        ensures room { IfOk result (λ plan. CanMake (tree_of self.now) lane Reg plan.directory) }
    {
        need(may_write(cred, &directory.inode), Status::Acces)?;
        let s = create_attributes(how);
        self.need_new_node(cred, lane, &directory.inode, FileType::Reg, &s)?;
        Ok(CreatePlan {
            directory: directory.place.fileid(),
            fileid: self.next_fileids[lane],
            is_new: true,
            size: None,
        })
    }

    /// What CREATE is going to do.
    #[tactic(auto, unfolding(fs_rules::specs::Making::create_plan))]
    fn create_plan(
        &self,
        cred: &Cred,
        a: &CreateArgs<Text>,
        lane: usize,
    ) -> Result<CreatePlan, Status>
        requires { lane < 16 }
        ensures check { result ≡ table.create_plan (tree_of self.now) cred.now a.now lane }
        ensures new { IfOk result (λ plan. plan.is_new ≡ true → CanMake (tree_of self.now) lane Reg plan.directory) }
        ensures old { IfOk result (λ plan. plan.is_new ≡ false → IfSome (nodes_of self.now.nodes plan.fileid)
            (HasCuts plan.size)) }
    {
        let name = a.place.name.as_slice();
        let directory = self.find_directory(&a.place)?;
        need_search(cred, &directory)?;
        refuse_if(is_reserved(&directory, name), Status::Exist)?;
        match self.entry_at(directory.place, name) {
            Some(e) => self.reuse_plan(cred, &directory, e, a.how),
            None => self.new_plan(cred, &directory, a.how, lane),
        }
    }

    /// Gives a file that is there a size, where one is given, and tells of it; or answers `NoMemory`, and leaves
    /// the tree as it was.
    #[tactic(auto, unfolding(fs_rules::specs::Making::told_of_new, fs_rules::specs::Edits::edit_node, fs_rules::specs::Places::handle_at))]
    fn reuse_and_tell(
        &mut self,
        alloc: Global,
        now: Moment,
        plan: &CreatePlan,
    ) -> Result<CreateOk, NoMemory>
        requires { IfSome (nodes_of self.old.nodes plan.now.fileid) (HasCuts plan.now.size) }
        ensures given { OnOk result (tree_of self.new ≡ edit_node plan.now.fileid (table.give_size plan.now.size now)
            (tree_of self.old)) }
        ensures told { IfOk result (λ told. told ≡ table.told_of_new (tree_of self.old) (tree_of self.new)
            (Live plan.now.directory) (Live plan.now.fileid)) }
        ensures err { OnErr result (tree_of self.new ≡ tree_of self.old) }
    {
        let directory = Place::Live(plan.directory);
        let object = Place::Live(plan.fileid);
        let before = self.shown(directory);
        let handle = self.handle_at(alloc, object)?;
        self.nodes.give_size(plan.fileid, plan.size, now);
        Ok(CreateOk {
            object: Some(handle),
            attributes: self.shown(object),
            directory: wcc_of(before, self.shown(directory)),
        })
    }

    /// CREATE, whose new file gets a number of this lane.
    #[tactic(auto, unfolding(fs_rules::specs::Making::create, fs_rules::specs::Making::create_edit))]
    pub(crate) fn create(
        &mut self,
        alloc: Global,
        cred: &Cred,
        a: &CreateArgs<Text>,
        now: Moment,
        lane: usize,
    ) -> Result<Body, Fault>
        requires { lane < 16 }
        ensures { DoesOwn (table.create (tree_of self.old) cred.now a.now now lane) (tree_of self.old) (tree_of self.new) result }
    {
        let plan = self.create_plan(cred, a, lane)?;
        if plan.is_new {
            let new = NewPlan {
                directory: plan.directory,
                fileid: plan.fileid,
            };
            let name = a.place.name.as_slice();
            let making = new_file(alloc, a.how);
            let told = self.make_and_tell(alloc, cred, now, lane, &new, name, making)?;
            Ok(Body::Create(told))
        } else {
            Ok(Body::Create(self.reuse_and_tell(alloc, now, &plan)?))
        }
    }
}
