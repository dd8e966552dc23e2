//! LINK.

ghost use Rattle.std.specs.Prelude.{◌≡◌, IfOk, OnErr, OnOk};
ghost use Rattle.fs_rules.specs.Edits.{add_link, add_name, edit_node, set_ctime, touch};
ghost use Rattle.fs_rules.specs.Renaming as table;
ghost use Rattle.plain_nodes.specs.Nodes.{nodes_of};
ghost use Rattle.plain_tree.specs.Giving.{DoesOwn};
ghost use Rattle.plain_tree.specs.Needs.{CanLink};

use crate::checks::{need_directory, need_live, need_search};
use crate::fault::Fault;
use crate::plain::Plain;
use fs_rules::checks::{is_directory, is_live, lacks_cookies, need, need_good_name, refuse_if};
use fs_rules::limits::MOST_LINKS;
use fs_rules::{LinkPlan, Place, wcc_of};
use nfs3_types::{Body, Cred, LinkArgs, LinkOk, Moment, NoMemory, Status, Text};
use std::alloc::Global;

impl Plain {
    ghost use Rattle.plain_tree.specs.Trees.{tree_of};

    /// What LINK is going to do: a file that is not in the live tree is in another file system than the directory.
    #[tactic(auto, unfolding(fs_rules::specs::Renaming::link_plan, fs_rules::specs::Limits::most_links))]
    fn link_plan(&self, cred: &Cred, a: &LinkArgs<Text>) -> Result<LinkPlan, Status>
        ensures check { result ≡ table.link_plan (tree_of self.now) cred.now a.now }
        ensures ready { IfOk result (CanLink (nodes_of self.now.nodes)) }
    {
        let name = a.link.name.as_slice();
        let file = self.find_object(a.file.as_slice())?;
        let directory = self.find_object(a.link.directory.as_slice())?;
        need_directory(&directory)?;
        need_live(&directory)?;
        need(is_live(file.place), Status::Xdev)?;
        need_good_name(name)?;
        refuse_if(is_directory(file.inode.kind), Status::Inval)?;
        need_search(cred, &directory)?;
        self.need_free_name(cred, &directory, name)?;
        refuse_if(file.inode.nlink >= MOST_LINKS, Status::MLink)?;
        refuse_if(lacks_cookies(&directory.inode), Status::NoSpc)?;
        Ok(LinkPlan {
            file: file.place.fileid(),
            directory: directory.place.fileid(),
        })
    }

    /// A file has a further name in a directory; or it answers `NoMemory`, and the tree is as it was.
    #[tactic(auto, unfolding(fs_rules::specs::Edits::edit_node))]
    fn add_link(
        &mut self,
        alloc: Global,
        plan: &LinkPlan,
        name: &[u8],
        now: Moment,
    ) -> Result<(), NoMemory>
        requires { CanLink (nodes_of self.old.nodes) plan.now }
        ensures ok { OnOk result (tree_of self.new ≡ edit_node plan.now.directory
            (λ n. touch now (add_name name.now plan.now.file n)) (edit_node plan.now.file (λ n. set_ctime now (add_link n))
            (tree_of self.old))) }
        ensures err { OnErr result (tree_of self.new ≡ tree_of self.old) }
    {
        self.nodes
            .add_name(alloc, plan.directory, name, plan.file, now)?;
        self.nodes.link(plan.file, now);
        Ok(())
    }

    /// LINK.
    #[tactic(auto, unfolding(fs_rules::specs::Renaming::link))]
    pub(crate) fn link(
        &mut self,
        alloc: Global,
        cred: &Cred,
        a: &LinkArgs<Text>,
        now: Moment,
    ) -> Result<Body, Fault>
        ensures { DoesOwn (table.link (tree_of self.old) cred.now a.now now) (tree_of self.old) (tree_of self.new) result }
    {
        let plan = self.link_plan(cred, a)?;
        let place = Place::Live(plan.directory);
        let before = self.shown(place);
        self.add_link(alloc, &plan, a.link.name.as_slice(), now)?;
        Ok(Body::Link(LinkOk {
            attributes: self.shown(Place::Live(plan.file)),
            directory: wcc_of(before, self.shown(place)),
        }))
    }
}
