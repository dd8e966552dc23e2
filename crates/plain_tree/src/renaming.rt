//! RENAME.

ghost use Rattle.std.specs.Prelude.{◌≡◌, ◌+◌, ◌||◌, if◌then◌else◌, true, false, option_map, Ok, IfOk, IfSome, OnErr, OnOk};
ghost use Rattle.fs_rules.specs.Attributes.{given};
ghost use Rattle.fs_rules.specs.Checks.{is_live};
ghost use Rattle.fs_rules.specs.Places.{entry_at, fileid_at};
ghost use Rattle.fs_rules.specs.Limits.{deepest};
ghost use Rattle.fs_rules.specs.Renaming as table;
ghost use Rattle.plain_nodes.specs.Needs.{HasLink};
ghost use Rattle.plain_nodes.specs.Nodes.{nodes_of};
ghost use Rattle.plain_tree.specs.Giving.{DoesOwn};
ghost use Rattle.plain_tree.specs.Needs.{CanMove, HasOpenWay, Stands};

use crate::checks::{need_directory, need_live};
use crate::fault::Fault;
use crate::object::Object;
use crate::plain::Plain;
use fs_rules::checks::{
    is_directory, is_dots, is_snapshots_name, lacks_cookies, may_alter, need, need_good_name,
    refuse_if,
};
use fs_rules::limits::{DEEPEST, MOST_LINKS};
use fs_rules::{Climb, Place, RenamePlan, Replaced, wcc_of};
use nfs3_types::{Body, Cred, Moment, NoMemory, RenameArgs, RenameOk, Status, Text};
use plain_nodes::Nodes;
use std::alloc::Global;
use std::marker::Model;

/// A node that gets another name.
#[derive(Drop)]
pub struct Renaming {
    /// Its directory.
    pub from: Object,
    /// The directory of the new name.
    pub to: Object,
    /// The node.
    pub source: Object,
    /// What has the new name.
    pub target: Option<Object>,
}

impl Model for Renaming {
    ghost use Rattle.fs_rules.specs.Renaming.{Renaming};

    ghost Value = { Renaming };

    ghost view = { λ r. record {
      from = r.from;
      to = r.to;
      source = r.source;
      target = r.target;
    } };
}

/// The way leads through the directory that was sought, if this is it.
fn through(here: bool, way: Climb) -> Climb
    ensures { result ≡ table.through here way }
{
    match way {
        Climb::Root => { if here { Climb::Found } else { Climb::Root } }
        Climb::TooDeep => Climb::TooDeep,
        Climb::Found => Climb::Found,
    }
}

/// Whether the way has led through the directory that is sought, here or before.
fn passes(here: bool, before: bool) -> bool
    ensures { result ≡ (here || before) }
{
    here || before
}

/// The way from a directory up to the root, of so many at most, the root with them, and whether it leads through
/// the directory that is sought.
#[tactic(auto, using(crate::proofs::Lines::climb_step, crate::proofs::Lines::climb_root, crate::proofs::Lines::climb_end))]
pub fn climb(nodes: &Nodes, sought: u64, most: u32, fileid: u64) -> Climb
    ensures { result ≡ table.climb (nodes_of nodes.now) sought most fileid }
{
    let mut at = fileid;
    let mut left = most;
    let mut is_through = false;
    while left > 0 {
        is_through = passes(at == sought, is_through);
        if at == 1 {
            return through(is_through, Climb::Root);
        }
        at = nodes.parent_of(at);
        left -= 1;
    }
    Climb::TooDeep
}

/// A directory is not moved too deep, and not into itself or below itself.
fn allow_move(way: Climb) -> Result<(), Status>
    ensures { result ≡ table.allow_move way }
{
    match way {
        Climb::TooDeep => Err(Status::NameTooLong),
        Climb::Found => Err(Status::Inval),
        Climb::Root => Ok(()),
    }
}

/// What goes for the source.
fn replaced_by(o: &Object) -> Replaced
    ensures { result ≡ table.replaced_by o.now }
{
    Replaced {
        fileid: o.place.fileid(),
        is_directory: is_directory(o.inode.kind),
    }
}

impl Renaming {
    /// Whether both names are the node's already.
    fn is_same_node(&self) -> bool
        ensures { result ≡ table.is_same_node self.now }
    {
        match &self.target {
            Some(o) => o.place.fileid() == self.source.place.fileid(),
            None => false,
        }
    }

    /// Whether a directory gets another parent.
    fn reparents(&self) -> bool
        ensures { result ≡ table.reparents self.now }
    {
        is_directory(self.source.inode.kind) && self.from.place.fileid() != self.to.place.fileid()
    }

    /// What has the new name, and goes.
    fn replaced(&self) -> Option<Replaced>
        ensures { result ≡ option_map table.replaced_by self.now.target }
    {
        match &self.target {
            Some(o) => Some(replaced_by(o)),
            None => None,
        }
    }
}

impl Plain {
    ghost use Rattle.plain_tree.specs.Trees.{tree_of};

    /// What has a name in a directory of the live tree.
    fn target_at(&self, directory: Place, name: &[u8]) -> Option<Object>
        requires { is_live directory ≡ true }
        ensures { result ≡ table.target_at (tree_of self.now) (entry_at (tree_of self.now) directory name.now) }
    {
        match self.entry_at(directory, name) {
            Some(e) => self.object_at(Place::Live(e.fileid)),
            None => None,
        }
    }

    /// What is found: first the directories of both names, then what has them.
    #[tactic(auto, unfolding(fs_rules::specs::Renaming::find_renaming))]
    fn find_renaming(&self, cred: &Cred, a: &RenameArgs<Text>) -> Result<Renaming, Status>
        ensures check { result ≡ table.find_renaming (tree_of self.now) cred.now a.now }
        ensures stands { IfOk result (λ r. Stands (tree_of self.now) r.to) }
        ensures live { IfOk result (λ r. is_live r.to.place ≡ true) }
    {
        let old = a.from.name.as_slice();
        let new = a.to.name.as_slice();
        let from = self.find_object(a.from.directory.as_slice())?;
        let to = self.find_object(a.to.directory.as_slice())?;
        need_directory(&from)?;
        need_directory(&to)?;
        need_live(&from)?;
        need_live(&to)?;
        need_good_name(old)?;
        need_good_name(new)?;
        refuse_if(is_dots(old) || is_dots(new), Status::Inval)?;
        refuse_if(
            is_snapshots_name(from.place, old) || is_snapshots_name(to.place, new),
            Status::Acces,
        )?;
        need(may_alter(cred, &from.inode), Status::Acces)?;
        need(may_alter(cred, &to.inode), Status::Acces)?;
        let Some(e) = self.entry_at(from.place, old) else {
            return Err(Status::NoEnt);
        };
        let Some(source) = self.object_at(Place::Live(e.fileid)) else {
            return Err(Status::NoEnt);
        };
        let target = self.target_at(to.place, new);
        Ok(Renaming {
            from,
            to,
            source,
            target,
        })
    }

    /// Whether what has the new name cannot go for the source: one of the two is a directory and the other is not,
    /// or it is a directory that is not empty.
    fn is_in_the_way(&self, r: &Renaming) -> bool
        ensures { result ≡ given r.now.target (table.is_in_the_way (tree_of self.now) r.now.source) }
    {
        match &r.target {
            Some(o) => {
                let is_above = is_directory(o.inode.kind);
                is_above != is_directory(r.source.inode.kind)
                    || (is_above && self.has_names(o.place))
            }
            None => false,
        }
    }

    /// A directory that gets another parent is not moved too deep, and not into itself or below itself.
    #[tactic(auto, unfolding(fs_rules::specs::Limits::deepest))]
    fn need_way(&self, r: &Renaming) -> Result<(), Status>
        ensures { result ≡ (if table.reparents r.now
            then table.allow_move (table.climb (tree_of self.now).nodes (fileid_at r.now.source.place) (deepest + 1)
            (fileid_at r.now.to.place)) else Ok tt) }
    {
        if !r.reparents() {
            return Ok(());
        }
        let source = r.source.place.fileid();
        allow_move(climb(&self.nodes, source, DEEPEST + 1, r.to.place.fileid()))
    }

    /// What is found can be done.
    #[tactic(auto, unfolding(fs_rules::specs::Renaming::need_room, fs_rules::specs::Limits::most_links))]
    fn need_room(&self, r: &Renaming) -> Result<(), Status>
        ensures check { result ≡ table.need_room (tree_of self.now) r.now }
        ensures room { OnOk result (HasOpenWay (tree_of self.now) r.now) }
    {
        let links = r.to.nlink();
        self.need_way(r)?;
        refuse_if(self.is_in_the_way(r), Status::Exist)?;
        refuse_if(
            r.reparents() && r.target.is_none() && links >= MOST_LINKS,
            Status::MLink,
        )?;
        refuse_if(lacks_cookies(&r.to.inode), Status::NoSpc)?;
        Ok(())
    }

    /// What is found can be done; where both names are one node's, nothing is asked any more.
    fn need_other_room(&self, r: &Renaming) -> Result<(), Status>
        ensures check { result ≡ (if table.is_same_node r.now then Ok tt else table.need_room (tree_of self.now) r.now) }
        ensures room { OnOk result (table.is_same_node r.now ≡ false → HasOpenWay (tree_of self.now) r.now) }
    {
        if r.is_same_node() {
            return Ok(());
        }
        self.need_room(r)
    }

    /// What RENAME is going to do; where both names are one node's, nothing is asked any more.
    #[tactic(auto, unfolding(fs_rules::specs::Renaming::rename_plan))]
    fn rename_plan(&self, cred: &Cred, a: &RenameArgs<Text>) -> Result<RenamePlan, Status>
        ensures check { result ≡ table.rename_plan (tree_of self.now) cred.now a.now }
        ensures ready { IfOk result (λ plan. plan.is_same ≡ false → CanMove (nodes_of self.now.nodes) plan) }
    {
        let r = self.find_renaming(cred, a)?;
        self.need_other_room(&r)?;
        Ok(RenamePlan {
            from: r.from.place.fileid(),
            to: r.to.place.fileid(),
            fileid: r.source.place.fileid(),
            is_same: r.is_same_node(),
            reparents: r.reparents(),
            replaced: r.replaced(),
        })
    }

    // ---- the edit

    /// What has the new name goes, as by REMOVE or RMDIR.
    fn replace(&mut self, to: u64, name: &[u8], replaced: Option<Replaced>, now: Moment)
        ensures { tree_of self.new ≡ table.replace now to name.now replaced (tree_of self.old) }
    {
        if let Some(r) = replaced {
            if r.is_directory {
                self.drop_directory(to, name, r.fileid, now);
            } else {
                self.remove_file(to, name, r.fileid, now);
            }
        }
    }

    /// A moved directory leaves its parent's links and joins the other's.
    #[tactic(auto, unfolding(fs_rules::specs::Edits::edit_node))]
    fn relink(&mut self, plan: &RenamePlan)
        requires { plan.now.reparents ≡ true → IfSome (nodes_of self.old.nodes plan.now.to) (λ n. HasLink n.inode) }
        ensures { tree_of self.new ≡ table.relink plan.now (tree_of self.old) }
    {
        if plan.reparents {
            self.nodes.drop_link(plan.from);
            self.nodes.add_link(plan.to);
        }
    }

    /// The node moves; or it answers `NoMemory`, and the tree is as it was.
    #[tactic(auto, unfolding(fs_rules::specs::Renaming::move_node, fs_rules::specs::Edits::edit_node))]
    fn move_node(
        &mut self,
        alloc: Global,
        a: &RenameArgs<Text>,
        plan: &RenamePlan,
        now: Moment,
    ) -> Result<(), NoMemory>
        requires { CanMove (nodes_of self.old.nodes) plan.now }
        ensures ok { OnOk result (tree_of self.new ≡ table.move_node now a.now plan.now (tree_of self.old)) }
        ensures err { OnErr result (tree_of self.new ≡ tree_of self.old) }
    {
        let name = Text::from_slice(alloc, a.to.name.as_slice())?;
        let room = self.nodes.room_for_name(alloc, plan.to)?;
        self.replace(plan.to, a.to.name.as_slice(), plan.replaced, now);
        self.relink(plan);
        self.nodes.drop_name(plan.from, a.from.name.as_slice(), now);
        self.nodes.take_name(plan.to, room, name, plan.fileid, now);
        self.nodes.renew(plan, now);
        Ok(())
    }

    /// RENAME.
    #[tactic(auto, unfolding(fs_rules::specs::Renaming::rename))]
    pub(crate) fn rename(
        &mut self,
        alloc: Global,
        cred: &Cred,
        a: &RenameArgs<Text>,
        now: Moment,
    ) -> Result<Body, Fault>
        ensures { DoesOwn (table.rename (tree_of self.old) cred.now a.now now) (tree_of self.old) (tree_of self.new) result }
    {
        let plan = self.rename_plan(cred, a)?;
        let from = self.shown(Place::Live(plan.from));
        let to = self.shown(Place::Live(plan.to));
        if !plan.is_same {
            self.move_node(alloc, a, &plan, now)?;
        }
        Ok(Body::Rename(RenameOk {
            from: wcc_of(from, self.shown(Place::Live(plan.from))),
            to: wcc_of(to, self.shown(Place::Live(plan.to))),
        }))
    }
}
