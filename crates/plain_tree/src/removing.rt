//! REMOVE, and RMDIR outside of `.snapshot`. They take no memory.

ghost use Rattle.std.specs.Prelude.{◌≡◌, true};
ghost use Rattle.fs_rules.specs.Checks.{Does, is_live};
ghost use Rattle.fs_rules.specs.Removing as table;

use crate::checks::need_place_for;
use crate::object::Object;
use crate::plain::Plain;
use fs_rules::checks::{
    is_directory, is_dot, is_dot_dot, is_dots, is_snapshots_name, may_alter, need, refuse_if,
};
use fs_rules::{Place, RemovePlan, wcc_of};
use nfs3_types::{Body, Cred, DirOp, Moment, Status, Text};

impl Plain {
    ghost use Rattle.plain_tree.specs.Trees.{tree_of};

    /// What a name leads to, where the caller may take the name away.
    #[tactic(auto, unfolding(fs_rules::specs::Removing::find_removable))]
    fn find_removable(&self, cred: &Cred, directory: &Object, name: &[u8]) -> Result<Object, Status>
        requires { is_live directory.now.place ≡ true }
        ensures { result ≡ table.find_removable (tree_of self.now) cred.now directory.now name.now }
    {
        refuse_if(is_snapshots_name(directory.place, name), Status::Acces)?;
        need(may_alter(cred, &directory.inode), Status::Acces)?;
        let Some(e) = self.entry_at(directory.place, name) else {
            return Err(Status::NoEnt);
        };
        match self.object_at(Place::Live(e.fileid)) {
            Some(o) => Ok(o),
            None => Err(Status::NoEnt),
        }
    }

    /// What REMOVE is going to do.
    #[tactic(auto, unfolding(fs_rules::specs::Removing::remove_plan))]
    fn remove_plan(&self, cred: &Cred, a: &DirOp<Text>) -> Result<RemovePlan, Status>
        ensures { result ≡ table.remove_plan (tree_of self.now) cred.now a.now }
    {
        let name = a.name.as_slice();
        let directory = self.find_directory(a)?;
        refuse_if(is_dots(name), Status::Inval)?;
        let o = self.find_removable(cred, &directory, name)?;
        refuse_if(is_directory(o.inode.kind), Status::IsDir)?;
        Ok(RemovePlan {
            directory: directory.place.fileid(),
            fileid: o.place.fileid(),
        })
    }

    /// The name of a file goes.
    #[tactic(auto, unfolding(fs_rules::specs::Removing::remove_file, fs_rules::specs::Removing::lose_name, fs_rules::specs::Edits::edit_node))]
    pub(crate) fn remove_file(&mut self, directory: u64, name: &[u8], fileid: u64, now: Moment)
        ensures { tree_of self.new ≡ table.remove_file now directory name.now fileid (tree_of self.old) }
    {
        self.nodes.lose_link(fileid, now);
        self.nodes.drop_name(directory, name, now);
    }

    /// REMOVE.
    #[tactic(auto, unfolding(fs_rules::specs::Removing::remove))]
    pub(crate) fn remove(
        &mut self,
        cred: &Cred,
        a: &DirOp<Text>,
        now: Moment,
    ) -> Result<Body, Status>
        ensures { Does (table.remove (tree_of self.old) cred.now a.now now) (tree_of self.old) (tree_of self.new) result }
    {
        let plan = self.remove_plan(cred, a)?;
        let place = Place::Live(plan.directory);
        let before = self.shown(place);
        self.remove_file(plan.directory, a.name.as_slice(), plan.fileid, now);
        Ok(Body::Remove(wcc_of(before, self.shown(place))))
    }

    /// What RMDIR is going to do.
    #[tactic(auto, unfolding(fs_rules::specs::Removing::remove_directory_plan))]
    fn remove_directory_plan(
        &self,
        cred: &Cred,
        name: &[u8],
        directory: &Object,
    ) -> Result<RemovePlan, Status>
        ensures { result ≡ table.remove_directory_plan (tree_of self.now) cred.now name.now directory.now }
    {
        need_place_for(directory, name)?;
        refuse_if(is_dot(name), Status::Inval)?;
        refuse_if(is_dot_dot(name), Status::Exist)?;
        let o = self.find_removable(cred, directory, name)?;
        need(is_directory(o.inode.kind), Status::NotDir)?;
        refuse_if(self.has_names(o.place), Status::NotEmpty)?;
        Ok(RemovePlan {
            directory: directory.place.fileid(),
            fileid: o.place.fileid(),
        })
    }

    /// An empty directory and its name go.
    #[tactic(auto, unfolding(fs_rules::specs::Removing::drop_directory, fs_rules::specs::Edits::edit_node, fs_rules::specs::Edits::drop_node))]
    pub(crate) fn drop_directory(&mut self, directory: u64, name: &[u8], fileid: u64, now: Moment)
        ensures { tree_of self.new ≡ table.drop_directory now directory name.now fileid (tree_of self.old) }
    {
        self.nodes.remove(fileid);
        self.nodes.drop_subdirectory(directory, name, now);
    }

    /// RMDIR outside of `.snapshot`, once its directory is found.
    #[tactic(auto, unfolding(fs_rules::specs::Removing::remove_directory))]
    pub(crate) fn remove_directory(
        &mut self,
        cred: &Cred,
        name: &[u8],
        now: Moment,
        directory: &Object,
    ) -> Result<Body, Status>
        ensures { Does (table.remove_directory (tree_of self.old) cred.now name.now now directory.now) (tree_of self.old)
            (tree_of self.new) result }
    {
        let plan = self.remove_directory_plan(cred, name, directory)?;
        let place = Place::Live(plan.directory);
        let before = self.shown(place);
        self.drop_directory(plan.directory, name, plan.fileid, now);
        Ok(Body::Rmdir(wcc_of(before, self.shown(place))))
    }
}
