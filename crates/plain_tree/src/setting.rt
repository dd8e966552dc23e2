//! SETATTR.

ghost use Rattle.std.specs.Prelude.{◌≡◌, not, IfOk, IfSome};
ghost use Rattle.fs_rules.specs.Attributes.{given};
ghost use Rattle.fs_rules.specs.Checks.{Does};
ghost use Rattle.fs_rules.specs.Setting as table;
ghost use Rattle.plain_nodes.specs.Needs.{HasCuts};
ghost use Rattle.plain_nodes.specs.Nodes.{nodes_of};
ghost use Rattle.fs_rules.specs.Setting.{is_same};

use crate::checks::need_live;
use crate::object::Object;
use crate::plain::Plain;
use fs_rules::checks::{no_fault, refuse_if};
use fs_rules::limits::MOST_NUMBERS;
use fs_rules::{Place, SetAttrPlan, apply_sattr, sattr_fault, wcc_of};
use nfs3_types::{Body, Cred, Moment, SetAttrArgs, Status, Text};

/// Whether the guard is another time than this.
fn is_guarded(guard: Option<Moment>, time: Moment) -> bool
    ensures { result ≡ given guard (λ guard. not (is_same guard time)) }
{
    match guard {
        Some(guard) => guard != time,
        None => false,
    }
}

/// Whether a size that is given is a cut of the file, and one too many.
#[tactic(auto, unfolding(fs_rules::specs::Limits::most_numbers))]
pub fn lacks_cuts(size: Option<u64>, o: &Object) -> bool
    ensures { result ≡ table.lacks_cuts size o.now }
{
    match size {
        Some(size) => size < o.size && o.inode.cuts >= MOST_NUMBERS - 1,
        None => false,
    }
}

impl Plain {
    ghost use Rattle.plain_tree.specs.Trees.{tree_of};

    /// What SETATTR is going to do.
    #[tactic(auto, unfolding(fs_rules::specs::Setting::set_attr_plan))]
    fn set_attr_plan(
        &self,
        cred: &Cred,
        a: &SetAttrArgs<Text>,
        now: Moment,
    ) -> Result<SetAttrPlan, Status>
        ensures check { result ≡ table.set_attr_plan (tree_of self.now) cred.now a.now now }
        ensures cuts { IfOk result (λ plan. IfSome (nodes_of self.now.nodes plan.fileid) (HasCuts a.now.attributes.size)) }
    {
        let o = self.find_object(a.object.as_slice())?;
        need_live(&o)?;
        refuse_if(is_guarded(a.guard, o.inode.ctime), Status::NotSync)?;
        let attributes = self.attributes(&o);
        no_fault(sattr_fault(cred, &attributes, &a.attributes))?;
        refuse_if(lacks_cuts(a.attributes.size, &o), Status::NoSpc)?;
        Ok(SetAttrPlan {
            fileid: o.place.fileid(),
            attributes: apply_sattr(&attributes, &a.attributes, now),
        })
    }

    /// SETATTR. It takes no memory.
    #[tactic(auto, unfolding(fs_rules::specs::Setting::set_attr, fs_rules::specs::Edits::edit_node))]
    pub(crate) fn set_attr(
        &mut self,
        cred: &Cred,
        a: &SetAttrArgs<Text>,
        now: Moment,
    ) -> Result<Body, Status>
        ensures { Does (table.set_attr (tree_of self.old) cred.now a.now now) (tree_of self.old) (tree_of self.new) result }
    {
        let plan = self.set_attr_plan(cred, a, now)?;
        let place = Place::Live(plan.fileid);
        let before = self.shown(place);
        self.nodes
            .set(plan.fileid, &plan.attributes, a.attributes.size);
        Ok(Body::SetAttr(wcc_of(before, self.shown(place))))
    }
}
