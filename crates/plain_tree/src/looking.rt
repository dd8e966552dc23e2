//! Where the names of a directory lead: LOOKUP.

ghost use Rattle.std.specs.Option.{option_copied};
ghost use Rattle.std.specs.Prelude.{◌≡◌, option_map, true};
ghost use Rattle.fs_rules.specs.Checks.{is_live};
ghost use Rattle.fs_rules.specs.Looking as table;
ghost use Rattle.fs_rules.specs.Names.{is_dot, is_dot_dot};
ghost use Rattle.fs_rules.specs.Places.{above, beside, entry_at, is_snapshots_name, place_named};
ghost use Rattle.fs_rules.specs.Removing as removing;
ghost use Rattle.plain_tree.specs.Giving.{GivesOwn};

use crate::checks::{need_directory, need_search};
use crate::fault::Fault;
use crate::object::Object;
use crate::plain::Plain;
use crate::snapshots::snapshot_named;
use fs_rules::checks::{is_dot, is_dot_dot, is_snapshots_name, need_good_name};
use fs_rules::{Inode, NameEntry, Place};
use nfs3_types::{Body, Cred, DirOp, LookupOk, Status, Text};
use std::alloc::Global;

/// The directory above: the root is above itself, `.snapshot` above a snapshot's root, and the root above it.
pub fn above(place: Place, i: &Inode) -> Place
    ensures { result ≡ above place i.now }
{
    match place {
        Place::Live(_) => Place::Live(i.parent),
        Place::SnapshotDirectory => Place::Live(1),
        Place::Kept(number, fileid) => {
            if fileid == 1 {
                Place::SnapshotDirectory
            } else {
                Place::Kept(number, i.parent)
            }
        }
    }
}

/// Where an entry of a directory leads: one of `.snapshot` to the snapshot's root.
pub fn beside(directory: Place, e: &NameEntry) -> Place
    ensures { result ≡ beside directory e.now }
{
    match directory {
        Place::Live(_) => Place::Live(e.fileid),
        Place::SnapshotDirectory => Place::Kept(e.fileid, 1),
        Place::Kept(number, _) => Place::Kept(number, e.fileid),
    }
}

impl Plain {
    ghost use Rattle.plain_tree.specs.Trees.{tree_of};

    /// The entry of a name in a directory of the live tree.
    #[tactic(auto, unfolding(fs_rules::specs::Places::entry_at, fs_rules::specs::Places::node_at, fs_rules::specs::Names::named))]
    pub(crate) fn entry_at(&self, directory: Place, name: &[u8]) -> Option<&NameEntry>
        requires { is_live directory ≡ true }
        ensures { option_copied result ≡ entry_at (tree_of self.now) directory name.now }
    {
        match directory {
            Place::Live(fileid) => match self.nodes.get(fileid) {
                Some(node) => node.named(name),
                None => None,
            },
            Place::SnapshotDirectory => None,
            Place::Kept(_, _) => None,
        }
    }

    /// Where the entry of a name leads, in any directory.
    #[tactic(auto, unfolding(fs_rules::specs::Places::entry_at, fs_rules::specs::Places::node_at, fs_rules::specs::Places::snapshot_directory, fs_rules::specs::Names::named))]
    fn place_by_entry(&self, directory: Place, name: &[u8]) -> Option<Place>
        ensures { result ≡ option_map (beside directory) (entry_at (tree_of self.now) directory name.now) }
    {
        match directory {
            Place::Live(fileid) => match self.nodes.get(fileid) {
                Some(node) => node.named(name).map(|e| beside(directory, e)),
                None => None,
            },
            Place::SnapshotDirectory => match snapshot_named(&self.snapshots, name) {
                Some(snapshot) => Some(Place::Kept(snapshot.number, 1)),
                None => None,
            },
            Place::Kept(number, fileid) => match self.kept_node(number, fileid) {
                Some(node) => node.named(name).map(|e| beside(directory, e)),
                None => None,
            },
        }
    }

    /// Where a name leads: `.` and `..` are names too, and so is `.snapshot` in the live root.
    #[tactic(auto, unfolding(fs_rules::specs::Places::place_named))]
    fn place_named(&self, directory: &Object, name: &[u8]) -> Option<Place>
        ensures { result ≡ place_named (tree_of self.now) directory.now name.now }
    {
        if is_dot(name) {
            Some(directory.place)
        } else if is_dot_dot(name) {
            Some(above(directory.place, &directory.inode))
        } else if is_snapshots_name(directory.place, name) {
            Some(Place::SnapshotDirectory)
        } else {
            self.place_by_entry(directory.place, name)
        }
    }

    /// Whether a directory has names.
    #[tactic(auto, unfolding(fs_rules::specs::Places::node_at, fs_rules::specs::Places::snapshot_directory))]
    pub(crate) fn has_names(&self, place: Place) -> bool
        ensures { result ≡ removing.has_names (tree_of self.now) place }
    {
        match place {
            Place::Live(fileid) => match self.nodes.get(fileid) {
                Some(node) => node.has_names(),
                None => false,
            },
            Place::SnapshotDirectory => !self.snapshots.is_empty(),
            Place::Kept(number, fileid) => match self.kept_node(number, fileid) {
                Some(node) => node.has_names(),
                None => false,
            },
        }
    }

    /// LOOKUP.
    #[tactic(auto, unfolding(fs_rules::specs::Looking::lookup))]
    pub(crate) fn lookup(&self, alloc: Global, cred: &Cred, a: &DirOp<Text>) -> Result<Body, Fault>
        ensures { GivesOwn (table.lookup (tree_of self.now) cred.now a.now) result }
    {
        let directory = self.find_object(a.directory.as_slice())?;
        need_directory(&directory)?;
        need_good_name(a.name.as_slice())?;
        need_search(cred, &directory)?;
        let Some(place) = self.place_named(&directory, a.name.as_slice()) else {
            return Err(Fault::Refused(Status::NoEnt));
        };
        let Some(o) = self.object_at(place) else {
            return Err(Fault::Refused(Status::NoEnt));
        };
        Ok(Body::Lookup(LookupOk {
            object: self.handle_at(alloc, o.place)?,
            attributes: Some(self.attributes(&o)),
            directory: Some(self.attributes(&directory)),
        }))
    }
}
