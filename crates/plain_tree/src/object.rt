//! What was found, and what is told of it.

ghost use Rattle.std.specs.Prelude.{◌≡◌, IfOk};
ghost use Rattle.fs_rules.specs.Places as places;
ghost use Rattle.fs_rules.specs.Places.{fsid_at, handle_at, object_by, shown};

use crate::plain::Plain;
use fs_rules::{Inode, Place};
use nfs3_types::{Fattr, Handle, NoMemory, Text};
use plain_nodes::Node;
use std::alloc::Global;
use std::marker::Model;

/// What was found: where, its inode, and the length of its content.
#[derive(Drop)]
pub struct Object {
    /// Where it stands.
    pub place: Place,
    /// Its inode.
    pub inode: Inode,
    /// How many bytes it holds.
    pub size: u64,
}

impl Model for Object {
    ghost use Rattle.std.specs.Prelude.{◌<◌, ◌^◌};
    ghost use Rattle.fs_rules.specs.Places.{Object};
    ghost use Rattle.plain_tree.specs.Needs.{kept_number};

    ghost Value = { Object };

    ghost view = { λ o. record {
      place = o.place;
      inode = o.inode;
      size = o.size;
    } };

    ghost invariant = { λ o. kept_number o.place < 2 ^ 63 };
}

impl Object {
    /// How many links it has.
    pub fn nlink(&self) -> u32
        ensures { result ≡ self.now.inode.nlink }
    {
        self.inode.nlink
    }
}

impl Plain {
    ghost use Rattle.plain_tree.specs.Trees.{tree_of};

    /// What stands at a place.
    #[tactic(auto, unfolding(fs_rules::specs::Places::object_at, fs_rules::specs::Places::node_at, fs_rules::specs::Places::snapshot_numbered, fs_rules::specs::Places::snapshot_directory))]
    pub(crate) fn object_at(&self, place: Place) -> Option<Object>
        ensures { result ≡ places.object_at (tree_of self.now) place }
    {
        match place {
            Place::Live(fileid) => match self.nodes.get(fileid) {
                Some(node) => Some(Object {
                    place,
                    inode: node.inode,
                    size: node.content.len(),
                }),
                None => None,
            },
            Place::SnapshotDirectory => Some(Object {
                place,
                inode: self.snapshot_inode(),
                size: 0,
            }),
            Place::Kept(number, fileid) => match self.kept_node(number, fileid) {
                Some(node) => Some(Object {
                    place,
                    inode: node.inode,
                    size: node.content.len(),
                }),
                None => None,
            },
        }
    }

    /// The file system of the attributes of what was found.
    fn fsid_at(&self, o: &Object) -> u64
        ensures { result ≡ fsid_at (tree_of self.now) o.now.place }
    {
        match o.place {
            Place::Live(_) => self.fsid,
            Place::SnapshotDirectory => self.fsid,
            Place::Kept(number, _) => self.fsid + number,
        }
    }

    /// The attributes of what was found.
    #[tactic(auto, unfolding(fs_rules::specs::Places::attributes))]
    pub(crate) fn attributes(&self, o: &Object) -> Fattr
        ensures { result ≡ places.attributes (tree_of self.now) o.now }
    {
        o.inode
            .attributes(self.fsid_at(o), o.place.fileid(), o.size)
    }

    /// The attributes at a place.
    #[tactic(auto, unfolding(fs_rules::specs::Places::shown))]
    pub(crate) fn shown(&self, place: Place) -> Option<Fattr>
        ensures { result ≡ shown (tree_of self.now) place }
    {
        match self.object_at(place) {
            Some(o) => Some(self.attributes(&o)),
            None => None,
        }
    }

    /// The handle of a place, or `NoMemory`.
    #[tactic(auto, unfolding(fs_rules::specs::Places::handle_at))]
    pub(crate) fn handle_at(&self, alloc: Global, place: Place) -> Result<Text, NoMemory>
        ensures { IfOk result (λ handle. handle ≡ handle_at (tree_of self.now) place) }
    {
        let handle = Handle {
            fsid: self.fsid,
            snapshot: place.snapshot(),
            fileid: place.fileid(),
        };
        Text::from_slice(alloc, &handle.spell())
    }
}
