//! All nodes of a tree, by their numbers.

ghost use Rattle.std.specs.BTreeMap.{get};
ghost use Rattle.std.specs.Option.{option_copied};
ghost use Rattle.std.specs.Ordering.{nat_cmp};
ghost use Rattle.std.specs.Prelude.{◌≡◌, ℕ, List, ◌+◌, ◌^◌, ◌<◌, ◌≤◌, nat_lt, false, Some, None, IfOk, IfSome, IsSome, OnOk};
ghost use Rattle.std.specs.Prelude.{OnErr, length, option_and_then, vec_len, vec_capacity};
ghost use Rattle.fs_rules.specs.Edits.{add_link, add_name, drop_link, drop_name, set_attributes, set_ctime, set_size_if, touch};
ghost use Rattle.fs_rules.specs.Edits.{with_node, write_at};
ghost use Rattle.fs_rules.specs.Making.{gain_name, give_size, lacks_cookies, lacks_links};
ghost use Rattle.fs_rules.specs.Removing.{lose_link};
ghost use Rattle.fs_rules.specs.Renaming.{parent_of, renew};
ghost use Rattle.plain_nodes.specs.Counts.{IsListed, Lists, bytes_at};
ghost use Rattle.plain_nodes.specs.Needs.{HasCuts, HasLink, HasRoom};
ghost use Rattle.plain_nodes.specs.Nodes.{edited};
ghost use Rattle.plain_nodes.specs.Starting.{begun};

use crate::node::Node;
use fs_rules::{NameEntry, RenamePlan};
use nfs3_types::{Fattr, FileType, Moment, NoMemory, Text};
use std::alloc::Global;
use std::collections::BTreeMap;

/// Nodes by their numbers.
#[derive(Drop)]
pub struct Nodes {
    map: BTreeMap<u64, Node>,
}

impl Nodes {
    ghost use Rattle.plain_nodes.specs.Nodes.{nodes_of};

    /// No nodes. It takes no memory.
    pub fn new(alloc: Global) -> Nodes
        ensures { nodes_of result ≡ (λ fileid. None) }
    {
        Nodes {
            map: BTreeMap::new(alloc),
        }
    }

    /// The node of this number.
    pub fn get(&self, fileid: u64) -> Option<&Node>
        ensures { option_copied result ≡ nodes_of self.now fileid }
    {
        self.map.get(&fileid)
    }

    /// How many nodes there are.
    #[tactic(auto, using(crate::proofs::Counting::nodes_counted))]
    pub fn node_count(&self) -> u64
        ensures nodes { (ids : List ℕ) → Lists (nodes_of self.now) ids → result ≡ length ids }
        ensures listed { IsListed (nodes_of self.now) }
    {
        self.map.len() as u64
    }

    /// How many bytes the files hold.
    pub fn byte_count(&self) -> u128
        ensures bytes { (ids : List ℕ) → Lists (nodes_of self.now) ids → result ≡ bytes_at (nodes_of self.now) ids }
        ensures listed { IsListed (nodes_of self.now) }
    {
        let mut count = 0;
        for (_, node) in &self.map {
            count += node.byte_count() as u128;
        }
        count
    }

    /// Puts a node in, in place of the one that has its number; or answers `NoMemory`, only where none has it,
    /// and leaves the nodes as they were.
    #[tactic(auto, unfolding(fs_rules::specs::Edits::with_node))]
    pub fn insert(&mut self, fileid: u64, node: Node) -> Result<(), NoMemory>
        ensures ok { OnOk result (nodes_of self.new ≡ with_node fileid (Some node) (nodes_of self.old)) }
        ensures absent { OnErr result (nodes_of self.old fileid ≡ None) }
        ensures err { OnErr result (nodes_of self.new ≡ nodes_of self.old) }
    {
        let Ok(_) = self.map.insert(fileid, node) else {
            return Err(NoMemory);
        };
        Ok(())
    }

    /// Takes a node out.
    #[tactic(auto, unfolding(fs_rules::specs::Edits::with_node))]
    pub fn remove(&mut self, fileid: u64)
        ensures { nodes_of self.new ≡ with_node fileid None (nodes_of self.old) }
    {
        self.map.remove(&fileid);
    }

    /// Puts a node in, and gives the one that had its number; or answers `NoMemory`, and leaves the nodes as they
    /// were.
    #[tactic(auto, unfolding(fs_rules::specs::Edits::with_node))]
    fn replace(&mut self, fileid: u64, node: Node) -> Result<Option<Node>, NoMemory>
        ensures ok { OnOk result (nodes_of self.new ≡ with_node fileid (Some node) (nodes_of self.old)) }
        ensures given { IfOk result (λ earlier. earlier ≡ nodes_of self.old fileid) }
        ensures err { OnErr result (nodes_of self.new ≡ nodes_of self.old) }
    {
        let Ok(earlier) = self.map.insert(fileid, node) else {
            return Err(NoMemory);
        };
        Ok(earlier)
    }

    /// Puts a node back in place of another one, or none. It takes no memory.
    #[tactic(auto, unfolding(fs_rules::specs::Edits::with_node))]
    fn put_back(&mut self, fileid: u64, earlier: Option<Node>)
        requires { IsSome (nodes_of self.old fileid) }
        ensures { nodes_of self.new ≡ with_node fileid earlier (nodes_of self.old) }
    {
        match earlier {
            Some(node) => {
                let Ok(()) = self.insert(fileid, node) else {
                    return;
                };
            }
            None => self.remove(fileid),
        }
    }

    // ---- edits of one node

    /// A node begins at this moment. It takes no memory.
    #[tactic(auto, unfolding(fs_rules::specs::Edits::with_node))]
    pub fn begin(&mut self, fileid: u64, first: Moment)
        ensures { nodes_of self.new ≡ edited fileid (begun first) (nodes_of self.old) }
    {
        if let Some(node) = self.map.get_mut(&fileid) {
            node.begin(first);
        }
    }

    /// Sets the attributes of a node to these, and its size, where one is given. It takes no memory.
    #[tactic(auto, unfolding(fs_rules::specs::Edits::with_node))]
    pub fn set(&mut self, fileid: u64, a: &Fattr, size: Option<u64>)
        requires { IfSome (nodes_of self.old fileid) (HasCuts size) }
        ensures { nodes_of self.new ≡ edited fileid (λ n. set_attributes a.now (set_size_if size n)) (nodes_of self.old) }
    {
        if let Some(node) = self.map.get_mut(&fileid) {
            node.set(a, size);
        }
    }

    /// A file that is made again gets a size, where one is given. It takes no memory.
    #[tactic(auto, unfolding(fs_rules::specs::Edits::with_node))]
    pub fn give_size(&mut self, fileid: u64, size: Option<u64>, now: Moment)
        requires { IfSome (nodes_of self.old fileid) (HasCuts size) }
        ensures { nodes_of self.new ≡ edited fileid (give_size size now) (nodes_of self.old) }
    {
        if let Some(node) = self.map.get_mut(&fileid) {
            node.give_size(size, now);
        }
    }

    /// Writes bytes at an offset of a node; or answers `NoMemory`, and leaves the nodes as they were.
    #[tactic(auto, unfolding(fs_rules::specs::Edits::with_node))]
    pub fn write(
        &mut self,
        alloc: Global,
        fileid: u64,
        offset: u64,
        bytes: &[u8],
        now: Moment,
    ) -> Result<(), NoMemory>
        requires { offset + length bytes.now < 2 ^ 64 }
        ensures ok { OnOk result (nodes_of self.new ≡ edited fileid (write_at offset bytes.now now) (nodes_of self.old)) }
        ensures err { OnErr result (nodes_of self.new ≡ nodes_of self.old) }
    {
        match self.map.get_mut(&fileid) {
            Some(node) => node.write(alloc, offset, bytes, now),
            None => Ok(()),
        }
    }

    /// A file has one link more.
    #[tactic(auto, unfolding(fs_rules::specs::Edits::with_node))]
    pub fn link(&mut self, fileid: u64, now: Moment)
        requires { IfSome (nodes_of self.old fileid) (λ n. HasLink n.inode) }
        ensures { nodes_of self.new ≡ edited fileid (λ n. set_ctime now (add_link n)) (nodes_of self.old) }
    {
        if let Some(node) = self.map.get_mut(&fileid) {
            node.add_link();
            node.set_ctime(now);
        }
    }

    /// A node has one link less.
    #[tactic(auto, unfolding(fs_rules::specs::Edits::with_node))]
    fn unlink(&mut self, fileid: u64, now: Moment)
        ensures { nodes_of self.new ≡ edited fileid (λ n. set_ctime now (drop_link n)) (nodes_of self.old) }
    {
        if let Some(node) = self.map.get_mut(&fileid) {
            node.drop_link();
            node.set_ctime(now);
        }
    }

    /// Whether a file that loses a name has another one.
    fn stays(&self, fileid: u64) -> bool
        ensures { IfSome (nodes_of self.now fileid) (λ n. nat_lt 1 n.inode.nlink ≡ result) }
    {
        match self.map.get(&fileid) {
            Some(node) => node.inode.nlink > 1,
            None => false,
        }
    }

    /// A file has one link less, and goes with its last.
    #[tactic(auto, unfolding(fs_rules::specs::Edits::with_node))]
    pub fn lose_link(&mut self, fileid: u64, now: Moment)
        ensures { nodes_of self.new ≡ with_node fileid (option_and_then (lose_link now) (nodes_of self.old fileid))
            (nodes_of self.old) }
    {
        if self.stays(fileid) {
            self.unlink(fileid, now);
        } else {
            self.remove(fileid);
        }
    }

    /// A directory has one link more.
    #[tactic(auto, unfolding(fs_rules::specs::Edits::with_node))]
    pub fn add_link(&mut self, directory: u64)
        requires { IfSome (nodes_of self.old directory) (λ n. HasLink n.inode) }
        ensures { nodes_of self.new ≡ edited directory add_link (nodes_of self.old) }
    {
        if let Some(node) = self.map.get_mut(&directory) {
            node.add_link();
        }
    }

    /// A directory has one link less.
    #[tactic(auto, unfolding(fs_rules::specs::Edits::with_node))]
    pub fn drop_link(&mut self, directory: u64)
        ensures { nodes_of self.new ≡ edited directory drop_link (nodes_of self.old) }
    {
        if let Some(node) = self.map.get_mut(&directory) {
            node.drop_link();
        }
    }

    /// A node was moved so.
    #[tactic(auto, unfolding(fs_rules::specs::Edits::with_node))]
    pub fn renew(&mut self, plan: &RenamePlan, now: Moment)
        ensures { nodes_of self.new ≡ edited plan.now.fileid (renew plan.now now) (nodes_of self.old) }
    {
        if let Some(node) = self.map.get_mut(&plan.fileid) {
            node.renew(plan, now);
        }
    }

    /// The directory above a directory; what is not there is above itself.
    pub fn parent_of(&self, fileid: u64) -> u64
        ensures { result ≡ parent_of (nodes_of self.now fileid) fileid }
    {
        match self.map.get(&fileid) {
            Some(node) => node.inode.parent,
            None => fileid,
        }
    }

    // ---- names of a directory

    /// A directory has a further name, and was touched; or it answers `NoMemory`, and the nodes are as they were.
    #[tactic(auto, unfolding(fs_rules::specs::Edits::with_node))]
    pub fn add_name(
        &mut self,
        alloc: Global,
        directory: u64,
        name: &[u8],
        fileid: u64,
        now: Moment,
    ) -> Result<(), NoMemory>
        requires { IfSome (nodes_of self.old directory) (λ n. lacks_cookies n.inode ≡ false) }
        ensures ok { OnOk result (nodes_of self.new ≡ edited directory (λ n. touch now (add_name name.now fileid n))
            (nodes_of self.old)) }
        ensures err { OnErr result (nodes_of self.new ≡ nodes_of self.old) }
    {
        match self.map.get_mut(&directory) {
            Some(node) => node.add_name(alloc, name, fileid, now),
            None => Ok(()),
        }
    }

    /// A directory has a further name, of a new node of this kind; or it answers `NoMemory`, and the nodes are as
    /// they were.
    #[tactic(auto, unfolding(fs_rules::specs::Edits::with_node))]
    fn gain_name(
        &mut self,
        alloc: Global,
        directory: u64,
        kind: FileType,
        name: &[u8],
        fileid: u64,
        now: Moment,
    ) -> Result<(), NoMemory>
        requires links { IfSome (nodes_of self.old directory) (λ n. lacks_links kind n.inode ≡ false) }
        requires cookies { IfSome (nodes_of self.old directory) (λ n. lacks_cookies n.inode ≡ false) }
        ensures ok { OnOk result (nodes_of self.new ≡ edited directory (gain_name kind name.now fileid now) (nodes_of self.old)) }
        ensures err { OnErr result (nodes_of self.new ≡ nodes_of self.old) }
    {
        if let Some(node) = self.map.get_mut(&directory) {
            node.gain_name(alloc, kind, name, fileid, now)?;
        }
        Ok(())
    }

    /// Puts a new node of this kind in, and then gives a directory its name; or answers `NoMemory`, and leaves the
    /// nodes as they were.
    pub fn add(
        &mut self,
        alloc: Global,
        fileid: u64,
        node: Node,
        directory: u64,
        kind: FileType,
        name: &[u8],
        now: Moment,
    ) -> Result<(), NoMemory>
        requires links { IfSome (nodes_of self.old directory) (λ n. lacks_links kind n.inode ≡ false) }
        requires cookies { IfSome (nodes_of self.old directory) (λ n. lacks_cookies n.inode ≡ false) }
        requires own_links { lacks_links kind node.inode ≡ false }
        requires own_cookies { lacks_cookies node.inode ≡ false }
        ensures ok { OnOk result (nodes_of self.new ≡ edited directory (gain_name kind name.now fileid now)
            (with_node fileid (Some node) (nodes_of self.old))) }
        ensures err { OnErr result (nodes_of self.new ≡ nodes_of self.old) }
    {
        let earlier = self.replace(fileid, node)?;
        let Ok(()) = self.gain_name(alloc, directory, kind, name, fileid, now) else {
            self.put_back(fileid, earlier);
            return Err(NoMemory);
        };
        Ok(())
    }

    /// A directory has no name that is this one, and was touched.
    #[tactic(auto, unfolding(fs_rules::specs::Edits::with_node))]
    pub fn drop_name(&mut self, directory: u64, name: &[u8], now: Moment)
        ensures { nodes_of self.new ≡ edited directory (λ n. touch now (drop_name name.now n)) (nodes_of self.old) }
    {
        if let Some(node) = self.map.get_mut(&directory) {
            node.drop_name(name, now);
        }
    }

    /// A directory has no name that is this one, and one link less, and was touched.
    #[tactic(auto, unfolding(fs_rules::specs::Edits::with_node))]
    pub fn drop_subdirectory(&mut self, directory: u64, name: &[u8], now: Moment)
        ensures { nodes_of self.new ≡ edited directory (λ n. touch now (drop_link (drop_name name.now n))) (nodes_of self.old) }
    {
        if let Some(node) = self.map.get_mut(&directory) {
            node.drop_name(name, now);
            node.drop_link();
        }
    }

    /// How many names a directory has.
    fn count_names(&self, directory: u64) -> usize
        ensures count { IfSome (nodes_of self.now directory) (λ n. length n.names ≡ result) }
        ensures few { result < 2 ^ 63 }
    {
        match self.map.get(&directory) {
            Some(node) => node.names.len(),
            None => 0,
        }
    }

    /// Room for the names of a directory and a further one, or `NoMemory`.
    pub fn room_for_name(&self, alloc: Global, directory: u64) -> Result<Vec<NameEntry>, NoMemory>
        ensures empty { IfOk result (λ room. vec_len room ≡ 0) }
        ensures enough { IfOk result (λ room. IfSome (nodes_of self.now directory)
            (λ n. length n.names + 1 ≤ vec_capacity room)) }
    {
        Ok(Vec::with_capacity(alloc, self.count_names(directory) + 1)?)
    }

    /// A directory has a further name, and was touched; its names lie in this room now. It takes no memory.
    #[tactic(auto, unfolding(fs_rules::specs::Edits::with_node))]
    pub fn take_name(
        &mut self,
        directory: u64,
        room: Vec<NameEntry>,
        name: Text,
        fileid: u64,
        now: Moment,
    )
        requires empty { vec_len room ≡ 0 }
        requires enough { IfSome (nodes_of self.old directory) (HasRoom (vec_capacity room)) }
        ensures { nodes_of self.new ≡ edited directory (λ n. touch now (add_name name fileid n)) (nodes_of self.old) }
    {
        if let Some(node) = self.map.get_mut(&directory) {
            node.take_name(room, name, fileid, now);
        }
    }

    /// Equal nodes, or `NoMemory`.
    pub fn copy(&self, alloc: Global) -> Result<Nodes, NoMemory>
        ensures { IfOk result (λ copy. nodes_of copy ≡ nodes_of self.now) }
    {
        Ok(Nodes {
            map: copy_map(alloc, &self.map)?,
        })
    }
}

/// An equal map, or `NoMemory`.
fn copy_map(alloc: Global, map: &BTreeMap<u64, Node>) -> Result<BTreeMap<u64, Node>, NoMemory>
    ensures { IfOk result (λ copy. (fileid : ℕ) → get nat_cmp copy fileid ≡ get nat_cmp map.now fileid) }
{
    let mut copy = BTreeMap::new(alloc);
    for (fileid, node) in map {
        let node = node.copy(alloc)?;
        let Ok(_) = copy.insert(*fileid, node) else {
            return Err(NoMemory);
        };
    }
    Ok(copy)
}
