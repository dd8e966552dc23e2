//! How many nodes the live tree has, and how many bytes its files hold.

ghost use Rattle.std.specs.Prelude.{◌≡◌, ℕ, List, length};
ghost use Rattle.plain_nodes.specs.Counts.{IsListed, Lists, bytes_at};

use crate::plain::Plain;

impl Plain {
    ghost use Rattle.plain_tree.specs.Trees.{tree_of};

    /// How many nodes the live tree has: the root is one, and `.snapshot` is none.
    pub fn node_count(&self) -> u64
        ensures nodes { (ids : List ℕ) → Lists (tree_of self.now).nodes ids → result ≡ length ids }
        ensures listed { IsListed (tree_of self.now).nodes }
    {
        self.nodes.node_count()
    }

    /// How many bytes the files of the live tree hold, which is the sum of their sizes.
    pub fn byte_count(&self) -> u128
        ensures bytes { (ids : List ℕ) → Lists (tree_of self.now).nodes ids → result ≡ bytes_at (tree_of self.now).nodes ids }
        ensures listed { IsListed (tree_of self.now).nodes }
    {
        self.nodes.byte_count()
    }
}
