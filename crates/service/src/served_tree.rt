//! The tree that is served.

ghost use Rattle.std.specs.Prelude.{◌≡◌, IfOk};
ghost use Rattle.fs_rules.specs.Sound.{IsSound};
ghost use Rattle.plain_tree.specs.Trees.{tree_of};
ghost use Rattle.service.specs.Served.{answering, made_at, not_begun};

use crate::tree::Tree;
use fs_laws::replies_have_shape;
use fs_sound::{calls_keep_trees_sound, first_tree_is_sound};
use nfs3_fits::{replies_are_short, spelled};
use nfs3_types::{Cred, Moment, NoMemory, OwnCall, Reply};
use plain_tree::Plain;
use std::alloc::Global;

/// The file system that is exported.
pub const FSID: u64 = 1 << 32;

/// What tells a client that nothing that it wrote was lost.
const VERIFIER: [u8; 8] = *b"fss\0\0\0\0\x01";

/// The lane of the numbers of new files.
const LANE: u32 = 0;

/// The plain tree, and that it is sound. It answers every call.
#[derive(Drop)]
pub struct ServedTree {
    tree: Plain,
    ghost sound: { ∥ IsSound (tree_of tree) ∥₁ },
}

impl ServedTree {
    /// The tree before it begins, or `NoMemory`.
    pub fn new(alloc: Global) -> Result<ServedTree, NoMemory>
        ensures { IfOk result (λ served. tree_of served.tree ≡ not_begun) }
    {
        first_tree_is_sound();
        let first = Moment {
            seconds: 0,
            nanos: 0,
        };
        Ok(ServedTree {
            tree: Plain::new(alloc, FSID, VERIFIER, first)?,
        })
    }

    /// The tree begins at this moment. It takes no memory.
    pub fn begin(&mut self, first: Moment)
        requires { tree_of self.old.tree ≡ not_begun }
        ensures { tree_of self.new.tree ≡ made_at first }
    {
        first_tree_is_sound();
        self.tree.begin(first);
    }
}

impl Tree for ServedTree {
    ghost answering = { answering };

    ghost plain = { λ served. tree_of served.tree };

    #[tactic(auto, unfolding(crate::specs::Served::answer_in_lane, crate::specs::Served::after_in_lane))]
    fn answer(
        &mut self,
        alloc: Global,
        cred: &Cred,
        call: &OwnCall,
        moment: Moment,
    ) -> Result<Reply, NoMemory> {
        replies_have_shape();
        calls_keep_trees_sound();
        let reply = self.tree.answer(alloc, cred, call, moment, LANE)?;
        spelled(&reply);
        replies_are_short();
        Ok(reply)
    }
}
