//! What answers calls.

ghost use Rattle.std.specs.Prelude.{◌≡◌, ◌≤◌, IfOk, OnOk, OnErr};
ghost use Rattle.nfs3_fits.specs.declared.laws.TheConstants.{LONGEST_REPLY};
ghost use Rattle.nfs3_res.specs.Spelled.{IsSpelled};
ghost use Rattle.nfs3_types.specs.Replies.{outcome_of, result_of};
ghost use Rattle.service.specs.Turns.{Answering};
ghost use Rattle.fs_rules.specs.Tree.{Tree as PlainTree};

use nfs3_types::{Cred, Moment, NoMemory, OwnCall, Reply};
use std::alloc::Global;

/// A tree that answers calls.
pub trait Tree {
    /// What is answered to a call, and which tree it leaves, as a table over plain trees.
    ghost answering: { Answering PlainTree };

    /// The plain tree that it is.
    ghost plain: { Self → PlainTree };

    /// Answers a call, and takes what it changes into the tree. At `NoMemory` the tree is as it was.
    fn answer(
        &mut self,
        alloc: Global,
        cred: &Cred,
        call: &OwnCall,
        moment: Moment,
    ) -> Result<Reply, NoMemory>
        ensures ok { IfOk result (λ reply. reply ≡ answering.answer (plain self.old) cred.now call.now moment) }
        ensures spelled { IfOk result (λ reply. IsSpelled reply) }
        ensures short { IfOk result (λ reply. (result_of reply.procedure).size (outcome_of reply) ≤ LONGEST_REPLY) }
        ensures next { OnOk result (plain self.new ≡ answering.after (plain self.old) cred.now call.now moment) }
        ensures err { OnErr result (plain self.new ≡ plain self.old) };
}
