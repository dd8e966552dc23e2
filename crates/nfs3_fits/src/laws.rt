//! How long replies are.

ghost use Rattle.std.specs.Prelude.{◌≤◌};
ghost use Rattle.nfs3_types.specs.declared.reply.Reply.{Reply};
ghost use Rattle.nfs3_types.specs.Replies.{result_of, outcome_of};
ghost use Rattle.nfs3_fits.specs.Shape.{HasShape};

/// No result of a reply of this service has more bytes. The longest are those of READDIRPLUS.
pub const LONGEST_REPLY: u32 = 44_000;

/// A reply of the shape that this service's replies have is spelled in at most [`LONGEST_REPLY`] bytes. So
/// whoever has as much room needs no memory to write any of them.
pub fn replies_are_short()
    ensures { (reply : Reply) → HasShape reply → (result_of reply.procedure).size (outcome_of reply) ≤ LONGEST_REPLY }
{}
