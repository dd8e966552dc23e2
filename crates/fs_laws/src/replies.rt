//! What each reply says, and which calls leave the tree as it was.

ghost use Rattle.std.specs.Prelude.{◌≡◌, ◌≢◌, false};
ghost use Rattle.nfs3_fits.specs.Shape.{HasShape};
ghost use Rattle.nfs3_types.specs.Replies.{is_ok};
ghost use Rattle.nfs3_types.specs.declared.status.Status.TheVariants.{Jukebox, ServerFault};
ghost use Rattle.fs_rules.specs.Sound.{HasBounds};
ghost use Rattle.fs_rules.specs.Answers.{Asked, after, answer, is_changing};
ghost use Rattle.fs_rules.specs.Tree.{Tree};

/// A failing call leaves the tree as it was.
#[tactic(auto, using(crate::proofs::Leaving::failure_leaves))]
pub fn failures_change_nothing()
    ensures { (t : Tree) (a : Asked) → is_ok (answer t a).status ≡ false → after t a ≡ t }
{}

/// A call that only reads leaves the tree as it was.
#[tactic(auto, using(crate::proofs::Leaving::reading_leaves))]
pub fn readings_change_nothing()
    ensures { (t : Tree) (a : Asked) → is_changing a.call ≡ false → after t a ≡ t }
{}

/// No reply says that the server failed (SERVERFAULT), or that the client is to call again later (JUKEBOX).
#[tactic(auto, using(crate::proofs::Blaming::no_fault_told, crate::proofs::Blaming::no_jukebox_told))]
pub fn no_reply_blames_the_server()
    ensures fault { (t : Tree) (a : Asked) → (answer t a).status ≢ ServerFault }
    ensures jukebox { (t : Tree) (a : Asked) → (answer t a).status ≢ Jukebox }
{}

/// On a tree within its bounds each reply has the shape that its spelling needs.
#[tactic(auto, using(crate::proofs::Shaped::answer_fits))]
pub fn replies_have_shape()
    ensures { (t : Tree) (a : Asked) → HasBounds t → HasShape (answer t a) }
{}
