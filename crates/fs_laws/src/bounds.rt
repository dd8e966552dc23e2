//! What keeps a tree within its bounds.

ghost use Rattle.std.specs.Prelude.{ℕ, ◌+◌, ◌^◌, ◌≤◌, ◌<◌, List};
ghost use Rattle.nfs3_types.specs.declared.moment.Moment.{Moment};
ghost use Rattle.fs_rules.specs.Sound.{HasBounds};
ghost use Rattle.fs_rules.specs.Answers.{Asked, after};
ghost use Rattle.fs_rules.specs.Tree.{Tree, first_tree};

/// The first tree is within its bounds.
pub fn first_tree_has_bounds()
    ensures { (fsid : ℕ) (verifier : List ℕ) (first : Moment) → fsid ≤ 2 ^ 63 →
        HasBounds (first_tree fsid verifier first) }
{}

/// Each call, in a lane below 16, leaves a tree within its bounds.
pub fn calls_keep_bounds()
    ensures { (t : Tree) (a : Asked) → a.lane < 16 → HasBounds t → HasBounds (after t a) }
{}
