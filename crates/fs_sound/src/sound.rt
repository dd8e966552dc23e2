//! Sound trees.

ghost use Rattle.std.specs.Prelude.{◌≡◌, ℕ, ◌^◌, ◌≤◌, ◌<◌, true, List, Some, is_some};
ghost use Rattle.fs_rules.specs.declared.name_entry.NameEntry.{NameEntry};
ghost use Rattle.fs_rules.specs.declared.place.Place.{Place};
ghost use Rattle.fs_rules.specs.Places.{beside, entry_at, leads_to};
ghost use Rattle.nfs3_types.specs.declared.moment.Moment.{Moment};
ghost use Rattle.fs_rules.specs.Sound.{IsSound};
ghost use Rattle.fs_rules.specs.Answers.{Asked, after, answer};
ghost use Rattle.fs_rules.specs.Tree.{Tree, first_tree};
ghost use Rattle.fs_sound.specs.Whole.{IsWhole};

use fs_laws::{calls_keep_bounds, first_tree_has_bounds};

/// The first tree is sound.
pub fn first_tree_is_sound()
    ensures { (fsid : ℕ) (verifier : List ℕ) (first : Moment) → fsid ≤ 2 ^ 63 →
        IsSound (first_tree fsid verifier first) }
{
    first_tree_has_bounds();
}

/// Each call, in a lane below 16, leaves a sound tree sound.
pub fn calls_keep_trees_sound()
    ensures { (t : Tree) (a : Asked) → a.lane < 16 → IsSound t → IsSound (after t a) }
{
    calls_keep_bounds();
}

/// In a sound tree each entry leads to a node: no row of the answer table meets a name that leads to none.
#[tactic(auto, using(crate::proofs::Present::names_lead))]
pub fn names_lead_to_nodes()
    ensures { (t : Tree) (place : Place) (name : List ℕ) (e : NameEntry) → IsSound t →
        entry_at t place name ≡ Some e → is_some (leads_to t (beside place e)) ≡ true }
{}

/// On a sound tree no reply leaves out what its procedure lets it leave out: attributes, attributes before a
/// change, handles.
#[tactic(auto, using(crate::proofs::Whole::answer_whole))]
pub fn replies_leave_nothing_out()
    ensures { (t : Tree) (a : Asked) → IsSound t → IsWhole (answer t a).body }
{}
