//! What calls leave of snapshots, and how a listing goes on.

ghost use Rattle.std.specs.Prelude.{◌≡◌, ℕ, ◌<◌, false, List, ◌∷◌, Some};
ghost use Rattle.fs_laws.specs.Dropping.{drops};
ghost use Rattle.fs_rules.specs.Answers.{Asked, after};
ghost use Rattle.fs_rules.specs.Listing.{Listed, behind, listing};
ghost use Rattle.fs_rules.specs.Places.{Object, snapshot_numbered};
ghost use Rattle.fs_rules.specs.Sound.{HasBounds};
ghost use Rattle.fs_rules.specs.Tree.{Snapshot, Tree};

/// A call leaves each snapshot as it was, but for the one that it drops.
#[tactic(auto, using(crate::proofs::Keeping::call_keeps))]
pub fn calls_keep_snapshots()
    ensures { (t : Tree) (a : Asked) (number : ℕ) (s : Snapshot) → drops t a.call s ≡ false →
        snapshot_numbered t number ≡ Some s → snapshot_numbered (after t a) number ≡ Some s }
{}

/// The first entry behind a cookie is above it, and behind its own cookie the listing goes on with the rest.
#[tactic(auto, using(crate::proofs::Listings::listing_goes_on, crate::proofs::Listings::listing_first_above))]
pub fn listings_go_on()
    ensures above { (t : Tree) (o : Object) (cookie : ℕ) (e : Listed) (left : List Listed) →
        behind cookie (listing t o) ≡ e ∷ left → cookie < e.cookie }
    ensures rest { (t : Tree) (o : Object) (cookie : ℕ) (e : Listed) (left : List Listed) → HasBounds t →
        behind cookie (listing t o) ≡ e ∷ left → behind e.cookie (listing t o) ≡ left }
{}
