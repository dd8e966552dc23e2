//! What passes know. No value of these types is made.

use page_types::JEntry;
use std::marker::Model;

/// Entries of the journal, seen as their list.
#[derive(Drop)]
pub struct Entries {
    pub all: Vec<JEntry>,
}

impl Model for Entries {
    ghost use Rattle.std.specs.Prelude.{List};
    ghost use Rattle.page_types.specs.declared.journal.JEntry.{JEntry};

    ghost Value = { List JEntry };

    ghost view = { λ entries. entries.all.items };
}

/// What the stores began with, seen as an origin.
#[derive(Drop)]
pub struct Began {
    pub stores: u32,
    pub first: Vec<u8>,
}

impl Model for Began {
    ghost use Rattle.page_types.specs.Journals.{Origin};

    ghost Value = { Origin };

    ghost view = { λ began. record { stores = began.stores; first = began.first.items } };
}

/// A journal that was seen, and the numbers whose entries in it are all that there are.
#[derive(Drop)]
pub struct Claim {
    pub low: u64,
    pub high: u64,
    pub seen: Entries,
}

/// Claims, seen as their list.
#[derive(Drop)]
pub struct Claims {
    pub all: Vec<Claim>,
}

impl Model for Claims {
    ghost use Rattle.std.specs.Prelude.{List};
    ghost use Rattle.turnstile.specs.declared.view.Claim.{Claim};

    ghost Value = { List Claim };

    ghost view = { λ claims. claims.all.items };
}

/// What a pass knows: whether it holds the turn, what the stores began with, the journal that it has seen, its
/// numbers from `low` up to `high`, and what it knows of journals that it took over from another pass.
#[derive(Drop)]
pub struct View {
    pub holds: bool,
    pub origin: Began,
    pub seen: Entries,
    pub low: u64,
    pub high: u64,
    pub claims: Claims,
}
