//! What a search is for.

/// Which places a search is for, beside a key and a birth.
#[derive(Clone, Copy)]
pub enum Aim {
    /// The places at or after the key and the birth.
    AtOrAfter,
    /// The places after them.
    After,
}

impl Aim {
    ghost use Rattle.std.specs.Prelude.{◌≡◌};
    ghost use Rattle.btree_search.specs.Aim.{is_sought};

    /// Whether a place that compares so with the key and the birth is sought.
    pub(crate) fn takes(self, place: std::cmp::Ordering) -> bool
        ensures { result ≡ is_sought self place }
    {
        match self {
            Aim::AtOrAfter => place.is_ge(),
            Aim::After => place.is_gt(),
        }
    }
}
