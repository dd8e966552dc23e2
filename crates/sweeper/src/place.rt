//! Places in the walk of a sweep.

ghost use Rattle.std.specs.Prelude.{◌≡◌, None};
ghost use Rattle.sweeper.specs.declared.place.SweepPlace.TheVariants.{Files};

use pair_types::Key;

/// A place in the walk of a sweep: where it goes on.
#[derive(Debug, Drop)]
pub enum SweepPlace {
    /// The files that are marked, behind this one, or all.
    Files(Option<u64>),
    /// The extents of a file that is marked.
    Extents {
        /// The file.
        file: u64,
        /// The index behind which they lie; all of them, where there is none.
        after: Option<u64>,
    },
    /// Records that are dead, of keys from this one on.
    Dead(Key),
}

impl SweepPlace {
    /// Where a sweep begins.
    pub fn start() -> SweepPlace
        ensures { result ≡ Files None }
    {
        SweepPlace::Files(None)
    }
}

/// What a sweep did.
#[derive(Debug, Drop)]
pub struct Swept {
    /// How many extents it ended and records it purged.
    pub count: u32,
    /// Where to go on; `None` where it came to the end.
    pub next: Option<SweepPlace>,
}

/// A walk at a place.
#[derive(Drop)]
pub(crate) struct Walk {
    /// The place.
    pub(crate) place: SweepPlace,
    /// Whether all extents of the file so far were seen, where the place is among extents.
    pub(crate) whole: bool,
}

/// What a step of a walk did.
#[derive(Drop)]
pub(crate) struct Step {
    /// Whether it ended an extent or purged a record.
    pub(crate) ended: bool,
    /// Where the walk goes on.
    pub(crate) next: Option<Walk>,
}
