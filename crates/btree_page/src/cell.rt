//! The cells of a page.

ghost use Rattle.std.specs.Prelude.{◌≡◌, Some};

use pair_types::Slot;

/// A cell of a page. Its key and its value are parts of the page.
#[derive(Clone, Copy, Debug)]
pub enum Cell<'a> {
    /// A versioned record, in a leaf.
    Leaf {
        /// What the record is found by, together with its birth.
        key: &'a [u8],
        /// The moment from which it is seen.
        birth: u64,
        /// The moment from which it is seen no more.
        death: u64,
        /// What it carries.
        value: &'a [u8],
    },
    /// A child of an inner page, with the least key and birth that it may hold.
    Inner {
        /// The least key.
        key: &'a [u8],
        /// The least birth at that key.
        birth: u64,
        /// Where the child lies.
        child: Slot,
    },
}

/// A key and a birth, by which cells are ordered.
#[derive(Clone, Copy)]
pub(crate) struct Bound<'a> {
    pub(crate) key: &'a [u8],
    pub(crate) birth: u64,
}

impl<'a> Cell<'a> {
    ghost use Rattle.btree_page.specs.Content.{bound_of};
    ghost use Rattle.btree_page.specs.Cells.{entry_of, edge_of};

    /// By what the cell is ordered.
    pub(crate) fn bound(&self) -> Bound<'a>
        ensures { edge_of (Some result) ≡ Some (bound_of (entry_of self.now)) }
    {
        match *self {
            Cell::Leaf { key, birth, .. } | Cell::Inner { key, birth, .. } => Bound { key, birth },
        }
    }
}
