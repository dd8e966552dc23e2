//! What an edit does to one record.

use pair_types::Quad;

/// One edit of one record.
#[derive(Clone, Copy)]
pub(crate) enum Change<'a> {
    /// The record at a key and a birth goes.
    Remove {
        /// The key.
        key: &'a [u8],
        /// The birth.
        birth: u64,
    },
    /// The record at a key and a birth has another death from now on.
    End {
        /// The key.
        key: &'a [u8],
        /// The birth.
        birth: u64,
        /// The death.
        death: u64,
    },
    /// This record comes in the place of the one at its key and birth.
    Replace(&'a Quad),
    /// This record comes in.
    Insert(&'a Quad),
}

impl<'a> Change<'a> {
    ghost use Rattle.std.specs.Prelude.{◌≡◌};
    ghost use Rattle.btree_edit.specs.Changes.{pair_of};

    /// The key at which it edits.
    pub(crate) fn key(&self) -> &[u8]
        ensures { result.now ≡ (pair_of self.now).key }
    {
        match self {
            Change::Remove { key, .. } | Change::End { key, .. } => key,
            Change::Replace(q) | Change::Insert(q) => q.key.as_slice(),
        }
    }

    /// The birth at which it edits.
    pub(crate) fn birth(&self) -> u64
        ensures { result ≡ (pair_of self.now).birth }
    {
        match self {
            Change::Remove { birth, .. } | Change::End { birth, .. } => *birth,
            Change::Replace(q) | Change::Insert(q) => q.birth,
        }
    }
}
