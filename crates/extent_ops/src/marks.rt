//! Which extents of a file count.

use fs_keys::Head;

/// What of an inode decides which of its file's extents count.
#[derive(Clone, Copy, Debug, PartialEq, Eq)]
pub struct Marks {
    /// How often the file was cut: an extent counts that was written since the last time.
    pub stamp: u64,
    /// The index below which older extents count too.
    pub floor: u64,
}

impl Marks {
    ghost use Rattle.std.specs.Prelude.{◌≡◌};
    ghost use Rattle.fs_shows.specs.Nodes.{marks_of};
    ghost use Rattle.extent_ops.specs.Marking.{as_marks};

    /// Those of an inode.
    pub fn of(head: &Head) -> Marks
        ensures { as_marks result ≡ marks_of head.now }
    {
        Marks {
            stamp: head.kept.cuts,
            floor: head.floor,
        }
    }
}
