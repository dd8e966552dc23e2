//! Where a file stands.

ghost use Rattle.std.specs.Prelude.{◌≡◌};
ghost use Rattle.fs_rules.specs.Places.{fileid_at, place_of, snapshot_at};

use nfs3_types::Handle;

/// The number that stands for no snapshot in the handle of `.snapshot`.
const NO_SNAPSHOT: u64 = u64::MAX;

/// Where a file or directory stands: in the live tree, or in a snapshot. A handle says it (RFC 1813, section
/// 2.6, nfs_fh3).
#[derive(Clone, Copy, Debug, PartialEq, Eq)]
pub enum Place {
    /// In the live tree: the file's number.
    Live(u64),
    /// The directory `.snapshot` of the live root, whose entries are the snapshots.
    SnapshotDirectory,
    /// In a snapshot: the snapshot's number, and the file's.
    Kept(u64, u64),
}

impl Place {
    /// The place that a handle says.
    #[tactic(auto, unfolding(crate::specs::Places::place_of))]
    pub fn of(h: &Handle) -> Place
        ensures { result ≡ place_of h.now }
    {
        if h.snapshot == 0 {
            Place::Live(h.fileid)
        } else if h.snapshot == NO_SNAPSHOT && h.fileid == 2 {
            Place::SnapshotDirectory
        } else {
            Place::Kept(h.snapshot, h.fileid)
        }
    }

    /// The snapshot that a handle of the place says.
    pub fn snapshot(self) -> u64
        ensures { result ≡ snapshot_at self }
    {
        match self {
            Place::Live(_) => 0,
            Place::SnapshotDirectory => NO_SNAPSHOT,
            Place::Kept(number, _) => number,
        }
    }

    /// The number of the file there.
    pub fn fileid(self) -> u64
        ensures { result ≡ fileid_at self }
    {
        match self {
            Place::Live(fileid) => fileid,
            Place::SnapshotDirectory => 2,
            Place::Kept(_, fileid) => fileid,
        }
    }
}
