//! Snapshots.

ghost use Rattle.std.specs.Prelude.{◌<◌, ◌^◌};

use nfs3_types::Text;
use plain_nodes::Nodes;

/// A whole copy of the live tree.
#[derive(Drop)]
pub struct Snapshot {
    /// Its name in `.snapshot`.
    pub name: Text,
    /// Its number.
    pub number: u64,
    /// Its nodes.
    pub nodes: Nodes,
    ghost low: { number < 2 ^ 63 },
}
