//! The snapshots of a tree.

ghost use Rattle.std.specs.Option.{option_copied};
ghost use Rattle.std.specs.Prelude.{◌≡◌, ◌≤◌, IfSome, bytes_eq, filter, find, length, map, not, option_map};
ghost use Rattle.fs_rules.specs.Names.{has_name};
ghost use Rattle.fs_rules.specs.Places.{has_number, snapshot_entry};
ghost use Rattle.plain_tree.specs.Trees.{entry_of, snapshot_of};

use crate::snapshot::Snapshot;

/// The first snapshot of this number.
pub fn numbered(snapshots: &[Snapshot], number: u64) -> Option<&Snapshot>
    ensures found { option_map snapshot_of (option_copied result) ≡ find (has_number number) (map snapshot_of snapshots.now) }
    ensures same { IfSome result (λ s. s.now.number ≡ number) }
{
    let mut rest = snapshots;
    while !rest.is_empty() {
        if rest[0].number == number {
            return Some(&rest[0]);
        }
        rest = &rest[1..];
    }
    None
}

/// The first snapshot of this name, whose entry in `.snapshot` has the name.
#[tactic(auto, unfolding(fs_rules::specs::Names::has_name))]
pub fn snapshot_named<'a>(snapshots: &'a [Snapshot], name: &[u8]) -> Option<&'a Snapshot>
    ensures { option_map entry_of (option_copied result) ≡ find (has_name name.now)
        (map snapshot_entry (map snapshot_of snapshots.now)) }
{
    let mut rest = snapshots;
    while !rest.is_empty() {
        if rest[0].name.as_slice() == name {
            return Some(&rest[0]);
        }
        rest = &rest[1..];
    }
    None
}

/// Takes the snapshots of this name away.
pub fn drop_snapshots_named(snapshots: &mut Vec<Snapshot>, name: &[u8])
    ensures kept { snapshots.new.items ≡ filter (λ s. not (bytes_eq s.name name.now)) snapshots.old.items }
    ensures few { length snapshots.new.items ≤ length snapshots.old.items }
{
    snapshots.retain(|s| s.name.as_slice() != name);
}
