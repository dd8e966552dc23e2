//! Inodes of files, in any view, and of the live tree.

ghost use Rattle.std.specs.Prelude.{◌≡◌, ◌≤◌, length, Some, IfOk, OnOk, IfErr, IfSome};
ghost use Rattle.fs_rules.specs.Limits.{longest_target};
ghost use Rattle.fs_rules.specs.Places.{node_at};
ghost use Rattle.pairs.specs.declared.at.At.TheVariants.{Live};
ghost use Rattle.pairs.specs.Versions.{HasLives};
ghost use Rattle.pairs.specs.Told.{Goes, Tells, PutGivesUp};
ghost use Rattle.fs_keys.specs.declared.key_parts.KeyParts.TheVariants.{Inode as InodeKey};
ghost use Rattle.fs_keys.specs.Inodes.{inode_of as inode_in};
ghost use Rattle.fs_shows.specs.Extents.{row};
ghost use Rattle.fs_shows.specs.Nodes.{Holds};
ghost use Rattle.fs_shows.specs.Views.{place_in, IsKept, IsFoundAs, IsThere};
ghost use Rattle.fs_shows.specs.Steps.{Reads, GivesUpOn};
ghost use Rattle.inode_ops.specs.Saving.{Saves};

use crate::rows::{get_row, put_row};
use fs_keys::{Inode, KeyParts, inode_of, value_of};
use pair_types::PairFault;
use pairs::{At, Pairs};
use std::alloc::Global;

/// The inode of a file in a view, or that there is none.
pub fn load<P: Pairs>(
    alloc: Global,
    pairs: &mut P,
    at: At,
    id: u64,
) -> Result<Option<Inode>, PairFault>
    ensures goes { Goes P.told pairs.old pairs.new 0 }
    ensures ok { IfOk result (λ found. Reads P.told pairs.old pairs.new (IsKept at)
        (λ t. IsFoundAs found (node_at t (place_in at id)))) }
    ensures record { IfOk result (λ found. Tells P.told pairs.old pairs.new
        (λ v. Holds inode_in (row v at (InodeKey id)) found)) }
    ensures short { IfOk result (λ found. IfSome found (λ inode. length inode.target ≤ longest_target)) }
    ensures fault { IfErr result (GivesUpOn P.told pairs.old pairs.new (IsKept at)) }
{
    let found = match get_row(alloc, pairs, at, &KeyParts::Inode(id)) {
        Ok(found) => found,
        Err(fault) => return Err(fault),
    };
    let value = match found {
        Some(value) => value,
        None => return Ok(None),
    };
    let said = match inode_of(alloc, value.as_slice()) {
        Ok(said) => said,
        Err(fault) => return Err(PairFault::from(fault)),
    };
    match said {
        Some(inode) => Ok(Some(inode)),
        None => Err(PairFault::Odd),
    }
}

/// The inode of a live file that is there.
pub fn load_live<P: Pairs>(alloc: Global, pairs: &mut P, id: u64) -> Result<Inode, PairFault>
    ensures goes { Goes P.told pairs.old pairs.new 0 }
    ensures ok { IfOk result (λ inode. Reads P.told pairs.old pairs.new (IsThere id)
        (λ t. IsFoundAs (Some inode) (t.nodes id))) }
    ensures record { IfOk result (λ inode. Tells P.told pairs.old pairs.new
        (λ v. Holds inode_in (row v Live (InodeKey id)) (Some inode))) }
    ensures short { IfOk result (λ inode. length inode.target ≤ longest_target) }
    ensures fault { IfErr result (GivesUpOn P.told pairs.old pairs.new (IsThere id)) }
{
    let found = match load(alloc, pairs, At::Live, id) {
        Ok(found) => found,
        Err(fault) => return Err(fault),
    };
    match found {
        Some(inode) => Ok(inode),
        None => Err(PairFault::Odd),
    }
}

/// Puts the inode of a live file.
pub fn save<P: Pairs>(alloc: Global, pairs: &mut P, id: u64, inode: &Inode) -> Result<(), PairFault>
    requires { length inode.now.target ≤ longest_target }
    ensures goes { Goes P.told pairs.old pairs.new 1 }
    ensures ok { OnOk result (Saves P.told pairs.old pairs.new id inode.now) }
    ensures fault { IfErr result (PutGivesUp P.told pairs.old pairs.new HasLives) }
{
    match value_of(alloc, inode) {
        Ok(value) => put_row(alloc, pairs, &KeyParts::Inode(id), value.as_slice()),
        Err(fault) => Err(PairFault::from(fault)),
    }
}
