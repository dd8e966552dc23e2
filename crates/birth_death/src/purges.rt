//! Purges: records that are dead, and that no number sees that is kept.

ghost use Rattle.std.specs.Prelude.{◌≡◌, IfOk, IfErr};
ghost use Rattle.btree_search.specs.Found.{OnlyReads};
ghost use Rattle.pairs.specs.Lives.{is_spent, life_of};
ghost use Rattle.pairs.specs.Versions.{HasLives};
ghost use Rattle.birth_death.specs.Shows.{FindsIn, GivesUpIn};
ghost use Rattle.birth_death.specs.Walks.{FindsSpent, FindsSome, GetsOn};

use crate::lookups::NEVER;
use btree_search::{next, seek};
use nfs3_types::NoMemory;
use pair_types::{Pages, PairFault, Quad};
use pairs::Purged;
use std::alloc::Global;

/// Whether a record is dead, and none of these numbers sees it.
fn is_spent(kept: &[u64], q: &Quad) -> bool
    ensures { result ≡ is_spent kept.now (life_of q.now) }
{
    q.death != NEVER && !kept.iter().any(|n| q.birth <= *n && *n < q.death)
}

/// The first record, of keys from one on, that is dead and that none of these numbers sees.
pub(crate) fn find_spent<G: Pages>(
    alloc: Global,
    pages: &mut G,
    kept: &[u64],
    from: &[u8],
) -> Result<Option<Quad>, PairFault>
    ensures only_reads { OnlyReads (G.state pages.old) (G.state pages.new) }
    ensures found { IfOk result (λ found. FindsIn (G.state pages.old) (G.state pages.new) (FindsSpent kept.now from.now found)) }
    ensures fault { IfErr result (GivesUpIn (G.state pages.old) (G.state pages.new) HasLives) }
{
    let mut found = match seek(alloc, pages, from, 0) {
        Ok(found) => found,
        Err(fault) => return Err(fault),
    };
    for _turn in 0..u64::MAX {
        let q = match found {
            Some(q) => q,
            None => return Ok(None),
        };
        if is_spent(kept, &q) {
            return Ok(Some(q));
        }
        found = match next(alloc, pages, q.key.as_slice(), q.birth) {
            Ok(found) => found,
            Err(fault) => return Err(fault),
        };
    }
    // No tree has so many records.
    Err(PairFault::from(NoMemory))
}

/// The same, but behind so many records it may stop, at one whose key lies behind the one from which it began. It counts
/// records, each of which is found by a search of its own, and not the leaves, which hold many each.
pub(crate) fn find_some<G: Pages>(
    alloc: Global,
    pages: &mut G,
    kept: &[u64],
    from: &[u8],
    most: u32,
) -> Result<Purged, PairFault>
    ensures only_reads { OnlyReads (G.state pages.old) (G.state pages.new) }
    ensures found { IfOk result (λ found. FindsIn (G.state pages.old) (G.state pages.new) (FindsSome kept.now from.now found)) }
    ensures on { IfOk result (GetsOn from.now) }
    ensures fault { IfErr result (GivesUpIn (G.state pages.old) (G.state pages.new) HasLives) }
{
    let mut found = match seek(alloc, pages, from, 0) {
        Ok(found) => found,
        Err(fault) => return Err(fault),
    };
    for turn in 0..u64::MAX {
        let q = match found {
            Some(q) => q,
            None => return Ok(Purged::Ended),
        };
        if u64::from(most) <= turn && from.cmp(q.key.as_slice()).is_lt() {
            return Ok(Purged::Stopped(q.key));
        }
        if is_spent(kept, &q) {
            return Ok(Purged::Took(q));
        }
        found = match next(alloc, pages, q.key.as_slice(), q.birth) {
            Ok(found) => found,
            Err(fault) => return Err(fault),
        };
    }
    // No tree has so many records.
    Err(PairFault::from(NoMemory))
}
