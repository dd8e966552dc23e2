//! Walks from key to key.

ghost use Rattle.std.specs.Prelude.{◌≡◌, ◌≤◌, length, IfOk, IfErr, IfSome};
ghost use Rattle.btree_search.specs.Found.{OnlyReads};
ghost use Rattle.pairs.specs.Versions.{HasLives};
ghost use Rattle.pairs.specs.Found.{Follows};
ghost use Rattle.birth_death.specs.Shows.{FindsIn, GivesUpIn};
ghost use Rattle.birth_death.specs.Walks.{FollowsKey};

use crate::lookups::{NEVER, get_at};
use btree_search::next;
use nfs3_types::{NoMemory, Text};
use pair_types::{Key, Pages, PairFault, Value};
use pairs::At;
use std::alloc::Global;

/// The first key behind one that has a record.
fn next_key<G: Pages>(alloc: Global, pages: &mut G, after: &[u8]) -> Result<Option<Key>, PairFault>
    ensures only_reads { OnlyReads (G.state pages.old) (G.state pages.new) }
    ensures found { IfOk result (λ found. FindsIn (G.state pages.old) (G.state pages.new) (FollowsKey after.now found)) }
    ensures few { IfOk result (λ found. IfSome found (λ key. length key ≤ 264)) }
    ensures fault { IfErr result (GivesUpIn (G.state pages.old) (G.state pages.new) HasLives) }
{
    // No record is born after the greatest number.
    match next(alloc, pages, after, NEVER) {
        Ok(Some(q)) => Ok(Some(q.key)),
        Ok(None) => Ok(None),
        Err(fault) => Err(fault),
    }
}

/// The first key behind one that a view has, with its value, which has at most 1,200 bytes.
pub(crate) fn next_at<G: Pages>(
    alloc: Global,
    pages: &mut G,
    after: &[u8],
    at: At,
) -> Result<Option<(Key, Value)>, PairFault>
    ensures only_reads { OnlyReads (G.state pages.old) (G.state pages.new) }
    ensures found { IfOk result (λ found. FindsIn (G.state pages.old) (G.state pages.new) (Follows at after.now found)) }
    ensures few { IfOk result (λ found. IfSome found (λ pair. (length pair.0 ≤ 264) × (length pair.1 ≤ 1200))) }
    ensures fault { IfErr result (GivesUpIn (G.state pages.old) (G.state pages.new) HasLives) }
{
    let mut last = match Text::from_slice(alloc, after) {
        Ok(last) => last,
        Err(fault) => return Err(PairFault::from(fault)),
    };
    for _turn in 0..u64::MAX {
        let key = match next_key(alloc, pages, last.as_slice()) {
            Ok(Some(key)) => key,
            Ok(None) => return Ok(None),
            Err(fault) => return Err(fault),
        };
        match get_at(alloc, pages, key.as_slice(), at) {
            Ok(Some(value)) => return Ok(Some((key, value))),
            Ok(None) => last = key,
            Err(fault) => return Err(fault),
        }
    }
    // No tree has so many keys.
    Err(PairFault::from(NoMemory))
}
