//! Look-ups: each is one search down the tree, however many versions a key has.

ghost use Rattle.std.specs.Prelude.{◌≡◌, ◌≤◌, ◌&&◌, List, ℕ, length, option_map, IfOk, IfErr, IfSome, Option};
ghost use Rattle.std.specs.List.{find};
ghost use Rattle.std.specs.Str.{bytes_eq};
ghost use Rattle.pair_types.specs.declared.quad.Quad.{Quad};
ghost use Rattle.btree_page.specs.Tree.{IsRecord};
ghost use Rattle.btree_search.specs.Found.{OnlyReads};
ghost use Rattle.pairs.specs.Lives.{sees, born, life_of};
ghost use Rattle.pairs.specs.Versions.{HasLives, value_at, epoch, epoch_in};
ghost use Rattle.birth_death.specs.Quads.{last_birth, if_seen};
ghost use Rattle.birth_death.specs.Shows.{FindsIn, GivesUpIn};

use btree_search::seek_back;
use pair_types::{Pages, PairFault, Quad, Value};
use pairs::At;
use std::alloc::Global;

/// The key at which the epoch lies.
const EPOCH_KEY: [u8; 1] = [1];

/// The death of what lives.
pub(crate) const NEVER: u64 = u64::MAX;

/// The last birth that a view can see.
fn last_birth(at: At) -> u64
    ensures { result ≡ last_birth at }
{
    match at {
        At::Live => NEVER,
        At::Snap(number) => number,
    }
}

/// Whether a view sees a record.
fn sees(at: At, q: &Quad) -> bool
    ensures { result ≡ sees at (life_of q.now) }
{
    match at {
        At::Live => q.death == NEVER,
        At::Snap(number) => q.birth <= number && number < q.death,
    }
}

/// A record, if it is one of this key that a view sees.
fn if_seen(key: &[u8], at: At, found: Option<Quad>) -> Option<Quad>
    ensures { result ≡ if_seen key.now at found }
{
    match found {
        Some(q) => {
            if q.key.as_slice() == key && sees(at, &q) {
                Some(q)
            } else {
                None
            }
        }
        None => None,
    }
}

/// The record of a key that a view sees: of those at or below the key and the last birth that it can see it is the
/// greatest, or there is none.
pub(crate) fn seen_at<G: Pages>(
    alloc: Global,
    pages: &mut G,
    key: &[u8],
    at: At,
) -> Result<Option<Quad>, PairFault>
    ensures only_reads { OnlyReads (G.state pages.old) (G.state pages.new) }
    ensures found { IfOk result (λ found. FindsIn (G.state pages.old) (G.state pages.new)
        (λ v. find (sees at) (v.lives key.now) ≡ option_map life_of found)) }
    ensures record_fits { IfOk result (λ found. IfSome found (λ q. IsRecord q)) }
    ensures fault { IfErr result (GivesUpIn (G.state pages.old) (G.state pages.new) HasLives) }
{
    match seek_back(alloc, pages, key, last_birth(at)) {
        Ok(found) => Ok(if_seen(key, at, found)),
        Err(fault) => Err(fault),
    }
}

/// The value of a record.
fn value_of(found: Option<Quad>) -> Option<Value>
    ensures { result ≡ option_map (λ (q : Quad). q.value) found }
{
    match found {
        Some(q) => Some(q.value),
        None => None,
    }
}

/// The birth of a record.
fn birth_of(found: Option<Quad>) -> Option<u64>
    ensures { result ≡ option_map (λ (q : Quad). q.birth) found }
{
    match found {
        Some(q) => Some(q.birth),
        None => None,
    }
}

/// The value of a key in a view. It has at most 1,200 bytes.
pub(crate) fn get_at<G: Pages>(
    alloc: Global,
    pages: &mut G,
    key: &[u8],
    at: At,
) -> Result<Option<Value>, PairFault>
    ensures only_reads { OnlyReads (G.state pages.old) (G.state pages.new) }
    ensures found { IfOk result (λ found. FindsIn (G.state pages.old) (G.state pages.new)
        (λ v. value_at at v key.now ≡ found)) }
    ensures few { IfOk result (λ found. IfSome found (λ value. length value ≤ 1200)) }
    ensures fault { IfErr result (GivesUpIn (G.state pages.old) (G.state pages.new) HasLives) }
{
    match seen_at(alloc, pages, key, at) {
        Ok(found) => Ok(value_of(found)),
        Err(fault) => Err(fault),
    }
}

/// The birth of the live value of a key.
pub(crate) fn born<G: Pages>(
    alloc: Global,
    pages: &mut G,
    key: &[u8],
) -> Result<Option<u64>, PairFault>
    ensures only_reads { OnlyReads (G.state pages.old) (G.state pages.new) }
    ensures found { IfOk result (λ birth. FindsIn (G.state pages.old) (G.state pages.new)
        (λ v. born (v.lives key.now) ≡ birth)) }
    ensures fault { IfErr result (GivesUpIn (G.state pages.old) (G.state pages.new) HasLives) }
{
    match seen_at(alloc, pages, key, At::Live) {
        Ok(found) => Ok(birth_of(found)),
        Err(fault) => Err(fault),
    }
}

/// The epoch with which a value begins: its first eight bytes, and 0 where it is shorter.
fn first_number(bytes: &[u8]) -> u64
    ensures { result ≡ epoch_in (Some bytes.now) }
{
    if bytes.len() < 8 {
        return 0;
    }
    u64::from_be_bytes([
        bytes[0], bytes[1], bytes[2], bytes[3], bytes[4], bytes[5], bytes[6], bytes[7],
    ])
}

/// The epoch that a value tells, if there is one.
fn number_in(found: Option<Value>) -> u64
    ensures { result ≡ epoch_in found }
{
    match found {
        Some(value) => first_number(value.as_slice()),
        None => 0,
    }
}

/// The epoch: the number with which the live value at its key begins.
pub(crate) fn epoch<G: Pages>(alloc: Global, pages: &mut G) -> Result<u64, PairFault>
    ensures only_reads { OnlyReads (G.state pages.old) (G.state pages.new) }
    ensures found { IfOk result (λ n. FindsIn (G.state pages.old) (G.state pages.new) (λ v. n ≡ epoch v)) }
    ensures fault { IfErr result (GivesUpIn (G.state pages.old) (G.state pages.new) HasLives) }
{
    match get_at(alloc, pages, &EPOCH_KEY, At::Live) {
        Ok(found) => Ok(number_in(found)),
        Err(fault) => Err(fault),
    }
}
