//! Puts and deletions: each edits one or two records.

ghost use Rattle.std.specs.Prelude.{◌≡◌, ◌≢◌, ◌<◌, ◌≤◌, ℕ, List, true, length, Option, Some, None, OnOk, IfOk, IfErr, is_some};
ghost use Rattle.pair_types.specs.declared.quad.Quad.{Quad};
ghost use Rattle.btree_page.specs.Tree.{quad_bound, IsRecord};
ghost use Rattle.btree_search.specs.Found.{HasCause};
ghost use Rattle.btree_edit.specs.Edits.{bound_at, Nothing, Removes, Ends, Replaces};
ghost use Rattle.btree_edit.specs.Edited.{GoesOn, EditsIn, RootStays, RootGrows, HadNoTree, HasPutCause};
ghost use Rattle.pairs.specs.Lives.{never, born};
ghost use Rattle.pairs.specs.Versions.{HasLives, CanPut, with_put, with_del, with_purge};
ghost use Rattle.birth_death.specs.Roots.{KeepsRoot};
ghost use Rattle.birth_death.specs.Shows.{FindsIn, MovesIn, GivesUpIn, PutGivesUpIn};
ghost use Rattle.birth_death.specs.Changes.{Has, PutsAs, Dies, GoesFirst};

use crate::lookups::{NEVER, born, epoch};
use btree_edit::{end, insert, remove, replace};
use nfs3_types::{NoMemory, Text};
use pair_types::{Pages, PairFault, Quad};
use std::alloc::Global;

/// Removes the record at a key and a birth, which is there.
fn remove_there<G: Pages>(
    alloc: Global,
    pages: &mut G,
    key: &[u8],
    birth: u64,
) -> Result<(), PairFault>
    ensures removed { OnOk result (EditsIn (Removes (bound_at key.now birth)) Nothing None
        (G.state pages.old) (G.state pages.new)) }
    ensures goes_on { GoesOn (G.state pages.old) (G.state pages.new) }
    ensures root { OnOk result (RootStays (G.state pages.old) (G.state pages.new)) }
    ensures fault { IfErr result (λ fault. HasCause (G.state pages.old) (G.state pages.new)
        (HadNoTree (Has (bound_at key.now birth)) (G.state pages.old) (G.state pages.new)) fault) }
{
    match remove(alloc, pages, key, birth) {
        Ok(true) => Ok(()),
        Ok(false) => Err(PairFault::Odd),
        Err(fault) => Err(fault),
    }
}

/// Sets the death of the record at a key and a birth, which is there.
fn end_there<G: Pages>(
    alloc: Global,
    pages: &mut G,
    key: &[u8],
    birth: u64,
    death: u64,
) -> Result<(), PairFault>
    ensures ended { OnOk result (EditsIn (Ends (bound_at key.now birth) death) Nothing None
        (G.state pages.old) (G.state pages.new)) }
    ensures goes_on { GoesOn (G.state pages.old) (G.state pages.new) }
    ensures root { OnOk result (RootStays (G.state pages.old) (G.state pages.new)) }
    ensures fault { IfErr result (λ fault. HasCause (G.state pages.old) (G.state pages.new)
        (HadNoTree (Has (bound_at key.now birth)) (G.state pages.old) (G.state pages.new)) fault) }
{
    match end(alloc, pages, key, birth, death) {
        Ok(true) => Ok(()),
        Ok(false) => Err(PairFault::Odd),
        Err(fault) => Err(fault),
    }
}

/// Puts a record in the place of the one at its key and birth, which is there.
fn replace_there<G: Pages>(
    alloc: Global,
    pages: &mut G,
    q: &Quad,
    store: u32,
) -> Result<(), PairFault>
    requires record_fits { IsRecord q.now }
    requires store { store < (G.state pages.old).stores }
    ensures replaced { OnOk result (EditsIn (Replaces q.now) Nothing (Some store)
        (G.state pages.old) (G.state pages.new)) }
    ensures goes_on { GoesOn (G.state pages.old) (G.state pages.new) }
    ensures root { OnOk result (RootGrows (G.state pages.old) (G.state pages.new)) }
    ensures fault { IfErr result (λ fault. HasPutCause (G.state pages.old) (G.state pages.new)
        (HadNoTree (Has (quad_bound q.now)) (G.state pages.old) (G.state pages.new)) fault) }
{
    match replace(alloc, pages, q, store) {
        Ok(true) => Ok(()),
        Ok(false) => Err(PairFault::Odd),
        Err(fault) => Err(fault),
    }
}

// ---- puts

/// The record of a value that lives from an epoch on.
fn new_record(alloc: Global, key: &[u8], value: &[u8], birth: u64) -> Result<Quad, NoMemory>
    ensures { IfOk result (λ q. q ≡ record { key = key.now; birth = birth; death = never; value = value.now }) }
{
    let key = Text::from_slice(alloc, key)?;
    let value = Text::from_slice(alloc, value)?;
    Ok(Quad {
        key,
        birth,
        death: NEVER,
        value,
    })
}

/// Puts a value at a key that has none.
fn put_first<G: Pages>(alloc: Global, pages: &mut G, q: &Quad, store: u32) -> Result<(), PairFault>
    requires record_fits { IsRecord q.now }
    requires lives { q.now.death ≡ never }
    requires store { store < (G.state pages.old).stores }
    ensures goes_on { GoesOn (G.state pages.old) (G.state pages.new) }
    ensures ok { OnOk result (MovesIn (G.state pages.old) (G.state pages.new)
        (PutsAs q.now None) (with_put q.now.key q.now.value)) }
    ensures root { OnOk result (KeepsRoot 1 (G.state pages.old) (G.state pages.new)) }
    ensures fault { IfErr result (PutGivesUpIn (G.state pages.old) (G.state pages.new) (PutsAs q.now None)) }
{
    insert(alloc, pages, q, store)
}

/// Puts a value at a key whose value was born in the epoch.
fn put_over<G: Pages>(alloc: Global, pages: &mut G, q: &Quad, store: u32) -> Result<(), PairFault>
    requires record_fits { IsRecord q.now }
    requires lives { q.now.death ≡ never }
    requires store { store < (G.state pages.old).stores }
    ensures goes_on { GoesOn (G.state pages.old) (G.state pages.new) }
    ensures ok { OnOk result (MovesIn (G.state pages.old) (G.state pages.new)
        (PutsAs q.now (Some q.now.birth)) (with_put q.now.key q.now.value)) }
    ensures root { OnOk result (KeepsRoot 1 (G.state pages.old) (G.state pages.new)) }
    ensures fault { IfErr result (PutGivesUpIn (G.state pages.old) (G.state pages.new)
        (PutsAs q.now (Some q.now.birth))) }
{
    replace_there(alloc, pages, q, store)
}

/// Puts a value at a key whose value was born before the epoch.
fn put_after<G: Pages>(
    alloc: Global,
    pages: &mut G,
    q: &Quad,
    birth: u64,
    store: u32,
) -> Result<(), PairFault>
    requires record_fits { IsRecord q.now }
    requires lives { q.now.death ≡ never }
    requires other { birth ≢ q.now.birth }
    requires store { store < (G.state pages.old).stores }
    ensures goes_on { GoesOn (G.state pages.old) (G.state pages.new) }
    ensures ok { OnOk result (MovesIn (G.state pages.old) (G.state pages.new)
        (PutsAs q.now (Some birth)) (with_put q.now.key q.now.value)) }
    ensures root { OnOk result (KeepsRoot 1 (G.state pages.old) (G.state pages.new)) }
    ensures fault { IfErr result (PutGivesUpIn (G.state pages.old) (G.state pages.new) (PutsAs q.now (Some birth))) }
{
    match end_there(alloc, pages, q.key.as_slice(), birth, q.birth) {
        Ok(()) => insert(alloc, pages, q, store),
        Err(fault) => Err(fault),
    }
}

/// Puts a value at a key whose live value, if there is one, was born then.
fn put_record<G: Pages>(
    alloc: Global,
    pages: &mut G,
    q: &Quad,
    birth: Option<u64>,
    store: u32,
) -> Result<(), PairFault>
    requires record_fits { IsRecord q.now }
    requires lives { q.now.death ≡ never }
    requires store { store < (G.state pages.old).stores }
    ensures goes_on { GoesOn (G.state pages.old) (G.state pages.new) }
    ensures ok { OnOk result (MovesIn (G.state pages.old) (G.state pages.new)
        (PutsAs q.now birth) (with_put q.now.key q.now.value)) }
    ensures root { OnOk result (KeepsRoot 1 (G.state pages.old) (G.state pages.new)) }
    ensures fault { IfErr result (PutGivesUpIn (G.state pages.old) (G.state pages.new) (PutsAs q.now birth)) }
{
    match birth {
        None => put_first(alloc, pages, q, store),
        Some(birth) => {
            if birth == q.birth {
                put_over(alloc, pages, q, store)
            } else {
                put_after(alloc, pages, q, birth, store)
            }
        }
    }
}

/// Puts a value at a key, as of the epoch.
pub(crate) fn put<G: Pages>(
    alloc: Global,
    pages: &mut G,
    key: &[u8],
    value: &[u8],
    store: u32,
) -> Result<(), PairFault>
    requires key { length key.now ≤ 264 }
    requires value { length value.now ≤ 1200 }
    requires store { store < (G.state pages.old).stores }
    ensures goes_on { GoesOn (G.state pages.old) (G.state pages.new) }
    ensures ok { OnOk result (MovesIn (G.state pages.old) (G.state pages.new)
        (CanPut key.now value.now) (with_put key.now value.now)) }
    ensures root { OnOk result (KeepsRoot 1 (G.state pages.old) (G.state pages.new)) }
    ensures fault { IfErr result (PutGivesUpIn (G.state pages.old) (G.state pages.new) (CanPut key.now value.now)) }
{
    let now = match epoch(alloc, pages) {
        Ok(now) => now,
        Err(fault) => return Err(fault),
    };
    let birth = match born(alloc, pages, key) {
        Ok(birth) => birth,
        Err(fault) => return Err(fault),
    };
    match new_record(alloc, key, value, now) {
        Ok(q) => put_record(alloc, pages, &q, birth, store),
        Err(fault) => Err(PairFault::from(fault)),
    }
}

// ---- deletions

/// Ends the live value of a key, which was born then: one that was born in this epoch goes.
fn end_live<G: Pages>(
    alloc: Global,
    pages: &mut G,
    key: &[u8],
    birth: u64,
    now: u64,
) -> Result<(), PairFault>
    ensures goes_on { GoesOn (G.state pages.old) (G.state pages.new) }
    ensures ok { OnOk result (MovesIn (G.state pages.old) (G.state pages.new)
        (Dies key.now birth now) (with_del key.now)) }
    ensures root { OnOk result (KeepsRoot 0 (G.state pages.old) (G.state pages.new)) }
    ensures fault { IfErr result (GivesUpIn (G.state pages.old) (G.state pages.new) (Dies key.now birth now)) }
{
    if birth == now {
        remove_there(alloc, pages, key, birth)
    } else {
        end_there(alloc, pages, key, birth, now)
    }
}

/// Ends the value of a key, as of the epoch, and answers whether there was one.
pub(crate) fn del<G: Pages>(alloc: Global, pages: &mut G, key: &[u8]) -> Result<bool, PairFault>
    ensures goes_on { GoesOn (G.state pages.old) (G.state pages.new) }
    ensures ok { OnOk result (MovesIn (G.state pages.old) (G.state pages.new) HasLives (with_del key.now)) }
    ensures was { IfOk result (λ was. FindsIn (G.state pages.old) (G.state pages.new)
        (λ v. is_some (born (v.lives key.now)) ≡ was)) }
    ensures root { OnOk result (KeepsRoot 0 (G.state pages.old) (G.state pages.new)) }
    ensures fault { IfErr result (GivesUpIn (G.state pages.old) (G.state pages.new) HasLives) }
{
    let now = match epoch(alloc, pages) {
        Ok(now) => now,
        Err(fault) => return Err(fault),
    };
    let birth = match born(alloc, pages, key) {
        Ok(Some(birth)) => birth,
        Ok(None) => return Ok(false),
        Err(fault) => return Err(fault),
    };
    match end_live(alloc, pages, key, birth, now) {
        Ok(()) => Ok(true),
        Err(fault) => Err(fault),
    }
}

// ---- purges

/// Takes away a record, the first of its key that is dead and that some numbers do not see.
pub(crate) fn take<G: Pages>(alloc: Global, pages: &mut G, q: &Quad) -> Result<(), PairFault>
    ensures goes_on { GoesOn (G.state pages.old) (G.state pages.new) }
    ensures ok { OnOk result ((kept : List ℕ) →
        MovesIn (G.state pages.old) (G.state pages.new) (GoesFirst kept q.now) (with_purge kept q.now.key)) }
    ensures root { OnOk result (KeepsRoot 0 (G.state pages.old) (G.state pages.new)) }
    ensures fault { IfErr result (λ fault. (kept : List ℕ) →
        GivesUpIn (G.state pages.old) (G.state pages.new) (GoesFirst kept q.now) fault) }
{
    remove_there(alloc, pages, q.key.as_slice(), q.birth)
}
