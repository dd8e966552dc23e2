//! Pages made cell by cell.

ghost use Rattle.std.specs.Prelude.{◌≡◌, ◌+◌, ◌^◌, ◌<◌, ◌≤◌, ◌↔◌, ◌++◌, ◌==◌, None, [], length, IfOk, IsErr, OnOk, OnErr};
ghost use Rattle.std.specs.Int.{w64, to_be_bytes};
ghost use Rattle.btree_page.specs.Builder.{with_count};
ghost use Rattle.btree_page.specs.Content.{string, Content, Spells, IsNext, AreCells, with_cell, with_run, leaf_entry};
ghost use Rattle.btree_page.specs.Content.{inner_entry, spelling, entry_spelling};

use crate::view::PageView;
use bytes::BytesMut;
use nfs3_types::NoMemory;
use pair_types::{Page, Slot};
use std::alloc::Global;
use std::marker::Model;
use thiserror::Error;

/// The longest page.
const PAGE_LIMIT: usize = 8192;

/// A cell has no room in the page.
#[derive(Clone, Copy, Debug, PartialEq, Eq, Error)]
#[error("too big for a page")]
pub struct TooBig;

/// A page that is being built. A contract sees it as its `Content` so far. Adding a cell takes no
/// memory.
#[derive(Drop)]
pub struct PageBuilder {
    level: u8,
    count: u16,
    bytes: BytesMut,
}

impl Model for PageBuilder {
    ghost use Rattle.btree_page.specs.Content.{Content};
    ghost use Rattle.btree_page.specs.Builder.{built, IsBuilt};

    ghost Value = { Content };

    ghost view = { λ page. record { level = page.level; cells = built page.level page.count page.bytes.items } };

    ghost invariant = { λ page. IsBuilt page.level page.count page.bytes.items page.bytes.spare };
}

/// Puts a key and a birth where there is room for them.
#[inline(always)]
fn put_head(out: &mut BytesMut, key: &[u8], birth: u64)
    requires key { length key.now ≤ 264 }
    requires room { 10 + length key.now ≤ out.old.spare }
    ensures items { out.new.items ≡ (out.old.items ++ string key.now) ++ to_be_bytes w64 birth }
    ensures spare { out.new.spare + (10 + length key.now) ≡ out.old.spare }
{
    put_string(out, key);
    out.extend_reserved(&birth.to_be_bytes());
}

/// Puts two bytes of length and the bytes where there is room for them.
#[inline(always)]
fn put_string(out: &mut BytesMut, bytes: &[u8])
    requires short { length bytes.now ≤ 1200 }
    requires room { 2 + length bytes.now ≤ out.old.spare }
    ensures items { out.new.items ≡ out.old.items ++ string bytes.now }
    ensures spare { out.new.spare + (2 + length bytes.now) ≡ out.old.spare }
{
    let len = bytes.len() as u16;
    out.extend_reserved(&len.to_be_bytes());
    out.extend_reserved(bytes);
}

/// Puts a record where there is room for it.
#[inline(always)]
fn put_leaf(out: &mut BytesMut, key: &[u8], birth: u64, death: u64, value: &[u8])
    requires key { length key.now ≤ 264 }
    requires value { length value.now ≤ 1200 }
    requires room { 20 + length key.now + length value.now ≤ out.old.spare }
    ensures items { out.new.items ≡ out.old.items ++ entry_spelling (leaf_entry key.now birth death value.now) }
    ensures spare { out.new.spare + (20 + length key.now + length value.now) ≡ out.old.spare }
{
    put_head(out, key, birth);
    out.extend_reserved(&death.to_be_bytes());
    put_string(out, value);
}

/// Puts a child where there is room for it.
#[inline(always)]
fn put_inner(out: &mut BytesMut, key: &[u8], birth: u64, child: Slot)
    requires key { length key.now ≤ 264 }
    requires room { 22 + length key.now ≤ out.old.spare }
    ensures items { out.new.items ≡ out.old.items ++ entry_spelling (inner_entry key.now birth child) }
    ensures spare { out.new.spare + (22 + length key.now) ≡ out.old.spare }
{
    put_head(out, key, birth);
    out.extend_reserved(&child.store.to_be_bytes());
    out.extend_reserved(&child.number.to_be_bytes());
}

/// Writes the number of cells into the head of a page.
fn set_count(bytes: &mut BytesMut, count: u16)
    requires { 4 ≤ length bytes.old.items }
    ensures { bytes.new.items ≡ with_count bytes.old.items count }
{
    let count = count.to_be_bytes();
    let bytes = bytes.as_mut_slice();
    bytes[2] = count[0];
    bytes[3] = count[1];
}

impl PageBuilder {
    /// A page of a level, with no cells.
    pub fn new(alloc: Global, level: u32) -> Result<PageBuilder, NoMemory>
        requires { level ≤ 255 }
        ensures { IfOk result (λ page. page ≡ record { level = level; cells = [] }) }
    {
        let level = level as u8;
        let mut bytes = BytesMut::with_capacity(alloc, PAGE_LIMIT)?;
        bytes.extend_reserved(&[1, level, 0, 0]);
        Ok(PageBuilder {
            level,
            count: 0,
            bytes,
        })
    }

    /// Adds a record to a leaf. `TooBig` exactly where the page would then pass 8,192 bytes, and
    /// then nothing changed.
    pub fn add_leaf(
        &mut self,
        key: &[u8],
        birth: u64,
        death: u64,
        value: &[u8],
    ) -> Result<(), TooBig>
        requires { IsNext self.old (leaf_entry key.now birth death value.now) }
        ensures ok { OnOk result (self.new ≡ with_cell self.old (leaf_entry key.now birth death value.now)) }
        ensures too_big { IsErr result
            ↔ (8192 < length (spelling (with_cell self.old (leaf_entry key.now birth death value.now)))) }
        ensures err { OnErr result (self.new ≡ self.old) }
    {
        if self.bytes.len() + 20 + key.len() + value.len() > PAGE_LIMIT {
            return Err(TooBig);
        }
        put_leaf(&mut self.bytes, key, birth, death, value);
        self.count += 1;
        Ok(())
    }

    /// Adds a child to an inner page. `TooBig` exactly where the page would then pass 8,192 bytes,
    /// and then nothing changed.
    pub fn add_inner(&mut self, key: &[u8], birth: u64, child: Slot) -> Result<(), TooBig>
        requires { IsNext self.old (inner_entry key.now birth child) }
        ensures ok { OnOk result (self.new ≡ with_cell self.old (inner_entry key.now birth child)) }
        ensures too_big { IsErr result
            ↔ (8192 < length (spelling (with_cell self.old (inner_entry key.now birth child)))) }
        ensures err { OnErr result (self.new ≡ self.old) }
    {
        if self.bytes.len() + 22 + key.len() > PAGE_LIMIT {
            return Err(TooBig);
        }
        put_inner(&mut self.bytes, key, birth, child);
        self.count += 1;
        Ok(())
    }

    /// Adds the cells of a page from one index up to another, for which there is room, by their bytes.
    pub fn add_run(&mut self, view: &PageView<'_>, from: usize, to: usize)
        requires order { from ≤ to }
        requires within { to ≤ length view.now.cells }
        requires rules { AreCells (self.old.level == 0) None (with_run self.old view.now from to).cells }
        requires room { length (spelling (with_run self.old view.now from to)) ≤ 8192 }
        ensures { self.new ≡ with_run self.old view.now from to }
    {
        self.bytes.extend_reserved(view.run(from, to));
        self.count += (to - from) as u16;
    }

    /// The page of the cells so far. It keeps no more memory than its bytes fill.
    pub fn finish(self) -> Result<Page, NoMemory>
        requires { 0 < self.level → 2 ≤ length self.cells }
        ensures { IfOk result (λ page. Spells self page) }
    {
        let PageBuilder {
            count,
            mut bytes,
            ..
        } = self;
        set_count(&mut bytes, count);
        Page::from_slice(*bytes.allocator(), bytes.as_slice())
    }
}
