//! A page, seen as its cells.

ghost use Rattle.std.specs.Prelude.{◌≡◌, ◌+◌, ◌-◌, ◌*◌, ◌<◌, ◌≤◌, ◌↔◌, length, take, drop, None, slice_get, IsNone, IfSome, IfOk};
ghost use Rattle.std.specs.Prelude.{IfErr, IsOkAnd, OnOk, MatchResult};
ghost use Rattle.btree_page.specs.Content.{Content, IsPage, Spells, entry_spelling};
ghost use Rattle.btree_page.specs.Cells.{entry_of};
ghost use Rattle.btree_page.specs.Reading.{ahead, cells_at, page_at};
ghost use Rattle.btree_page.specs.View.{size_to, IsTable};
ghost use Rattle.std.specs.List.{flat_map};

use crate::cell::{Bound, Cell};
use crate::format::PageFormat;
use crate::reading;
use cursor::Cursor;
use std::marker::Model;

/// The longest page.
const PAGE_LIMIT: usize = 8192;

/// More cells than this have no room in a page: the shortest cell has twenty bytes.
const CELL_ROOM: usize = 410;

/// The part of a text in which the fields of a page may end.
fn front(text: &[u8]) -> &[u8]
    ensures { result.now ≡ take 8192 text.now }
{
    &text[..text.len().min(PAGE_LIMIT)]
}

/// Reads this many cells, and answers the place of each.
fn index(
    cursor: &mut Cursor<'_>,
    is_leaf: bool,
    count: usize,
) -> Result<[u16; CELL_ROOM], PageFormat>
    requires { length cursor.old.text ≤ 8192 }
    ensures table { IfOk result (λ places. IsTable is_leaf count cursor.old cursor.new places) }
    ensures fault { IfErr result (λ fault. cells_at is_leaf count None (ahead cursor.old) ≡ Err fault) }
    ensures text { cursor.new.text ≡ cursor.old.text }
{
    let mut places = [0; CELL_ROOM];
    let mut before = None;
    for i in 0..count {
        places[i] = cursor.place() as u16;
        match reading::cell(cursor, is_leaf, before) {
            Ok(cell) => before = Some(cell.bound()),
            Err(fault) => return Err(fault),
        }
    }
    Ok(places)
}

/// A page, seen as its level and its cells. A contract sees it as its `Content`. It keeps the places
/// of its cells, so that each is found by its index at once; it takes no memory.
#[derive(Drop)]
pub struct PageView<'a> {
    text: &'a [u8],
    level: u8,
    count: u16,
    places: [u16; CELL_ROOM],
}

impl<'a> Model for PageView<'a> {
    ghost use Rattle.std.specs.Prelude.{◌≡◌};
    ghost use Rattle.btree_page.specs.Content.{Content};
    ghost use Rattle.btree_page.specs.View.{content_of, IsIndexed};

    ghost Value = { Content };

    ghost view = { λ page. content_of page.text.now };

    ghost invariant = { λ page. IsIndexed page.text.now page.level page.count page.places };
}

impl<'a> PageView<'a> {
    /// The page that a text is, or the first place where it is none.
    pub fn of(p: &'a [u8]) -> Result<PageView<'a>, PageFormat>
        // What is read is spelled so.
        ensures found { IfOk result (λ view. Spells view p.now) }
        // What is spelled so is read.
        ensures only { (content : Content) → Spells content p.now → IsOkAnd result (λ view. view ≡ content) }
        // Which place it is where the text is no page.
        ensures exact { MatchResult result
            (λ view. page_at p.now ≡ Ok view) (λ fault. page_at p.now ≡ Err fault) }
    {
        let mut cursor = Cursor::new(front(p));
        let (level, count) = match reading::head(&mut cursor) {
            Ok(head) => head,
            Err(fault) => return Err(fault),
        };
        let places = match index(&mut cursor, level == 0, usize::from(count)) {
            Ok(places) => places,
            Err(fault) => return Err(fault),
        };
        let end = cursor.place();
        if end != p.len() {
            return Err(PageFormat::Malformed(end));
        }
        Ok(PageView {
            text: p,
            level,
            count,
            places,
        })
    }

    /// The level of the page: 0 for a leaf. Whatever a view shows keeps the rules of a page.
    pub fn level(&self) -> u32
        ensures level { result ≡ self.now.level }
        ensures byte { result < 256 }
        ensures rules { IsPage self.now }
    {
        u32::from(self.level)
    }

    /// How many cells the page has.
    pub fn count(&self) -> usize
        ensures count { result ≡ length self.now.cells }
        ensures rules { IsPage self.now }
    {
        usize::from(self.count)
    }

    /// The bytes of the cells from one index up to another, as they stand in the page.
    pub fn run(&self, from: usize, to: usize) -> &'a [u8]
        requires order { from ≤ to }
        requires within { to ≤ length self.now.cells }
        ensures bytes { result.now ≡ flat_map entry_spelling (take (to - from) (drop from self.now.cells)) }
        ensures few { to ≤ 410 }
    {
        &self.text[self.place_of(from)..self.place_of(to)]
    }

    /// Where the cell at an index begins, or the page ends.
    fn place_of(&self, i: usize) -> usize
        requires { i ≤ length self.now.cells }
        ensures { result ≡ 4 + size_to i self.now.cells }
    {
        if i < usize::from(self.count) {
            usize::from(self.places[i])
        } else {
            self.text.len()
        }
    }

    /// The cell at an index. `None` exactly where the page has no more than so many cells.
    pub fn cell(&self, i: usize) -> Option<Cell<'a>>
        ensures cell { IfSome result (λ cell. slice_get self.now.cells i ≡ Some (entry_of cell)) }
        ensures none { IsNone result ↔ (length self.now.cells ≤ i) }
    {
        if i >= usize::from(self.count) {
            return None;
        }
        let place = usize::from(self.places[i]);
        let mut cursor = Cursor::new(self.text);
        if cursor.part(place).is_none() {
            return None;
        }
        match reading::plain(&mut cursor, self.level == 0) {
            Ok(cell) => Some(cell),
            Err(_) => None,
        }
    }
}
