//! Pages made of cells.

ghost use Rattle.std.specs.Prelude.{◌≡◌, ◌<◌, ◌≤◌, ◌^◌, length, map, All, IfOk};
ghost use Rattle.std.specs.List.{remove};
ghost use Rattle.btree_page.specs.Content.{IsNext, IsPage, Spells, with_cell, spelling, entry_spelling};
ghost use Rattle.btree_page.specs.Cells.{entry_of};
ghost use Rattle.btree_edit.specs.Made.{size, with_one, headed, behind, IsShort, IsNearly, IsMiddle, IsTwo, IsMadeOf};

use crate::outcome::Edited;
use btree_page::{Cell, PageBuilder, PageView};
use nfs3_types::NoMemory;
use pair_types::{Key, Page};
use std::alloc::Global;

/// How many bytes of cells a page holds.
const CELL_BYTES: usize = 8188;

/// About half of them.
const HALF: usize = 4096;

/// The cells of a page.
fn cells_of<'a>(alloc: Global, view: &PageView<'a>) -> Result<Vec<Cell<'a>>, NoMemory>
    ensures cells { IfOk result (λ cells. map entry_of cells.items ≡ view.now.cells) }
    ensures rules { IsPage view.now }
{
    let mut cells = Vec::with_capacity(alloc, view.count())?;
    for i in 0..view.count() {
        let cell = view.cell(i).unwrap();
        cells.push(cell)?;
    }
    Ok(cells)
}

/// The cells of a page, in which this one stands in the place of those from one index up to another.
fn spliced<'a>(
    alloc: Global,
    view: &PageView<'a>,
    at: usize,
    past: usize,
    cell: &Cell<'a>,
) -> Result<Vec<Cell<'a>>, NoMemory>
    requires order { at ≤ past }
    requires within { past ≤ length view.now.cells }
    ensures { IfOk result (λ cells. map entry_of cells.items ≡ with_one view.now.cells at past (entry_of cell.now)) }
{
    let old = cells_of(alloc, view)?;
    let mut cells = Vec::with_capacity(alloc, old.len() + 1)?;
    cells.extend_from_slice(&old[..at])?;
    cells.push(*cell)?;
    cells.extend_from_slice(&old[past..])?;
    Ok(cells)
}

/// The page of a view, in which this cell stands in the place of those from one index up to another: what
/// lies before and behind it is taken over byte by byte.
fn one_page(
    alloc: Global,
    view: &PageView<'_>,
    at: usize,
    past: usize,
    cell: &Cell<'_>,
) -> Result<Page, NoMemory>
    requires order { at ≤ past }
    requires within { past ≤ length view.now.cells }
    requires rules { IsPage (record { level = view.now.level; cells = with_one view.now.cells at past (entry_of cell.now) }) }
    ensures { IfOk result (λ page. Spells (record {
      level = view.now.level;
      cells =
          with_one view.now.cells at past (entry_of cell.now);
    }) page) }
{
    let mut builder = PageBuilder::new(alloc, view.level())?;
    builder.add_run(view, 0, at);
    add(&mut builder, cell);
    builder.add_run(view, past, view.count());
    builder.finish()
}

/// The page of a view, in which this cell stands in the place of those from one index up to another, or two
/// pages where one has no room.
pub(crate) fn put_in<'a>(
    alloc: Global,
    view: &PageView<'a>,
    at: usize,
    past: usize,
    cell: &Cell<'a>,
) -> Result<Edited, NoMemory>
    requires order { at ≤ past }
    requires within { past ≤ length view.now.cells }
    requires nearly { IsNearly view.now.level (with_one view.now.cells at past (entry_of cell.now)) }
    ensures { IfOk result (λ edited. IsMadeOf view.now.level (with_one view.now.cells at past (entry_of cell.now)) edited) }
{
    let kept = view.run(0, at).len() + view.run(past, view.count()).len();
    if kept + size_of(cell) <= CELL_BYTES {
        let page = one_page(alloc, view, at, past, cell)?;
        return Ok(Edited::Page(page));
    }
    let cells = spliced(alloc, view, at, past, cell)?;
    pages_of(alloc, view.level(), &cells)
}

/// The page of a view without the cell at an index.
pub(crate) fn without(alloc: Global, view: &PageView<'_>, at: usize) -> Result<Page, NoMemory>
    requires within { at < length view.now.cells }
    requires rules { IsPage (record { level = view.now.level; cells = remove view.now.cells at }) }
    ensures { IfOk result (λ page. Spells (record { level = view.now.level; cells = remove view.now.cells at }) page) }
{
    let mut builder = PageBuilder::new(alloc, view.level())?;
    builder.add_run(view, 0, at);
    builder.add_run(view, at + 1, view.count());
    builder.finish()
}

/// Adds a cell for which there is room.
fn add(builder: &mut PageBuilder, cell: &Cell<'_>)
    requires next { IsNext builder.old (entry_of cell.now) }
    requires room { length (spelling (with_cell builder.old (entry_of cell.now))) ≤ 8192 }
    ensures { builder.new ≡ with_cell builder.old (entry_of cell.now) }
{
    match *cell {
        Cell::Leaf {
            key,
            birth,
            death,
            value,
        } => builder.add_leaf(key, birth, death, value).unwrap(),
        Cell::Inner { key, birth, child } => builder.add_inner(key, birth, child).unwrap(),
    }
}

/// The page of a level with these cells.
pub(crate) fn build(alloc: Global, level: u32, cells: &[Cell<'_>]) -> Result<Page, NoMemory>
    requires { IsPage (record { level = level; cells = map entry_of cells.now }) }
    ensures { IfOk result (λ page. Spells (record { level = level; cells = map entry_of cells.now }) page) }
{
    let mut builder = PageBuilder::new(alloc, level)?;
    for cell in cells {
        add(&mut builder, cell);
    }
    builder.finish()
}

/// The page of a level with these cells, of which the first one of an inner page loses its bound.
fn build_behind(alloc: Global, level: u32, cells: &[Cell<'_>]) -> Result<Page, NoMemory>
    requires some { 0 < length cells.now }
    requires rules { IsPage (record { level = level; cells = behind (map entry_of cells.now) }) }
    ensures { IfOk result (λ page. Spells (record { level = level; cells = behind (map entry_of cells.now) }) page) }
{
    let mut all = Vec::from_slice(alloc, cells)?;
    all[0] = without_bound(&cells[0]);
    build(alloc, level, &all)
}

/// A cell as the first one of its page.
fn without_bound<'a>(cell: &Cell<'a>) -> Cell<'a>
    ensures { entry_of result ≡ headed (entry_of cell.now) }
{
    match *cell {
        Cell::Leaf { .. } => *cell,
        Cell::Inner { child, .. } => Cell::Inner {
            key: b"",
            birth: 0,
            child,
        },
    }
}

/// How many bytes a cell takes.
fn size_of(cell: &Cell<'_>) -> usize
    requires { IsShort (entry_of cell.now) }
    ensures { result ≡ length (entry_spelling (entry_of cell.now)) }
{
    match *cell {
        Cell::Leaf { key, value, .. } => 20 + key.len() + value.len(),
        Cell::Inner { key, .. } => 22 + key.len(),
    }
}

/// How many cells make up half of a page.
fn middle_of(cells: &[Cell<'_>]) -> usize
    requires { All IsShort (map entry_of cells.now) }
    ensures { IsMiddle (map entry_of cells.now) result }
{
    let mut taken = 0;
    for (i, cell) in cells.iter().enumerate() {
        if taken >= HALF {
            return i;
        }
        taken += size_of(cell);
    }
    cells.len()
}

/// How many bytes cells take.
fn bytes_of(cells: &[Cell<'_>]) -> usize
    requires short { All IsShort (map entry_of cells.now) }
    requires few { size (map entry_of cells.now) < 2 ^ 32 }
    ensures { result ≡ size (map entry_of cells.now) }
{
    let mut taken = 0;
    for cell in cells {
        taken += size_of(cell);
    }
    taken
}

/// Two pages, of which the second one begins with this cell.
fn two(alloc: Global, left: Page, edge: &Cell<'_>, right: Page) -> Result<Edited, NoMemory>
    ensures { IfOk result (λ edited. IsTwo left (entry_of edge.now) right edited) }
{
    match *edge {
        Cell::Leaf { key, birth, .. } | Cell::Inner { key, birth, .. } => {
            let key = Key::from_slice(alloc, key)?;
            Ok(Edited::Two {
                left,
                key,
                birth,
                right,
            })
        }
    }
}

/// The page of a level with these cells, or two where one has no room for them.
fn pages_of(alloc: Global, level: u32, cells: &[Cell<'_>]) -> Result<Edited, NoMemory>
    requires { IsNearly level (map entry_of cells.now) }
    ensures { IfOk result (λ edited. IsMadeOf level (map entry_of cells.now) edited) }
{
    if bytes_of(cells) <= CELL_BYTES {
        let page = build(alloc, level, cells)?;
        return Ok(Edited::Page(page));
    }
    let (front, back) = cells.split_at(middle_of(cells));
    let left = build(alloc, level, front)?;
    let right = build_behind(alloc, level, back)?;
    two(alloc, left, &back[0], right)
}
