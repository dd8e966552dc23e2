//! Inserts into a tree in memory, and seeks in it.

ghost use Rattle.std.specs.Prelude.{◌≡◌, IfOk};
ghost use Rattle.btree_page.specs.Tree.{IsRecord};
ghost use Rattle.pair_types.specs.MemPages.{state_of};

use crate::counted::Counted;
use crate::keys::key_of;
use anyhow::{Result, bail, ensure};
use btree_edit::insert;
use btree_page::PageBuilder;
use btree_search::{load, seek, view_of};
use pair_types::{Key, MemPages, Pages, Quad, Slot, Value};
use std::alloc::Global;

/// Where the root lies.
const ROOT: Slot = Slot {
    store: 0,
    number: 0,
};

/// The n-th record.
fn record_of(alloc: Global, n: u64) -> Result<Quad>
    ensures { IfOk result (λ q. IsRecord q) }
{
    let key = Key::from_slice(alloc, &key_of(n))?;
    let value = Value::from_slice(alloc, &[b'v'; 100])?;
    Ok(Quad {
        key,
        birth: 1,
        death: u64::MAX,
        value,
    })
}

/// A tree in pages of one store.
#[derive(Drop)]
struct Tree {
    pages: Counted,
    ghost store: { (state_of pages.pages).stores ≡ 1 },
}

impl Tree {
    /// A tree of no records.
    fn new(alloc: Global) -> Result<Tree> {
        let mut pages = Counted {
            pages: MemPages::new(alloc, 1),
            reads: 0,
            writes: 0,
        };
        let root = PageBuilder::new(alloc, 0)?.finish()?;
        pages.write(ROOT, root)?;
        Ok(Tree { pages })
    }

    /// Inserts the n-th record.
    fn insert(&mut self, alloc: Global, n: u64) -> Result<()> {
        let quad = record_of(alloc, n)?;
        insert(alloc, &mut self.pages, &quad, 0)?;
        Ok(())
    }

    /// How many pages there are: slots are taken in rising order, so the next one has that number.
    fn count(&mut self) -> Result<u64> {
        let next = self.pages.fresh(0)?;
        Ok(next.number)
    }
}

/// Inserts the records from 0 to this number.
fn insert_all(alloc: Global, tree: &mut Tree, count: u64) -> Result<()> {
    for n in 0..count {
        tree.insert(alloc, n)?;
    }
    Ok(())
}

/// Seeks the records from 0 to this number, each of which is found.
fn seek_all(alloc: Global, pages: &mut Counted, count: u64) -> Result<()> {
    for n in 0..count {
        let key = key_of(n);
        match seek(alloc, pages, &key, 1)? {
            Some(quad) => ensure!(quad.key.as_slice() == key.as_slice(), "another record"),
            None => bail!("a record is missing"),
        }
    }
    Ok(())
}

/// How many pages a walk from the root to a record meets.
fn depth(pages: &mut Counted) -> Result<u32> {
    let root = load(pages, ROOT)?;
    match view_of(&root, 0, 64) {
        Ok(view) => Ok(view.level() + 1),
        Err(fault) => bail!("{fault}"),
    }
}

/// How many bytes the pages below this number have.
fn bytes_of(pages: &mut Counted, count: u64) -> Result<u64> {
    let mut bytes = 0u64;
    for number in 0..count {
        let page = load(pages, Slot { store: 0, number })?;
        bytes = bytes.saturating_add(page.len() as u64);
    }
    Ok(bytes)
}

/// A quotient with its first two places, rounded down.
fn print_quotient(rt: &impl Print, name: &str, of: u64, by: u64) -> Result<()> {
    let whole = of.checked_div(by).unwrap_or(0);
    let rest = of.checked_rem(by).unwrap_or(0);
    let hundredths = rest.saturating_mul(100).checked_div(by).unwrap_or(0);
    println!(rt; "{name} {whole}.{hundredths:02}")?;
    Ok(())
}

/// Inserts `count` records into an empty tree, then seeks each, and prints a line for each figure.
pub fn measure(rt: &impl Print, alloc: Global, count: u64) -> Result<()> {
    let mut tree = Tree::new(alloc)?;
    insert_all(alloc, &mut tree, count)?;
    println!(rt; "inserts {count}")?;
    let held = tree.count()?;
    let mut pages = tree.pages;
    let reads = pages.reads;
    // The empty root was written first.
    let writes = pages.writes.saturating_sub(1);
    seek_all(alloc, &mut pages, count)?;
    println!(rt; "seeks {count}")?;
    let sought = pages.reads.saturating_sub(reads);
    println!(rt; "depth {}", depth(&mut pages)?)?;
    println!(rt; "pages {held}")?;
    print_quotient(rt, "bytes per record", bytes_of(&mut pages, held)?, count)?;
    print_quotient(rt, "pages read per insert", reads, count)?;
    print_quotient(rt, "pages written per insert", writes, count)?;
    print_quotient(rt, "pages read per seek", sought, count)
}
