//! Steps, done on a tree.

ghost use Rattle.btree_page.specs.Tree.{IsRecord};

use crate::step::{self, Step};
use anyhow::{Result, bail, ensure};
use btree_edit::{end, insert, remove, replace};
use btree_page::{PageBuilder, PageView};
use btree_search::{next, seek, seek_back};
use pair_types::{MemPages, Pages, PairFault, Quad, Slot};
use std::alloc::Global;
use std::fmt::Display;

/// Where the root lies.
const ROOT: Slot = Slot {
    store: 0,
    number: 0,
};

/// What is said of a call: the fault's text, or what it answered.
fn told<A: Display + Drop>(alloc: Global, answered: Result<A, PairFault>) -> Result<String> {
    match answered {
        Ok(answer) => Ok(format!(in alloc; "{answer}")?),
        Err(fault) => Ok(format!(in alloc; "{fault}")?),
    }
}

/// What is said of a record that was sought.
fn told_found(alloc: Global, answered: Result<Option<Quad>, PairFault>) -> Result<String> {
    match answered? {
        Some(q) => {
            let key = str::from_utf8(q.key.as_slice())?;
            Ok(format!(in alloc; "{key} {} {} {}", q.birth, q.death, q.value.len())?)
        }
        None => Ok(String::from_str(alloc, "none")?),
    }
}

/// The root's level and number of cells.
fn told_root(alloc: Global, pages: &mut MemPages) -> Result<String> {
    let page = pages.read(ROOT)?;
    match PageView::of(page.as_slice()) {
        Ok(view) => Ok(format!(in alloc; "level {} cells {}", view.level(), view.count())?),
        Err(_) => Ok(String::from_str(alloc, "no page")?),
    }
}

/// The most cells that a leaf is tried with.
const MOST: u64 = 400;

/// How many records of one key, born at 0, 1, 2 and so on, have room in a leaf, and why not one more.
fn fill(alloc: Global, q: &Quad) -> Result<String>
    requires { IsRecord q.now }
{
    let mut page = PageBuilder::new(alloc, 0)?;
    for birth in 0..MOST {
        let added = page.add_leaf(q.key.as_slice(), birth, q.death, q.value.as_slice());
        if let Err(fault) = added {
            return Ok(format!(in alloc; "cells {birth}, {fault}")?);
        }
    }
    Ok(format!(in alloc; "cells {MOST}")?)
}

/// Does a step, and answers what is said of it.
fn run(alloc: Global, pages: &mut MemPages, step: &Step) -> Result<String> {
    ensure!(0 < pages.stores(), "there is no store");
    let q = &step.quad;
    let key = q.key.as_slice();
    match step.word.as_str() {
        "new" => {
            pages.set(ROOT, PageBuilder::new(alloc, 0)?.finish()?)?;
            Ok(String::from_str(alloc, "new")?)
        }
        "fill" => fill(alloc, q),
        "insert" => match insert(alloc, pages, q, 0) {
            Ok(()) => Ok(String::from_str(alloc, "inserted")?),
            Err(fault) => told::<bool>(alloc, Err(fault)),
        },
        "replace" => told(alloc, replace(alloc, pages, q, 0)),
        "remove" => told(alloc, remove(alloc, pages, key, q.birth)),
        "end" => told(alloc, end(alloc, pages, key, q.birth, q.death)),
        "seek" => told_found(alloc, seek(alloc, pages, key, q.birth)),
        "next" => told_found(alloc, next(alloc, pages, key, q.birth)),
        "back" => told_found(alloc, seek_back(alloc, pages, key, q.birth)),
        "root" => told_root(alloc, pages),
        word => bail!("no step is called {word}"),
    }
}

/// Does the step of a line, and answers what is said of it.
pub fn line(alloc: Global, pages: &mut MemPages, line: &str) -> Result<String> {
    let step = step::read(alloc, line)?;
    run(alloc, pages, &step)
}
