//! Lists of entries.

ghost use Rattle.std.specs.Prelude.{◌≡◌, ◌+◌, ◌^◌, ◌<◌, All};
ghost use Rattle.xdr_grammar.specs.Grammar.{Grammar};
ghost use Rattle.std.specs.List.{sum_by};
ghost use Rattle.xdr_grammar.specs.Entries.{entries};
ghost use Rattle.xdr_grammar.specs.Laws.{Laws};
ghost use Rattle.xdr_grammar.specs.Writing.{Puts};
ghost use Rattle.nfs3_types.specs.Replies.{dir_entry, dir_entry_plus};
ghost use Rattle.nfs3_res.specs.Listing.{marked, PutsAll};
ghost use Rattle.nfs3_res.specs.Reading.{GivesOwn};

use crate::fault::ResFault;
use crate::texts::{
    own_post_op_handle, own_text, post_op_handle_size, put_post_op_handle, put_text, text_size,
};
use nfs3_items::{post_op_attr_size, put_post_op_attr, read_post_op_attr};
use nfs3_types::{DirEntry, DirEntryPlus, ListOf, NoMemory};
use std::alloc::Global;
use xdr::{Reader, put_hyper, put_truth};

/// What stands in a list.
pub trait ListItem: Drop {
    ghost grammar: { Grammar Self };

    /// Reads an item.
    fn read(alloc: Global, reader: &mut Reader<'_>) -> Result<Self, ResFault>
        ensures { GivesOwn grammar reader.old reader.new result };

    /// Adds an item.
    fn put(&self, out: &mut Vec<u8>) -> Result<(), NoMemory>
        requires { grammar.Fits self.now }
        ensures { Puts grammar self.now out.old out.new result };

    /// The size of an item.
    fn size(&self) -> usize
        requires { grammar.Fits self.now }
        ensures is { result ≡ grammar.size self.now }
        ensures small { result < 2 ^ 34 };
}

#[tactic(auto, unfolding(nfs3_types::specs::Replies::dir_entry))]
fn read_dir_entry(alloc: Global, reader: &mut Reader<'_>) -> Result<DirEntry, ResFault>
    ensures { GivesOwn dir_entry reader.old reader.new result }
{
    Ok(DirEntry {
        fileid: reader.hyper()?,
        name: own_text(alloc, reader)?,
        cookie: reader.hyper()?,
    })
}

#[tactic(auto, unfolding(nfs3_types::specs::Replies::dir_entry, xdr_grammar::specs::Items::hyper))]
fn put_dir_entry(out: &mut Vec<u8>, entry: &DirEntry) -> Result<(), NoMemory>
    requires { dir_entry.Fits entry.now }
    ensures { Puts dir_entry entry.now out.old out.new result }
{
    put_hyper(out, entry.fileid)?;
    put_text(out, &entry.name)?;
    put_hyper(out, entry.cookie)
}

#[tactic(auto, unfolding(nfs3_types::specs::Replies::dir_entry, xdr_grammar::specs::Items::hyper))]
fn dir_entry_size(entry: &DirEntry) -> usize
    requires { dir_entry.Fits entry.now }
    ensures is { result ≡ dir_entry.size entry.now }
    ensures small { result < 2 ^ 34 }
{
    16 + text_size(&entry.name)
}

impl ListItem for DirEntry {
    ghost grammar = { dir_entry };

    fn read(alloc: Global, reader: &mut Reader<'_>) -> Result<DirEntry, ResFault> {
        read_dir_entry(alloc, reader)
    }

    fn put(&self, out: &mut Vec<u8>) -> Result<(), NoMemory> {
        put_dir_entry(out, self)
    }

    fn size(&self) -> usize {
        dir_entry_size(self)
    }
}

#[tactic(auto, unfolding(nfs3_types::specs::Replies::dir_entry_plus))]
fn read_dir_entry_plus(alloc: Global, reader: &mut Reader<'_>) -> Result<DirEntryPlus, ResFault>
    ensures { GivesOwn dir_entry_plus reader.old reader.new result }
{
    Ok(DirEntryPlus {
        fileid: reader.hyper()?,
        name: own_text(alloc, reader)?,
        cookie: reader.hyper()?,
        attributes: read_post_op_attr(reader)?,
        object: own_post_op_handle(alloc, reader)?,
    })
}

#[tactic(auto, unfolding(nfs3_types::specs::Replies::dir_entry_plus, xdr_grammar::specs::Items::hyper))]
fn put_dir_entry_plus(out: &mut Vec<u8>, entry: &DirEntryPlus) -> Result<(), NoMemory>
    requires { dir_entry_plus.Fits entry.now }
    ensures { Puts dir_entry_plus entry.now out.old out.new result }
{
    put_hyper(out, entry.fileid)?;
    put_text(out, &entry.name)?;
    put_hyper(out, entry.cookie)?;
    put_post_op_attr(out, &entry.attributes)?;
    put_post_op_handle(out, &entry.object)
}

#[tactic(auto, unfolding(nfs3_types::specs::Replies::dir_entry_plus, xdr_grammar::specs::Items::hyper))]
fn dir_entry_plus_size(entry: &DirEntryPlus) -> usize
    requires { dir_entry_plus.Fits entry.now }
    ensures is { result ≡ dir_entry_plus.size entry.now }
    ensures small { result < 2 ^ 34 }
{
    16 + text_size(&entry.name)
        + post_op_attr_size(&entry.attributes)
        + post_op_handle_size(&entry.object)
}

impl ListItem for DirEntryPlus {
    ghost grammar = { dir_entry_plus };

    fn read(alloc: Global, reader: &mut Reader<'_>) -> Result<DirEntryPlus, ResFault> {
        read_dir_entry_plus(alloc, reader)
    }

    fn put(&self, out: &mut Vec<u8>) -> Result<(), NoMemory> {
        put_dir_entry_plus(out, self)
    }

    fn size(&self) -> usize {
        dir_entry_plus_size(self)
    }
}

/// Reads a list to its end.
pub fn read_entries<T: ListItem>(
    alloc: Global,
    reader: &mut Reader<'_>,
) -> Result<ListOf<T>, ResFault>
    requires lawful { Laws T.grammar }
    ensures { GivesOwn (entries T.grammar) reader.old reader.new result }
{
    let mut items = Vec::new(alloc);
    while reader.truth()? {
        let item = T::read(alloc, reader)?;
        items.push(item)?;
    }
    Ok(ListOf::from_vec(items))
}

/// Adds an item behind a true boolean.
#[tactic(auto, unfolding(xdr_grammar::specs::Items::truth, xdr_grammar::specs::Items::word))]
fn put_marked<T: ListItem>(out: &mut Vec<u8>, item: &T) -> Result<(), NoMemory>
    requires { T.grammar.Fits item.now }
    ensures { Puts (marked T.grammar) item.now out.old out.new result }
{
    put_truth(out, true)?;
    item.put(out)
}

/// Adds the items, each behind a true boolean.
#[tactic(auto, unfolding(xdr_grammar::specs::Arrays::items))]
fn put_items<T: ListItem>(out: &mut Vec<u8>, items: &[T]) -> Result<(), NoMemory>
    requires { All T.grammar.Fits items.now }
    ensures { PutsAll (marked T.grammar) items.now out.old out.new result }
{
    for item in items {
        put_marked(out, item)?;
    }
    Ok(())
}

/// Adds a list and its end.
#[tactic(auto, unfolding(xdr_grammar::specs::Entries::entries, xdr_grammar::specs::Arrays::items, xdr_grammar::specs::Items::truth, xdr_grammar::specs::Items::word))]
pub fn put_entries<T: ListItem>(out: &mut Vec<u8>, items: &[T]) -> Result<(), NoMemory>
    requires { (entries T.grammar).Fits items.now }
    ensures { Puts (entries T.grammar) items.now out.old out.new result }
{
    put_items(out, items)?;
    put_truth(out, false)
}

/// The size of the items, each behind a boolean.
fn items_size<T: ListItem>(items: &[T]) -> usize
    requires spelled { All T.grammar.Fits items.now }
    requires short { sum_by (λ x. 4 + T.grammar.size x) items.now < 2 ^ 31 }
    ensures { result ≡ sum_by (λ x. 4 + T.grammar.size x) items.now }
{
    let mut size = 0;
    for item in items {
        size += 4 + item.size();
    }
    size
}

/// The size of a list.
#[tactic(auto, unfolding(xdr_grammar::specs::Entries::entries, xdr_grammar::specs::Items::truth, xdr_grammar::specs::Items::word))]
pub fn entries_size<T: ListItem>(items: &[T]) -> usize
    requires spelled { (entries T.grammar).Fits items.now }
    requires short { (entries T.grammar).size items.now < 2 ^ 31 }
    ensures { result ≡ (entries T.grammar).size items.now }
{
    4 + items_size(items)
}
