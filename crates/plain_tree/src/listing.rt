//! READDIR and READDIRPLUS.

ghost use Rattle.std.specs.Prelude.{◌≡◌, ◌++◌, map, IfOk, OnOk};
ghost use Rattle.fs_rules.specs.Listing as table;
ghost use Rattle.fs_rules.specs.Listing.{behind, entry, entry_plus, listed, listing};
ghost use Rattle.fs_rules.specs.Places.{names_at};
ghost use Rattle.plain_tree.specs.Entries.{size_with};
ghost use Rattle.plain_tree.specs.Giving.{GivesOwn};
ghost use Rattle.plain_tree.specs.Trees.{tree_of};

use crate::checks::need_directory;
use crate::fault::Fault;
use crate::listed::{Listed, count_fitting, push_behind, push_names, push_snapshots};
use crate::looking::above;
use crate::object::Object;
use crate::plain::Plain;
use fs_rules::checks::need;
use fs_rules::limits::MOST_LISTING;
use fs_rules::{Place, may_read};
use nfs3_types::{
    Body, Cred, DirEntry, DirEntryPlus, ListOf, NoMemory, ReadDirArgs, ReadDirOk, ReadDirPlusArgs,
    ReadDirPlusOk, Status, Text,
};
use std::alloc::Global;
use std::marker::Model;

/// The bytes of a result beside its entries.
const BARE_SIZE: u32 = 104;

/// The bytes of an entry of READDIR beside its name.
const ENTRY_SIZE: u32 = 24;

/// The bytes of an entry of READDIRPLUS beside its name.
const ENTRY_PLUS_SIZE: u32 = 144;

/// Whether it is the verifier that every result has: zeros.
fn is_zeros(verifier: &[u8]) -> bool
    ensures { result ≡ table.is_zeros verifier.now }
{
    verifier == [0; 8].as_slice()
}

/// What READDIR tells of a name.
fn entry_of(alloc: Global, e: &Listed) -> Result<DirEntry, NoMemory>
    ensures { IfOk result (λ told. told ≡ entry e.now) }
{
    Ok(DirEntry {
        fileid: e.place.fileid(),
        name: e.name.copy(alloc)?,
        cookie: e.cookie,
    })
}

/// What READDIR tells of names.
fn entries_of(alloc: Global, told: &[Listed]) -> Result<Vec<DirEntry>, NoMemory>
    ensures { IfOk result (λ entries. entries.items ≡ map entry told.now) }
{
    let mut entries = Vec::with_capacity(alloc, told.len())?;
    for e in told {
        entries.push(entry_of(alloc, e)?)?;
    }
    Ok(entries)
}

/// What READDIRPLUS tells of a name.
fn entry_plus_of(alloc: Global, tree: &Plain, e: &Listed) -> Result<DirEntryPlus, NoMemory>
    ensures { IfOk result (λ told. told ≡ entry_plus (tree_of tree.now) e.now) }
{
    Ok(DirEntryPlus {
        fileid: e.place.fileid(),
        name: e.name.copy(alloc)?,
        cookie: e.cookie,
        attributes: tree.shown(e.place),
        object: Some(tree.handle_at(alloc, e.place)?),
    })
}

/// What READDIRPLUS tells of names.
fn entries_plus_of(
    alloc: Global,
    tree: &Plain,
    told: &[Listed],
) -> Result<Vec<DirEntryPlus>, NoMemory>
    ensures { IfOk result (λ entries. entries.items ≡ map (entry_plus (tree_of tree.now)) told.now) }
{
    let mut entries = Vec::with_capacity(alloc, told.len())?;
    for e in told {
        entries.push(entry_plus_of(alloc, tree, e)?)?;
    }
    Ok(entries)
}

/// A directory, the entries of it that are told, and whether the listing ends with them.
#[derive(Drop)]
pub struct Page {
    /// The directory.
    pub directory: Object,
    /// What is told of its listing.
    pub told: Vec<Listed>,
    /// Whether the listing ends with it.
    pub eof: bool,
}

impl Model for Page {
    ghost use Rattle.fs_rules.specs.Listing.{Page};

    ghost Value = { Page };

    ghost view = { λ p. record {
      directory = p.directory;
      told = p.told.items;
      eof = p.eof;
    } };
}

/// Of what is left of a directory's listing as much as fits; TOOSMALL where nothing of something does.
#[tactic(auto, unfolding(fs_rules::specs::Listing::page_behind, fs_rules::specs::Listing::page_of, fs_rules::specs::Limits::most_listing), using(crate::proofs::Fitted::take_fitting))]
fn page_behind(
    directory: Object,
    bare: u32,
    count: u32,
    mut left: Vec<Listed>,
) -> Result<Page, Status>
    ensures { result ≡ table.page_behind directory (size_with bare) count left.items }
{
    let limit = count.min(MOST_LISTING);
    if limit < BARE_SIZE {
        return Err(Status::TooSmall);
    }
    let fitting = count_fitting(&left, bare, limit - BARE_SIZE);
    if !left.is_empty() && fitting == 0 {
        return Err(Status::TooSmall);
    }
    let eof = fitting == left.len();
    left.truncate(fitting);
    Ok(Page {
        directory,
        told: left,
        eof,
    })
}

impl Plain {
    /// Puts in the names of a directory that are listed behind a cookie.
    #[tactic(auto, unfolding(fs_rules::specs::Places::node_at, fs_rules::specs::Places::snapshot_directory))]
    fn push_names_at(
        &self,
        alloc: Global,
        entries: &mut Vec<Listed>,
        cookie: u64,
        directory: Place,
    ) -> Result<(), NoMemory>
        ensures { OnOk result (entries.new.items ≡ entries.old.items
            ++ behind cookie (map (listed directory) (names_at (tree_of self.now) directory))) }
    {
        match directory {
            Place::Live(fileid) => match self.nodes.get(fileid) {
                Some(node) => push_names(alloc, entries, cookie, directory, &node.names),
                None => Ok(()),
            },
            Place::SnapshotDirectory => push_snapshots(alloc, entries, cookie, &self.snapshots),
            Place::Kept(number, fileid) => match self.kept_node(number, fileid) {
                Some(node) => push_names(alloc, entries, cookie, directory, &node.names),
                None => Ok(()),
            },
        }
    }

    /// What a directory lists behind a cookie.
    #[tactic(auto, unfolding(fs_rules::specs::Listing::listing))]
    fn listed_behind(&self, alloc: Global, o: &Object, cookie: u64) -> Result<Vec<Listed>, NoMemory>
        ensures { IfOk result (λ entries. entries.items ≡ behind cookie (listing (tree_of self.now) o.now)) }
    {
        let mut entries = Vec::new(alloc);
        let itself = Listed {
            cookie: 1,
            name: Text::from_slice(alloc, b".")?,
            place: o.place,
        };
        push_behind(&mut entries, cookie, itself)?;
        let parent = Listed {
            cookie: 2,
            name: Text::from_slice(alloc, b"..")?,
            place: above(o.place, &o.inode),
        };
        push_behind(&mut entries, cookie, parent)?;
        self.push_names_at(alloc, &mut entries, cookie, o.place)?;
        Ok(entries)
    }

    /// The entries of a directory that are told: those behind the cookie, as many as fit, where an entry says so
    /// many bytes beside its name.
    #[tactic(auto, unfolding(fs_rules::specs::Listing::page))]
    fn page(
        &self,
        alloc: Global,
        cred: &Cred,
        bare: u32,
        directory: &[u8],
        cookie: u64,
        verifier: &[u8],
        count: u32,
    ) -> Result<Page, Fault>
        ensures { GivesOwn (table.page (tree_of self.now) cred.now (size_with bare) (record {
          directory = directory.now;
          cookie =
              cookie;
          verifier = verifier.now;
          count = count;
        })) result }
    {
        let o = self.find_object(directory)?;
        need_directory(&o)?;
        need(may_read(cred, &o.inode), Status::Acces)?;
        need(cookie == 0 || is_zeros(verifier), Status::BadCookie)?;
        let left = self.listed_behind(alloc, &o, cookie)?;
        Ok(page_behind(o, bare, count, left)?)
    }

    /// READDIR.
    #[tactic(auto, unfolding(fs_rules::specs::Listing::read_dir))]
    pub(crate) fn read_dir(
        &self,
        alloc: Global,
        cred: &Cred,
        a: &ReadDirArgs<Text>,
    ) -> Result<Body, Fault>
        ensures { GivesOwn (table.read_dir (tree_of self.now) cred.now a.now) result }
    {
        let page = self.page(
            alloc,
            cred,
            ENTRY_SIZE,
            a.directory.as_slice(),
            a.cookie,
            &a.verifier,
            a.count,
        )?;
        let entries = entries_of(alloc, &page.told)?;
        Ok(Body::ReadDir(ReadDirOk {
            attributes: Some(self.attributes(&page.directory)),
            verifier: [0; 8],
            entries: ListOf::from_vec(entries),
            eof: page.eof,
        }))
    }

    /// READDIRPLUS.
    #[tactic(auto, unfolding(fs_rules::specs::Listing::read_dir_plus))]
    pub(crate) fn read_dir_plus(
        &self,
        alloc: Global,
        cred: &Cred,
        a: &ReadDirPlusArgs<Text>,
    ) -> Result<Body, Fault>
        ensures { GivesOwn (table.read_dir_plus (tree_of self.now) cred.now a.now) result }
    {
        let page = self.page(
            alloc,
            cred,
            ENTRY_PLUS_SIZE,
            a.directory.as_slice(),
            a.cookie,
            &a.verifier,
            a.maxcount,
        )?;
        let entries = entries_plus_of(alloc, self, &page.told)?;
        Ok(Body::ReadDirPlus(ReadDirPlusOk {
            attributes: Some(self.attributes(&page.directory)),
            verifier: [0; 8],
            entries: ListOf::from_vec(entries),
            eof: page.eof,
        }))
    }
}
