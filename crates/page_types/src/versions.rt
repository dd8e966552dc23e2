//! What a transaction read and what it writes, in one store.

use nfs3_types::{Copies, NoMemory};
use pair_types::Page;
use std::alloc::Global;

/// A page that a transaction read.
#[derive(Clone, Copy, Debug, PartialEq, Eq)]
pub struct PageRead {
    /// The page's number in its store.
    pub number: u64,
    /// The version that was read; 0 is that of a page that was never written.
    pub version: u64,
}

/// A page that a transaction writes.
#[derive(Debug, Drop)]
pub struct PageWrite {
    /// The page's number in its store.
    pub number: u64,
    /// What it is to hold.
    pub content: Page,
}

impl Copies for PageRead {
    fn copy(&self, _alloc: Global) -> Result<PageRead, NoMemory> {
        Ok(*self)
    }
}

impl Copies for PageWrite {
    fn copy(&self, _alloc: Global) -> Result<PageWrite, NoMemory> {
        Ok(PageWrite {
            number: self.number,
            content: self.content.copy()?,
        })
    }
}
