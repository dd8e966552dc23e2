//! Holds: what a prepared transaction keeps of a page until it is resolved.

use crate::copying::copy_parts;
use nfs3_types::{Copies, ListOf, NoMemory};
use pair_types::{Page, Tid};
use std::alloc::Global;

/// A reader's hold: nobody else may write the page.
#[derive(Debug, Drop)]
pub struct Hold {
    /// Whose hold it is.
    pub tid: Tid,
    /// The store at which the transaction is decided.
    pub home: u32,
    /// The stores that take part in the transaction.
    pub parts: ListOf<u32>,
}

/// A writer's hold: nobody else may read or write the page.
#[derive(Debug, Drop)]
pub struct WriteHold {
    /// Whose hold it is, and what it takes part in.
    pub hold: Hold,
    /// What the page is to hold once the transaction is committed.
    pub content: Page,
}

impl Copies for Hold {
    fn copy(&self, alloc: Global) -> Result<Hold, NoMemory> {
        Ok(Hold {
            tid: self.tid,
            home: self.home,
            parts: copy_parts(alloc, &self.parts)?,
        })
    }
}

impl Copies for WriteHold {
    fn copy(&self, alloc: Global) -> Result<WriteHold, NoMemory> {
        Ok(WriteHold {
            hold: self.hold.copy(alloc)?,
            content: self.content.copy()?,
        })
    }
}
