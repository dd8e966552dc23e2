//! Slots of pages, their maps, and the records that lie in them.
//!
//! It promises what a page is (a list of bytes), what a transaction over pages has read and written
//! ([`Pages`]: reads are facts about every map that agrees with them, writes lie over it), which
//! faults there are, and a map of pages in memory ([`MemPages`]) that keeps these promises.
//! It stands on `nfs3_types` alone.
#![tactic(auto)]

mod fault;
mod mem_pages;
mod page;
mod pages;
mod quad;
mod slot;
mod texts;

pub use fault::{Cross, PageFault, PairFault, StepFault};
pub use mem_pages::MemPages;
pub use page::Page;
pub use pages::Pages;
pub use quad::Quad;
pub use slot::{Slot, Tid};
pub use texts::{KEY_LIMIT, Key, NAME_LIMIT, Name, VALUE_LIMIT, Value};
