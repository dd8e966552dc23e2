//! Pairs of key and value, with their births and deaths, and blocks of bytes, in memory.
//!
//! It is for tests, and shows that what [`Pairs`](pairs::Pairs) and [`Blocks`](pairs::Blocks) promise can be met:
//! [`MemPairs`] promises all of it, of a list of records and a map of blocks that it tells whole. Of the faults it
//! answers want of memory alone, and nothing is undone: there is no transaction below. It stands on `pairs`.
//!
//! ```text
//! let mut pairs = MemPairs::new(alloc, 4);
//! pairs.put(&key, &value)?;
//! let found = pairs.get_at(&key, At::Live)?;
//! let block = pairs.fresh_block(file, 0)?;
//! pairs.write_block(block, &bytes)?;
//! ```
#![tactic(auto)]

mod edits;
mod mem_blocks;
mod mem_pairs;
mod row;
mod scans;

pub use mem_blocks::MemBlocks;
pub use mem_pairs::MemPairs;
