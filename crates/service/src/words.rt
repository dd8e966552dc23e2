//! The words of the command line.

ghost use Rattle.std.specs.Prelude.{◌≡◌, IfOk, Some};
ghost use Rattle.service.specs.Run.{means_feed, means_plain_feed};

use fss_words::{Wanted, WordsFault, read_words};
use nfs3_types::NoMemory;
use std::alloc::Global;

/// Whether this is `feed`.
fn is_feed(wanted: &Wanted) -> bool
    ensures { means_feed (Some wanted.now) ≡ result }
{
    match wanted {
        Wanted::Feed { .. } => true,
        Wanted::Work { .. } => false,
        Wanted::Serve(_) => false,
    }
}

/// Whether the words are the one command that there is, `feed` without a shape of stores.
pub fn is_plain_feed(alloc: Global, words: &[String]) -> Result<bool, NoMemory>
    ensures { IfOk result (λ is. means_plain_feed words.now ≡ is) }
{
    match read_words(alloc, words) {
        Ok(wanted) => Ok(is_feed(&wanted) && words.len() <= 2),
        Err(WordsFault::Usage) => Ok(false),
        Err(WordsFault::NoMemory) => Err(NoMemory),
    }
}
