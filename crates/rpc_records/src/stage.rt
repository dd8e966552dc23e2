//! What comes next of the present record.

ghost use Rattle.std.specs.Prelude.{◌≡◌, ℕ, ◌+◌, ◌-◌, ◌*◌, ◌<◌, ◌≤◌, ◌++◌, List, length};
ghost use Rattle.rpc_records.specs.Reading.{head_of, fragment_at, record_at};
ghost use Rattle.rpc_records.specs.Progress.{IsUnfinished, reading_of, taken_of};
ghost use Rattle.rpc_records.specs.Stage.{progress_at, IsStage};

use crate::fault::RecordFault;
use crate::limits::{MOST_BYTES, MOST_FRAGMENTS};

/// What comes next of the present record.
#[derive(Clone, Copy, Debug)]
pub(crate) enum Stage {
    /// The rest of a head of which so many bytes have come.
    Head(usize),
    /// So many more bytes of a fragment, at least one, and whether it is the last.
    Fragment(bool, usize),
    /// Nothing: the record is whole.
    Whole,
    /// Nothing: the text is refused.
    Refused(RecordFault),
}

/// The bit of a head that marks the last fragment.
const LAST: u32 = 1 << 31;

/// The stage in a fragment of which so many bytes are left, or behind it where none is.
pub(crate) fn in_fragment(last: bool, left: usize) -> Stage
    ensures reading { (fragments : ℕ) (content head text : List ℕ)
        → reading_of (progress_at result fragments content head) text ≡ fragment_at (record_at fragments) last left content text }
    ensures taken { (fragments : ℕ) (content head : List ℕ) → IsUnfinished (progress_at result fragments content head)
        → taken_of (progress_at result fragments content head) ≡ 4 * (MOST_FRAGMENTS - fragments) + length content }
    ensures stage { (fragments size : ℕ) → fragments < MOST_FRAGMENTS → size + left ≤ MOST_BYTES → IsStage result fragments size }
{
    if left > 0 {
        Stage::Fragment(last, left)
    } else if last {
        Stage::Whole
    } else {
        Stage::Head(0)
    }
}

/// The stage behind a whole head, where so many bytes of content have come and so many fragments may
/// begin.
pub(crate) fn behind_head(head: u32, size: usize, fragments: usize) -> Stage
    requires size { size ≤ MOST_BYTES }
    requires fragments { fragments ≤ MOST_FRAGMENTS }
    ensures reading { (mark content bytes text : List ℕ) → length mark ≡ 4 → head_of mark ≡ head → length content ≡ size
        → reading_of (progress_at result (fragments - 1) content bytes) text ≡ record_at fragments content (mark ++ text) }
    ensures taken { (content bytes : List ℕ) → length content ≡ size
        → IsUnfinished (progress_at result (fragments - 1) content bytes)
        → taken_of (progress_at result (fragments - 1) content bytes) ≡ 4 * (MOST_FRAGMENTS - fragments) + size + 4 }
    ensures stage { IsStage result (fragments - 1) size }
{
    let left = (head % LAST) as usize;
    if fragments == 0 {
        Stage::Refused(RecordFault::TooManyFragments)
    } else if left > MOST_BYTES - size {
        Stage::Refused(RecordFault::TooLong)
    } else {
        in_fragment(head >= LAST, left)
    }
}
