//! Search in one page.

ghost use Rattle.std.specs.Prelude.{◌≡◌, ◌<◌, length, slice_get};
ghost use Rattle.btree_search.specs.declared.aim.Aim.TheVariants.{AtOrAfter, After};
ghost use Rattle.btree_page.specs.Content.{Entry, IsPage};
ghost use Rattle.btree_search.specs.Find.{BeginsAt, seeks};

use crate::aim::Aim;
use btree_page::{Cell, PageView};

/// How many cells of a page lie below a key and a birth, so that the cell at this index, if there
/// is one, is the first at or after them. It takes no memory.
pub fn find_in(view: &PageView<'_>, key: &[u8], birth: u64) -> usize
    ensures { BeginsAt AtOrAfter (record { key = key.now; birth = birth }) view.now.cells result }
{
    first_sought(view, Aim::AtOrAfter, key, birth)
}

/// How many cells of a page lie at or below a key and a birth, so that in an inner page the one
/// before this index leads to the child into whose range they fall. It takes no memory.
pub fn find_past(view: &PageView<'_>, key: &[u8], birth: u64) -> usize
    ensures { BeginsAt After (record { key = key.now; birth = birth }) view.now.cells result }
{
    first_sought(view, Aim::After, key, birth)
}

/// How many cells of a page come before those that are sought, by halving.
pub(crate) fn first_sought(view: &PageView<'_>, aim: Aim, key: &[u8], birth: u64) -> usize
    ensures rules { IsPage view.now }
    ensures begins { BeginsAt aim (record { key = key.now; birth = birth }) view.now.cells result }
{
    let mut low = 0;
    let mut high = view.count();
    while low < high {
        let middle = low + (high - low) / 2;
        if is_sought_at(view, middle, aim, key, birth) {
            high = middle;
        } else {
            low = middle + 1;
        }
    }
    low
}

/// Whether the cell at an index is sought.
fn is_sought_at(view: &PageView<'_>, i: usize, aim: Aim, key: &[u8], birth: u64) -> bool
    requires { i < length view.now.cells }
    ensures { (e : Entry) → slice_get view.now.cells i ≡ Some e
        → result ≡ seeks aim (record { key = key.now; birth = birth }) e }
{
    match view.cell(i) {
        Some(
            Cell::Leaf {
                key: at,
                birth: born,
                ..
            },
        )
        | Some(
            Cell::Inner {
                key: at,
                birth: born,
                ..
            },
        ) => { aim.takes(at.cmp(key).then(born.cmp(&birth))) }
        None => true,
    }
}
