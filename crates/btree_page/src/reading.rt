//! The fields of a page, read from left to right.

ghost use Rattle.std.specs.Prelude.{◌≡◌, length, IfOk};
ghost use Rattle.std.specs.Int.{w8, w16, w32, w64};
ghost use Rattle.btree_page.specs.Cells.{entry_of, edge_of};
ghost use Rattle.btree_page.specs.Reading.{Gives, part_at, number_at, string_at, rest_at, entry_at, plain_at, head_at, key_limit};
ghost use Rattle.btree_page.specs.Reading.{may_follow};

use crate::cell::{Bound, Cell};
use crate::format::PageFormat;
use cursor::Cursor;
use pair_types::Slot;

/// The longest key.
const KEY_LIMIT: usize = 264;

/// The longest value.
const VALUE_LIMIT: usize = 1200;

/// The next bytes, this many.
#[tactic(auto, unfolding(crate::specs::Reading::part_at))]
#[inline(always)]
fn part<'a>(cursor: &mut Cursor<'a>, n: usize) -> Result<&'a [u8], PageFormat>
    ensures len { IfOk result (λ part. length part.now ≡ n) }
    ensures gives { Gives (λ part. part.now) (part_at n) cursor.old cursor.new result }
    ensures text { cursor.new.text ≡ cursor.old.text }
{
    let place = cursor.place();
    match cursor.part(n) {
        Some(part) => Ok(part),
        None => Err(PageFormat::Malformed(place)),
    }
}

/// A number of one byte.
#[tactic(auto, unfolding(crate::specs::Reading::number_at))]
#[inline(always)]
fn byte(cursor: &mut Cursor<'_>) -> Result<u8, PageFormat>
    ensures gives { Gives (λ x. x) (number_at w8) cursor.old cursor.new result }
    ensures text { cursor.new.text ≡ cursor.old.text }
{
    let bytes = part(cursor, 1)?;
    Ok(u8::from_be_bytes([bytes[0]]))
}

/// A number of two bytes, the highest first.
#[tactic(auto, unfolding(crate::specs::Reading::number_at))]
#[inline(always)]
fn short(cursor: &mut Cursor<'_>) -> Result<u16, PageFormat>
    ensures gives { Gives (λ x. x) (number_at w16) cursor.old cursor.new result }
    ensures text { cursor.new.text ≡ cursor.old.text }
{
    let bytes = part(cursor, 2)?;
    Ok(u16::from_be_bytes([bytes[0], bytes[1]]))
}

/// A number of four bytes, the highest first.
#[tactic(auto, unfolding(crate::specs::Reading::number_at))]
#[inline(always)]
fn word(cursor: &mut Cursor<'_>) -> Result<u32, PageFormat>
    ensures gives { Gives (λ x. x) (number_at w32) cursor.old cursor.new result }
    ensures text { cursor.new.text ≡ cursor.old.text }
{
    let bytes = part(cursor, 4)?;
    Ok(u32::from_be_bytes([bytes[0], bytes[1], bytes[2], bytes[3]]))
}

/// A number of eight bytes, the highest first.
#[tactic(auto, unfolding(crate::specs::Reading::number_at))]
#[inline(always)]
fn hyper(cursor: &mut Cursor<'_>) -> Result<u64, PageFormat>
    ensures gives { Gives (λ x. x) (number_at w64) cursor.old cursor.new result }
    ensures text { cursor.new.text ≡ cursor.old.text }
{
    let bytes = part(cursor, 8)?;
    Ok(u64::from_be_bytes([
        bytes[0], bytes[1], bytes[2], bytes[3], bytes[4], bytes[5], bytes[6], bytes[7],
    ]))
}

/// Two bytes of length, and that many bytes.
#[tactic(auto, unfolding(crate::specs::Reading::string_at))]
#[inline(always)]
fn string<'a>(cursor: &mut Cursor<'a>, limit: usize) -> Result<&'a [u8], PageFormat>
    ensures gives { Gives (λ part. part.now) (string_at limit) cursor.old cursor.new result }
    ensures text { cursor.new.text ≡ cursor.old.text }
{
    let place = cursor.place();
    let n = usize::from(short(cursor)?);
    if n > limit {
        return Err(PageFormat::Malformed(place));
    }
    part(cursor, n)
}

/// The rest of a cell whose key and birth were read.
#[tactic(auto, unfolding(crate::specs::Reading::rest_at, crate::specs::Reading::body_at))]
#[inline(always)]
fn rest<'a>(
    cursor: &mut Cursor<'a>,
    is_leaf: bool,
    key: &'a [u8],
    birth: u64,
) -> Result<Cell<'a>, PageFormat>
    ensures gives { Gives (λ cell. (entry_of cell)) (rest_at is_leaf key.now birth) cursor.old cursor.new result }
    ensures text { cursor.new.text ≡ cursor.old.text }
{
    if is_leaf {
        let death = hyper(cursor)?;
        let value = string(cursor, VALUE_LIMIT)?;
        Ok(Cell::Leaf {
            key,
            birth,
            death,
            value,
        })
    } else {
        let store = word(cursor)?;
        let number = hyper(cursor)?;
        Ok(Cell::Inner {
            key,
            birth,
            child: Slot { store, number },
        })
    }
}

/// Whether a cell with this key and birth may follow the one before it.
#[inline(always)]
fn may_follow(is_leaf: bool, before: Option<Bound<'_>>, key: &[u8], birth: u64) -> bool
    ensures { result ≡ may_follow is_leaf (edge_of before.entry) key.now birth }
{
    match before {
        Some(before) => before.key.cmp(key).then(before.birth.cmp(&birth)).is_lt(),
        None => is_leaf || birth == 0,
    }
}

/// How long a key may be after the cell before it.
#[inline(always)]
fn key_limit(is_leaf: bool, before: Option<Bound<'_>>) -> usize
    ensures { result ≡ key_limit is_leaf (edge_of before.entry) }
{
    if !is_leaf && before.is_none() {
        0
    } else {
        KEY_LIMIT
    }
}

/// The next cell.
#[tactic(auto, unfolding(crate::specs::Reading::entry_at))]
#[inline(always)]
pub(crate) fn cell<'a>(
    cursor: &mut Cursor<'a>,
    is_leaf: bool,
    before: Option<Bound<'_>>,
) -> Result<Cell<'a>, PageFormat>
    ensures gives { Gives (λ cell. entry_of cell) (entry_at is_leaf (edge_of before.entry)) cursor.old cursor.new result }
    ensures text { cursor.new.text ≡ cursor.old.text }
{
    let key = string(cursor, key_limit(is_leaf, before))?;
    let place = cursor.place();
    let birth = hyper(cursor)?;
    if !may_follow(is_leaf, before, key, birth) {
        return Err(PageFormat::Malformed(place));
    }
    rest(cursor, is_leaf, key, birth)
}

/// A cell wherever it stands, without the order of cells.
#[tactic(auto, unfolding(crate::specs::Reading::plain_at))]
#[inline(always)]
pub(crate) fn plain<'a>(cursor: &mut Cursor<'a>, is_leaf: bool) -> Result<Cell<'a>, PageFormat>
    ensures gives { Gives (λ cell. entry_of cell) (plain_at is_leaf) cursor.old cursor.new result }
{
    let key = string(cursor, KEY_LIMIT)?;
    let birth = hyper(cursor)?;
    rest(cursor, is_leaf, key, birth)
}

/// The level of a page and the number of its cells.
#[tactic(auto, unfolding(crate::specs::Reading::head_at))]
pub(crate) fn head(cursor: &mut Cursor<'_>) -> Result<(u8, u16), PageFormat>
    ensures gives { Gives (λ head. (head.0, head.1)) head_at cursor.old cursor.new result }
    ensures text { cursor.new.text ≡ cursor.old.text }
{
    let place = cursor.place();
    if byte(cursor)? != 1 {
        return Err(PageFormat::Malformed(place));
    }
    let level = byte(cursor)?;
    let place = cursor.place();
    let count = short(cursor)?;
    if level != 0 && count < 2 {
        return Err(PageFormat::Malformed(place));
    }
    Ok((level, count))
}
