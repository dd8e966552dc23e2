//! What a transaction knows of a slot.

ghost use Rattle.std.specs.Prelude.{◌≡◌, None};
ghost use Rattle.page_txn.specs.Asking.{content_read};

use pair_types::Page;

/// What a transaction knows of a slot.
#[derive(Debug, Drop)]
pub struct Row {
    /// The version that was read.
    pub version: u64,
    /// What was read; nothing where the slot is absent.
    pub content: Option<Page>,
    /// What is written.
    pub written: Option<Page>,
}

/// What was read, by what was answered.
pub(crate) fn row_of(version: u64, content: Page) -> Row
    ensures version { result.version ≡ version }
    ensures content { result.content ≡ content_read version content }
    ensures written { result.written ≡ None }
{
    let content = if version == 0 { None } else { Some(content) };
    Row {
        version,
        content,
        written: None,
    }
}

/// What is known of an absent slot.
pub(crate) fn absent() -> Row
    ensures version { result.version ≡ 0 }
    ensures content { result.content ≡ None }
    ensures written { result.written ≡ None }
{
    Row {
        version: 0,
        content: None,
        written: None,
    }
}
