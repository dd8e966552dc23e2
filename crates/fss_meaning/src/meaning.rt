//! The meaning.

use page_types::Meaning;

/// Pages stand for a file tree, and each call leads to the tree that the answer table gives.
#[derive(Debug, Clone, Copy, Drop)]
pub struct FssMeaning;

impl Meaning for FssMeaning {
    ghost use Rattle.fs_rules.specs.Tree.{Tree};
    ghost use Rattle.fss_meaning.specs.Meaning.{PagesStand, GoesOn};

    ghost State = { Tree };

    ghost stands = { λ origin pages t. PagesStand origin.stores pages t };

    ghost next = { GoesOn };
}
