//! What holds of every page and every tree. These functions do nothing: each has its law as its
//! contract.

ghost use Rattle.btree_page.specs.Tree.{KeepsTrees, ReachesPages, HasOneList, HasOneContent};
ghost use Rattle.btree_page.specs.Witness.{AreTrees};

/// A text is the spelling of one page at most, so that a page's cells are unique.
pub fn one_content()
    ensures { HasOneContent }
{}

/// A map that is the same at the slots that a tree reaches has that tree.
pub fn keeps_trees()
    ensures { KeepsTrees }
{}

/// No slot that a tree reaches is absent, so that a fresh slot lies outside every tree.
pub fn reaches_pages()
    ensures { ReachesPages }
{}

/// A map stands for one list of records at most, and reaches one list of slots.
pub fn one_list()
    ensures { HasOneList }
{}

/// There are trees: one empty leaf is one, and so are two leaves below a root of level 1.
pub fn small_trees()
    ensures { AreTrees }
{}
