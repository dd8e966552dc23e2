//! What holds of every way down a tree. The function does nothing: it has the law as its contract.

ghost use Rattle.btree_search.specs.Way.{MeetsRecords};

/// In a tree, the way of a key and a birth leads to a record of the tree that stands at them.
pub fn meets_records()
    ensures { MeetsRecords }
{}
