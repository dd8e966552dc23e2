//! The rules of the serial history, definitions alone: which journals of store commands are lawful, what pages they
//! leave committed, which of their entries take effect, and what it is that their history is serial.
//!
//! It promises nothing by itself: `serial_core` proves that lawful journals are serial, and `fabric` that its journal is
//! lawful. It stands on `page_types`, whose rule of a store (`answer_of`, `after`) and whose fair commands it folds over a
//! journal, newest entry first. A contract reads, say:
//!
//! ```text
//! ensures lawful { IsLawful (M.stands (origin_of self)) M.next (origin_of self) (journal_of self) }
//! ```
#![tactic(auto)]
