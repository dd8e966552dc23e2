//! What a pass's calls leave in a history: each acknowledged call once, in its caller's order, and any other at most once.
//!
//! It promises, of every lawful journal: where a pass's own entries tell of its calls one after another, how each was answered
//! and with which transactions ([`Calls`]), the entries of the history that are of these transactions are those of the
//! acknowledged calls, in their order, and of each other call at most one, whole; a call that was crossed too often has none
//! ([`calls_are_accounted`]). It has definitions, and that law as the contract of a function that does nothing. It stands on
//! `serial_core` for what takes effect, and on `two_phase` for what a pass is told of that.
//!
//! ```text
//! call_accounts::calls_are_accounted::<M>();
//! ```
#![tactic(auto)]

ghost use Rattle.std.specs.Prelude.{List};
ghost use Rattle.page_types.specs.declared.journal.JEntry.{JEntry};
ghost use Rattle.page_types.specs.Journals.{Origin};
ghost use Rattle.serial_rules.specs.Lawful.{IsLawful};
ghost use Rattle.call_accounts.specs.Asked.{Asked};
ghost use Rattle.call_accounts.specs.Calls.{Span, Calls, IsSpanOf};
ghost use Rattle.call_accounts.specs.Accounts.{Accounts, served_in};
ghost use Rattle.call_accounts.specs.Sample.{IsSample};

use page_types::Meaning;

/// In a lawful journal, the history's entries of the transactions that a pass used for its calls are these calls'.
pub fn calls_are_accounted<M: Meaning>()
    ensures { (origin : Origin) (es : List JEntry) (s : Span) (asked : List Asked) →
        IsLawful (M.stands origin) M.next origin es → IsSpanOf es s → Calls s asked → Accounts asked (served_in s origin es) }
{}

/// There are such journals: one with a call that was acknowledged, and one that was not and took effect late.
pub fn some_are_accounted()
    ensures { IsSample }
{}
