//! The serial law: whatever commands of however many passes interleave at the stores, with commands in doubt, commands
//! that are settled late and transactions that nobody ends, a lawful journal is one history.
//!
//! It promises, of every lawful journal: each transaction that takes effect read what is committed and writes that alone,
//! each other entry leaves the committed pages, the calls in order are a legal history, and the committed pages stand for
//! its last state ([`serial`]); a transaction takes effect at most once; versions only rise, and a page of the same version
//! is the same page. A journal in which each pass keeps its own entries fair is lawful ([`fair_is_lawful`]). It has laws
//! alone, as contracts of functions that do nothing, and stands on `serial_rules`.
//!
//! ```text
//! serial_core::fair_is_lawful::<M>();
//! serial_core::serial::<M>();
//! ```
#![tactic(auto)]

ghost use Rattle.std.specs.Prelude.{ℕ, List, ◌++◌};
ghost use Rattle.page_types.specs.declared.journal.JEntry.{JEntry};
ghost use Rattle.page_types.specs.Journals.{Origin, own};
ghost use Rattle.serial_rules.specs.Worlds.{replay, first_world};
ghost use Rattle.serial_rules.specs.Committed.{shown};
ghost use Rattle.serial_rules.specs.Lawful.{Answered, FairList, IsLawful};
ghost use Rattle.serial_rules.specs.Serial.{IsSerial};
ghost use Rattle.serial_rules.specs.Versions.{VersionsRise, AreSameAtVersions};
ghost use Rattle.serial_rules.specs.Once.{EachOnce};
ghost use Rattle.serial_rules.specs.Sample.{IsSample};

use page_types::Meaning;

/// A lawful journal is serial, from the state that the first page stands for.
pub fn serial<M: Meaning>()
    ensures { (origin : Origin) (first : M.State) (es : List JEntry) → M.stands origin (shown (first_world origin)) first →
        IsLawful (M.stands origin) M.next origin es → IsSerial (M.stands origin) M.next origin first es }
{}

/// In a lawful journal a transaction takes effect at most once.
pub fn each_once<M: Meaning>()
    ensures { (origin : Origin) (es : List JEntry) → IsLawful (M.stands origin) M.next origin es → EachOnce origin es }
{}

/// As a lawful journal grows, no version falls.
pub fn versions_rise<M: Meaning>()
    ensures { (origin : Origin) (later es : List JEntry) → IsLawful (M.stands origin) M.next origin (later ++ es) →
        VersionsRise (replay origin es) (replay origin (later ++ es)) }
{}

/// As a lawful journal grows, a page of the same version is the same page.
pub fn equal_versions<M: Meaning>()
    ensures { (origin : Origin) (later es : List JEntry) → IsLawful (M.stands origin) M.next origin (later ++ es) →
        AreSameAtVersions (replay origin es) (replay origin (later ++ es)) }
{}

/// A journal is lawful where the answers are the stores' and each pass's own entries are fair.
pub fn fair_is_lawful<M: Meaning>()
    ensures { (origin : Origin) (es : List JEntry) → Answered origin es →
        ((pass : ℕ) → FairList (M.stands origin) M.next origin.stores (own pass es)) →
        IsLawful (M.stands origin) M.next origin es }
{}

/// There are lawful journals: one of two stores, with a hold that stands, a command that was settled late, and a call in
/// its history.
pub fn some_are_lawful()
    ensures { IsSample }
{}
