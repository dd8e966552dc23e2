//! What a lawful journal tells a pass of pages.
//!
//! It promises that each pass was told one page of each version ([`lawful_is_steady`]), so that a port over a lawful journal
//! is a steady one. It has a law alone, as the contract of a function that does nothing, and stands on `serial_core` for
//! the law of equal versions and on `steady_port` for what is promised.
//!
//! ```text
//! steady_law::lawful_is_steady::<M>();
//! let journal = fabric.journal();
//! ```
#![tactic(auto)]

ghost use Rattle.std.specs.Prelude.{ℕ, List};
ghost use Rattle.page_types.specs.declared.journal.JEntry.{JEntry};
ghost use Rattle.page_types.specs.Journals.{Origin, own};
ghost use Rattle.serial_rules.specs.Lawful.{IsLawful};
ghost use Rattle.steady_port.specs.Steady.{IsSteady};

use page_types::Meaning;

/// In a lawful journal each pass was told one page of each version.
pub fn lawful_is_steady<M: Meaning>()
    ensures { (origin : Origin) (es : List JEntry) → IsLawful (M.stands origin) M.next origin es →
        (pass : ℕ) → IsSteady (own pass es) }
{}
