//! The laws of record marking. Their functions do nothing: what is proved is that the clause holds.
//! Proofs of other crates cite the same laws as lemmas of `proofs/`.

ghost use Rattle.std.specs.Prelude.{◌≡◌, ℕ, ◌<◌, ◌≤◌, ◌++◌, All, List, length, Option, Some, None};
ghost use Rattle.std.specs.List.{flat_map};
ghost use Rattle.rpc_records.specs.Reading.{first_record, marked};
ghost use Rattle.rpc_records.specs.Reading.Reading.{Whole, Partial, Refused};
ghost use Rattle.rpc_records.specs.Fragments.{in_fragments, joined, IsInFragments};
ghost use Rattle.xdr_grammar.specs.Laws.{AreBytes};
ghost use Rattle.rpc_records.specs.Marking.{IsShort, marked_from, marking, marking_within, none_whole, with_records};
ghost use Rattle.rpc_records.specs.Progress.{Progress, fresh};
ghost use Rattle.rpc_records.specs.Stream.{Call, Runs, HasRead, FollowsMarking, IsSameReading};
ghost use Rattle.rpc_records.specs.declared.fault.RecordFault.{RecordFault};

use crate::limits::MOST_FRAGMENTS;

/// Record marking goes record by record, and a bound on the records changes nothing where it is at
/// least the number of bytes.
pub fn marking_goes_record_by_record()
    ensures each { (text : List ℕ) → marking text ≡ marked_from marking text (first_record text) }
    ensures bound { (bound : ℕ) (text : List ℕ) → length text ≤ bound → marking_within bound text ≡ marking text }
{}

/// What is written as one record is read as one, whatever follows it.
pub fn a_marked_record_is_read()
    ensures { (content more : List ℕ) → IsShort content → first_record (marked content ++ more) ≡ Whole content more }
{}

/// What is written in fragments is read as one record, whatever follows it.
pub fn a_record_in_fragments_is_read()
    ensures { (parts : List (List ℕ)) (last more : List ℕ) → length parts < MOST_FRAGMENTS → IsShort (joined parts last)
        → first_record (in_fragments parts last ++ more) ≡ Whole (joined parts last) more }
{}

/// What is read as a record was written as one, in fragments.
pub fn what_is_read_was_written()
    ensures { (text content rest : List ℕ) → AreBytes text → first_record text ≡ Whole content rest
        → IsInFragments text content rest }
{}

/// Records that are written one after another are those of the text, and then come those of what
/// follows.
pub fn marked_records_are_read()
    ensures { (records : List (List ℕ)) (tail : List ℕ) → All IsShort records
        → marking (flat_map marked records ++ tail) ≡ with_records records (marking tail) }
{}

/// The records of any text fit the limit.
pub fn records_are_short()
    ensures { (text : List ℕ) → All IsShort (marking text).records }
{}

/// A text without a whole record and without a fault is all rest.
pub fn a_tail_is_the_rest()
    ensures { (tail : List ℕ) → first_record tail ≡ Partial → marking tail ≡ none_whole tail None }
{}

/// A longer text has the records of the shorter one first, and then those of its rest as it goes on.
pub fn a_longer_text_keeps_its_records()
    ensures { (text more : List ℕ) → (marking text).refusal ≡ None
        → marking (text ++ more) ≡ with_records (marking text).records (marking ((marking text).rest ++ more)) }
{}

/// A refusal stays, however the text goes on.
pub fn a_refusal_stays()
    ensures { (text more : List ℕ) (fault : RecordFault) → (marking text).refusal ≡ Some fault
        → marking (text ++ more) ≡ with_records (marking text).records (none_whole ((marking text).rest ++ more) (Some fault)) }
{}

/// The rest has no whole record, and is refused exactly where the marking says so.
pub fn the_rest_is_no_record()
    ensures partial { (text : List ℕ) → (marking text).refusal ≡ None → first_record (marking text).rest ≡ Partial }
    ensures refused { (text : List ℕ) (fault : RecordFault) → (marking text).refusal ≡ Some fault
        → first_record (marking text).rest ≡ Refused fault }
{}

/// What a reader has read, kept and refused is what record marking of the text says.
pub fn a_reader_follows_the_marking()
    ensures { (text : List ℕ) (dropped : List (List ℕ)) (now : Progress) → HasRead text dropped now
        → FollowsMarking text dropped now }
{}

/// Calls of a reader in any order, on any pieces: what they dropped, kept and refused is what record
/// marking of the text says, and any other calls that took the same text agree.
pub fn any_calls_follow_the_marking()
    ensures follow { (calls : List Call) (text : List ℕ) (dropped : List (List ℕ)) (now : Progress)
        → Runs fresh calls text dropped now → FollowsMarking text dropped now }
    ensures agree { (calls calls' : List Call) (text : List ℕ) (dropped dropped' : List (List ℕ)) (now now' : Progress)
        → Runs fresh calls text dropped now → Runs fresh calls' text dropped' now' → IsSameReading dropped now dropped' now' }
{}
