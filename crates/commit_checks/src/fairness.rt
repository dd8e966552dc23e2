//! Whether a pass may commit a transaction, by what the journal says.

ghost use Rattle.std.specs.Prelude.{◌≡◌, ℕ, true, false, IsSome, ◌∷◌, [], drop, length};
ghost use Rattle.std.specs.List.{list_any};
ghost use Rattle.page_types.specs.Accesses.{is_same, AreAccesses};
ghost use Rattle.page_types.specs.Fair.{AreKnown};
ghost use Rattle.page_types.specs.Journals.{is_of};
ghost use Rattle.page_types.specs.declared.command.Command.TheVariants.{Read};
ghost use Rattle.page_types.specs.declared.journal.JEntry.TheVariants.{Took};
ghost use Rattle.two_phase.specs.Parts.{is_of_tid, carries};
ghost use Rattle.commit_checks.specs.Rights.{answers, IsPart, ArePartsOf, IsNew, known_by};

use crate::stores::Stores;
use page_types::{Answer, Command, JEntry, PageRead, PageWrite};
use pair_types::Tid;
use two_phase::Part;

fn same(one: Tid, other: Tid) -> bool
    ensures { result ≡ is_same one other }
{
    one.pass == other.pass && one.serial == other.serial
}

fn is_of(tid: Tid, command: &Command) -> bool
    ensures { result ≡ is_of_tid tid command.now }
{
    match command {
        Command::Write(transaction) => same(transaction.get().tid, tid),
        Command::Prepare(part) => same(part.get().tid, tid),
        Command::Decide(decision) => same(decision.get().tid, tid),
        Command::Resolve(resolution) => same(resolution.get().tid, tid),
        Command::Fresh | Command::Read { .. } | Command::Look(_) => false,
    }
}

fn is_carried(tid: Tid, entry: &JEntry) -> bool
    ensures { result ≡ carries tid entry.now }
{
    match entry {
        JEntry::Took { command, .. } => is_of(tid, command),
        JEntry::Doubted { command, .. } => is_of(tid, command),
        JEntry::Late { command, .. } => is_of(tid, command),
    }
}

/// Whether no entry is of the transaction.
fn is_fresh(journal: &[JEntry], tid: Tid) -> bool
    ensures { result ≡ true → list_any (carries tid) journal.now ≡ false }
{
    for entry in journal {
        if is_carried(tid, entry) {
            return false;
        }
    }
    true
}

/// Whether the answer is a page at the version.
fn has_version(answer: &Answer, version: u64) -> bool
    ensures { (pass store number : ℕ) → result ≡ answers pass store number version
        (Took pass store (Read number) answer.now) }
{
    match answer {
        Answer::Page { version: told, .. } => *told == version,
        _ => false,
    }
}

/// Whether this answers a read of the page with the version.
fn tells(command: &Command, answer: &Answer, read: PageRead) -> bool
    ensures { (pass store : ℕ) → result ≡ answers pass store read.number read.version
        (Took pass store command.now answer.now) }
{
    match command {
        Command::Read { number } => *number == read.number && has_version(answer, read.version),
        _ => false,
    }
}

/// Whether the entry answers a read of the pass at a store with a version.
fn is_reading(entry: &JEntry, pass: u32, store: u32, read: PageRead) -> bool
    ensures { result ≡ answers pass store read.number read.version entry.now }
{
    match entry {
        JEntry::Took {
            pass: asker,
            store: at,
            command,
            answer,
        } => { *asker == pass && *at == store && tells(command, answer, read) }
        _ => false,
    }
}

/// Whether the pass was answered a read of the page with the version. A reading is mostly among the newest entries, and
/// they are looked at first.
fn was_told(journal: &[JEntry], pass: u32, store: u32, read: PageRead) -> bool
    ensures { result ≡ true → list_any (answers pass store read.number read.version) journal.now ≡ true }
{
    let mut left = journal.len();
    while left > 0 {
        left -= 1;
        if is_reading(&journal[left], pass, store, read) {
            return true;
        }
    }
    false
}

/// Whether the pass read this version there, or none was ever written.
#[tactic(auto, using(crate::proofs::Knowing::known_absent, crate::proofs::Knowing::known_some))]
fn was_read(journal: &[JEntry], pass: u32, store: u32, read: PageRead) -> bool
    ensures { result ≡ true → IsSome (known_by pass journal.now store read.number read.version) }
{
    if read.version == 0 {
        return true;
    }
    was_told(journal, pass, store, read)
}

/// Whether what is written is what was read, in rising number: one page or two.
fn are_accesses(reads: &[PageRead], writes: &[PageWrite]) -> bool
    ensures { result ≡ true → AreAccesses reads.now writes.now }
{
    match (reads, writes) {
        ([one], [first]) => one.number == first.number,
        ([one, other], [first, second]) => {
            one.number == first.number && other.number == second.number && one.number < other.number
        }
        _ => false,
    }
}

/// Whether the pass read all this at the store.
#[tactic(auto, using(crate::proofs::Knowing::one_known, crate::proofs::Knowing::two_known))]
fn were_read(journal: &[JEntry], pass: u32, store: u32, reads: &[PageRead]) -> bool
    ensures { result ≡ true → AreKnown (known_by pass journal.now) store reads.now }
{
    match reads {
        [one] => was_read(journal, pass, store, *one),
        [one, other] => {
            was_read(journal, pass, store, *one) && was_read(journal, pass, store, *other)
        }
        _ => false,
    }
}

fn is_part(stores: u32, journal: &[JEntry], pass: u32, part: &Part) -> bool
    ensures { result ≡ true → IsPart stores (known_by pass journal.now) part.now }
{
    part.store < stores
        && are_accesses(part.reads.as_slice(), part.writes.as_slice())
        && were_read(journal, pass, part.store, part.reads.as_slice())
}

/// Whether these are two parts, in rising store.
#[tactic(auto, using(crate::proofs::Assembling::two_parts))]
fn are_two(stores: u32, journal: &[JEntry], pass: u32, one: &Part, two: &Part) -> bool
    ensures { result ≡ true → ArePartsOf stores (known_by pass journal.now) (one.now ∷ two.now ∷ []) }
{
    if one.store >= two.store {
        return false;
    }
    if !is_part(stores, journal, pass, one) {
        return false;
    }
    is_part(stores, journal, pass, two)
}

/// Whether these are three parts, in rising store.
fn are_three(
    stores: u32,
    journal: &[JEntry],
    pass: u32,
    one: &Part,
    two: &Part,
    three: &Part,
) -> bool
    ensures { result ≡ true → ArePartsOf stores (known_by pass journal.now) (one.now ∷ two.now ∷ three.now ∷ []) }
{
    if one.store >= two.store {
        return false;
    }
    if !is_part(stores, journal, pass, one) {
        return false;
    }
    are_two(stores, journal, pass, two, three)
}

/// Whether these are one to three parts, in rising store.
#[tactic(auto, using(crate::proofs::Assembling::one_part))]
fn are_parts(stores: u32, journal: &[JEntry], pass: u32, parts: &[Part]) -> bool
    ensures { result ≡ true → ArePartsOf stores (known_by pass journal.now) parts.now }
{
    match parts {
        [one] => is_part(stores, journal, pass, one),
        [one, two] => are_two(stores, journal, pass, one, two),
        [one, two, three] => are_three(stores, journal, pass, one, two, three),
        _ => false,
    }
}

/// Whether the transaction is new, and its pass read all that it says.
fn is_new(stores: u32, journal: &[JEntry], tid: Tid, parts: &[Part]) -> bool
    ensures { result ≡ true → IsNew stores journal.now tid parts.now }
{
    if tid.serial < 1 {
        return false;
    }
    if !is_fresh(journal, tid) {
        return false;
    }
    are_parts(stores, journal, tid.pass, parts)
}

/// Whether the transaction may be committed: it is new, and its pass read all that it says.
pub fn may_commit(fabric: &Stores, tid: Tid, parts: &[Part]) -> bool
    ensures { result ≡ true → IsNew fabric.now.origin.stores fabric.now.journal tid parts.now }
{
    let stores = fabric.stores();
    let journal = fabric.journal();
    is_new(stores, journal, tid, parts)
}

/// Whether the pass asked it.
fn is_own(pass: u32, entry: &JEntry) -> bool
    ensures { result ≡ is_of pass entry.now }
{
    match entry {
        JEntry::Took { pass: asker, .. } => *asker == pass,
        JEntry::Doubted { pass: asker, .. } => *asker == pass,
        JEntry::Late { .. } => false,
    }
}

/// Whether the pass asked none of these.
fn has_none(entries: &[JEntry], pass: u32) -> bool
    ensures { result ≡ true → list_any (is_of pass) entries.now ≡ false }
{
    for entry in entries {
        if is_own(pass, entry) {
            return false;
        }
    }
    true
}

/// How many entries the journal has.
pub fn count(fabric: &Stores) -> usize
    ensures { result ≡ length fabric.now.journal }
{
    fabric.journal().len()
}

/// Whether the pass asked nothing since the journal had so many entries.
pub fn has_rested(fabric: &Stores, before: usize, pass: u32) -> bool
    ensures { result ≡ true → list_any (is_of pass) (drop before fabric.now.journal) ≡ false }
{
    let journal = fabric.journal();
    if before > journal.len() {
        return false;
    }
    has_none(&journal[before..], pass)
}
