//! The laws of XDR's grammars, each proved once. Their functions do nothing: what is proved is that
//! the clause holds. Proofs of other crates cite the same laws as lemmas of `proofs/`, or find them
//! by `search grammar_laws`.

ghost use Rattle.std.specs.Prelude.{◌≡◌, ℕ, Bool, List, Option};
ghost use Rattle.xdr_grammar.specs.declared.fault.XdrFault.{XdrFault};
ghost use Rattle.xdr_grammar.specs.Grammar.{Grammar, Part, ◌>>=◌ as ◌then◌, done};
ghost use Rattle.xdr_grammar.specs.Items.{word, hyper, truth, pick, tested, fixed, opaque};
ghost use Rattle.xdr_grammar.specs.Choices.{either, never, in_case, optional};
ghost use Rattle.xdr_grammar.specs.Enumerations.{enumeration};
ghost use Rattle.xdr_grammar.specs.Entries.{entries};
ghost use Rattle.xdr_grammar.specs.Arrays.{items, array};
ghost use Rattle.xdr_grammar.specs.Whole.{WholeLaws};
ghost use Rattle.xdr_grammar.specs.Laws.{Laws, Keeps, GivesBack, IsUnambiguous, IsReadBack, TakesSize};

/// A grammar of values of type `V` that has the laws: what is claimed for a `G: Lawful<V>` is claimed
/// for each such grammar.
pub trait Lawful<V> {
    ghost grammar: { Grammar V };

    ghost laws: { Laws grammar };
}

/// A part of type `A` of a larger value of type `R`, and what follows it, each of which has the laws.
/// What follows keeps the part: it gives no value with another part there.
pub trait Following<R, A> {
    ghost part: { Part R A };

    ghost next: { A → Grammar R };

    ghost part_laws: { Laws part.grammar };

    ghost next_laws: { (a : A) → Laws (next a) };

    ghost keeps: { Keeps part next };
}

/// A word, and a hyper.
pub fn numbers_are_lawful()
    ensures word { Laws word }
    ensures hyper { Laws hyper }
{}

/// A boolean.
pub fn truth_is_lawful()
    ensures { Laws truth }
{}

/// An enumeration whose numbers are those of a range.
pub fn pick_is_lawful(low: u32, high: u32)
    ensures { Laws (pick low high) }
{}

/// Opaque data, of a fixed length and of a length up to `n`.
pub fn bytes_are_lawful(n: u32)
    ensures fixed { Laws (fixed n) }
    ensures opaque { Laws (opaque n) }
{}

/// An enumeration whose values are named one by one.
pub fn enumeration_is_lawful<V>()
    ensures { (any : V) (number : V → ℕ) (values : List V) → Laws (enumeration any number values) }
{}

/// An item under a test.
pub fn tested_is_lawful<V, G: Lawful<V>>()
    ensures { (test : V → Bool) (refusal : XdrFault) → Laws (tested G.grammar test refusal) }
{}

/// One grammar behind another.
pub fn then_is_lawful<R, A, F: Following<R, A>>()
    ensures { Laws (◌then◌ F.part F.next) }
{}

/// A known value of which no byte is left.
pub fn done_is_lawful<V>()
    ensures { (v : V) → Laws (done v) }
{}

/// One of two grammars.
pub fn either_is_lawful<V, G: Lawful<V>, H: Lawful<V>>()
    ensures { (test : Bool) → Laws (either test G.grammar H.grammar) }
{}

/// A grammar that spells nothing.
pub fn never_is_lawful<V>()
    ensures { (fault : XdrFault) → Laws {A = V} (never fault) }
{}

/// One variant of an enumeration with content.
pub fn case_is_lawful<V, B, G: Lawful<B>>()
    ensures { (make : B → V) (content : V → Option B) → GivesBack make content
        → Laws (in_case make content G.grammar) }
{}

/// Optional data.
pub fn optional_is_lawful<V, G: Lawful<V>>()
    ensures { Laws (optional G.grammar) }
{}

/// A list that a false boolean ends.
pub fn entries_are_lawful<V, G: Lawful<V>>()
    ensures { Laws (entries G.grammar) }
{}

/// Arrays, of a fixed length and of a length up to `n`.
pub fn arrays_are_lawful<V, G: Lawful<V>>(n: u32)
    ensures items { Laws (items n G.grammar) }
    ensures array { Laws (array n G.grammar) }
{}

/// No spelling of a value begins another spelling.
pub fn no_spelling_begins_another<V, G: Lawful<V>>()
    ensures { IsUnambiguous G.grammar }
{}

/// What is written is read back, with what follows it.
pub fn what_is_written_is_read_back<V, G: Lawful<V>>()
    ensures { IsReadBack G.grammar }
{}

/// What is read takes its size.
pub fn what_is_read_takes_its_size<V, G: Lawful<V>>()
    ensures { TakesSize G.grammar }
{}

/// A text that is read to its end.
pub fn whole_texts_are_lawful<V, G: Lawful<V>>()
    ensures { WholeLaws G.grammar }
{}
