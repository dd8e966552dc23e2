//! What is claimed of lawful grammars, and a fault's text.

ghost use Rattle.xdr_grammar.specs.Grammar.{done};
ghost use Rattle.xdr_grammar.specs.Items.{word};
ghost use Rattle.xdr_grammar.proofs.Composed.{done-laws};
ghost use Rattle.xdr_grammar.proofs.Items.{word-laws};

use std::test::*;
use xdr_grammar::XdrFault;
use xdr_grammar::laws::*;

/// The grammar of a word: what is claimed for each lawful grammar can be had at one.
struct Word;

impl Lawful<u32> for Word {
    ghost grammar = { word };

    ghost laws = { word-laws };
}

impl Following<u32, u32> for Word {
    ghost part = { record { grammar = word; get = λ n. n } };

    ghost next = { λ n. done n };

    ghost part_laws = { word-laws };

    ghost next_laws = { λ n. done-laws n };

    ghost keeps = { λ n front s r back t. t.is };
}

#[test]
fn what_is_claimed_of_lawful_grammars_can_be_had(_rt: HostRuntime) {
    tested_is_lawful::<u32, Word>();
    then_is_lawful::<u32, u32, Word>();
    done_is_lawful::<u32>();
    either_is_lawful::<u32, Word, Word>();
    case_is_lawful::<u32, u32, Word>();
    optional_is_lawful::<u32, Word>();
    entries_are_lawful::<u32, Word>();
    arrays_are_lawful::<u32, Word>(16);
    no_spelling_begins_another::<u32, Word>();
    what_is_written_is_read_back::<u32, Word>();
    what_is_read_takes_its_size::<u32, Word>();
    whole_texts_are_lawful::<u32, Word>();
}

#[test]
fn a_fault_is_printed(rt: HostRuntime) -> Result<(), Fail> {
    let error = XdrFault::Short;
    assert_eq!(rt;
        format!(in rt.alloc(); "{error}")?.as_str(),
        "the text is too short"
    );
    Ok(())
}
