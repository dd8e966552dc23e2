//! Numbers of Rust's types have a spelling.

ghost use Rattle.std.specs.Prelude.{◌≡◌, length};
ghost use Rattle.xdr_grammar.specs.Items.{word, hyper};
ghost use Rattle.nfs3_types.specs.Calls.{verifier};

#[tactic(auto, using(xdr_grammar::proofs::Fits::word_fits))]
pub fn word_fits(n: u32)
    ensures { word.Fits n }
{}

#[tactic(auto, using(xdr_grammar::proofs::Fits::hyper_fits))]
pub fn hyper_fits(n: u64)
    ensures { hyper.Fits n }
{}

#[tactic(auto, using(crate::proofs::Structures::verifier_fits_by))]
pub fn verifier_fits(v: &[u8])
    requires { length v.now ≡ 8 }
    ensures { verifier.Fits v.now }
{}
