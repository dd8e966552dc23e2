//! What holds of the protocol's grammars.

ghost use Rattle.std.specs.Prelude.{ℕ};
ghost use Rattle.xdr_grammar.specs.Laws.{Laws};
ghost use Rattle.mount3.specs.Protocol.{arguments, mount_result, mount_list, exports};

/// Arguments and results have the laws of a grammar: what is written is read back, a fault is the
/// first one, and no spelling of a value begins another.
pub fn mount_is_lawful()
    ensures arguments { (procedure : ℕ) → Laws (arguments procedure) }
    ensures mount_result { Laws mount_result }
    ensures mount_list { Laws mount_list }
    ensures exports { Laws exports }
{}
