//! What holds of the grammars of calls and results.

ghost use Rattle.std.specs.Prelude.{ℕ};
ghost use Rattle.xdr_grammar.specs.Laws.{Laws};
ghost use Rattle.nfs3_types.specs.Handles.{handle};
ghost use Rattle.nfs3_types.specs.Calls.{call_of};
ghost use Rattle.nfs3_types.specs.Replies.{result_of};

/// The grammars of every call and of every result have the laws: what is written is read back, a fault
/// is the first one, and no spelling of a value begins another. So has that of this service's handles.
pub fn protocol_is_lawful()
    ensures handle { Laws handle }
    ensures call { (procedure : ℕ) → Laws (call_of procedure) }
    ensures result { (procedure : ℕ) → Laws (result_of procedure) }
{}
