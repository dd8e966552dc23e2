//! The end of a transaction: its decision, and its parts.

ghost use Rattle.std.specs.Prelude.{◌≡◌, ℕ, ◌<◌};
ghost use Rattle.std.specs.List.{Contains};
ghost use Rattle.page_types.specs.declared.outcome.Outcome.{Outcome};
ghost use Rattle.page_types.specs.declared.command.Command.TheVariants.{Decide, Resolve};
ghost use Rattle.page_types.specs.declared.answer.Answer.TheVariants.{Decided};
ghost use Rattle.page_types.specs.Asked.{is_commit};
ghost use Rattle.page_types.specs.Ports.{MayAsk};
ghost use Rattle.two_phase.specs.Endings.{Decides, ResolvesAll, IsKnown, Finishes};

use crate::tries::retry;
use page_types::{Answer, Command, Outcome, Port};
use pair_types::{StepFault, Tid};
use std::alloc::Global;

fn commits(outcome: &Outcome) -> bool
    ensures { result ≡ is_commit outcome.now }
{
    match outcome {
        Outcome::Commit(_entry) => true,
        Outcome::Abort => false,
    }
}

fn tells_commit(answer: &Answer) -> bool
    ensures { (outcome : Outcome) → answer.now ≡ Decided outcome → result ≡ is_commit outcome }
{
    match answer {
        Answer::Decided { outcome } => commits(outcome),
        _ => false,
    }
}

/// Asks the home to decide the transaction so, and tells whether it was decided to commit: the first decision
/// stands.
pub fn decide<P: Port>(
    alloc: Global,
    port: &mut P,
    home: u32,
    tid: Tid,
    outcome: Outcome,
) -> Result<bool, StepFault>
    requires home { home < (P.state port.old).origin.stores }
    requires fair { MayAsk P.Rules.stands P.Rules.next (P.state port.old) home
        (Decide (record { tid = tid; outcome = outcome })) }
    ensures { Decides (P.state port.old) (P.state port.new) home
        (record { tid = tid; outcome = outcome }) result }
{
    let command = Command::decide(alloc, tid, outcome)?;
    let answer = retry(port, home, &command)?;
    Ok(tells_commit(&answer))
}

/// Ends the transaction's part at each of these stores, as it was decided.
pub fn resolve_all<P: Port>(
    alloc: Global,
    port: &mut P,
    parts: &[u32],
    tid: Tid,
    commit: bool,
) -> Result<(), StepFault>
    requires parts { (store : ℕ) → Contains parts.now store → store < (P.state port.old).origin.stores }
    requires fair { (store : ℕ) → Contains parts.now store →
        MayAsk P.Rules.stands P.Rules.next (P.state port.old) store
        (Resolve (record { tid = tid; commit = commit })) }
    ensures { ResolvesAll (P.state port.old) (P.state port.new) parts.now
        (record { tid = tid; commit = commit }) result }
{
    let command = Command::resolve(alloc, tid, commit)?;
    for part in parts {
        let _answer = retry(port, *part, &command)?;
    }
    Ok(())
}

/// Finishes a transaction that was met, whoever's it is: it is aborted, unless it was decided to commit, and every
/// part is ended as was decided. True exactly where that is a commit.
pub fn finish<P: Port>(
    alloc: Global,
    port: &mut P,
    tid: Tid,
    home: u32,
    parts: &[u32],
) -> Result<bool, StepFault>
    requires { IsKnown (P.state port.old) tid (record { home = home; parts = parts.now }) }
    ensures { Finishes (P.state port.old) (P.state port.new) tid
        (record { home = home; parts = parts.now }) result }
{
    let commit = decide(alloc, port, home, tid, Outcome::Abort)?;
    resolve_all(alloc, port, parts, tid, commit)?;
    Ok(commit)
}
