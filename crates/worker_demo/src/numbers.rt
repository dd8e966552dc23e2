//! What the workers share: one store that gives out numbers, and the journal of them.

ghost use Rattle.std.specs.Prelude.{◌≡◌, reverse};
ghost use Rattle.turnstile.specs.Growth.{GrowsBy};
ghost use Rattle.worker_demo.specs.Calls.{IsFor};

use nfs3_types::NoMemory;
use page_types::{Answer, Command, JEntry, Journaled};
use std::alloc::Global;
use std::sync::Wait;
use turnstile::{Pass, Turn};

/// A store that gives out numbers, and what it was asked. The oldest entry stands first.
#[derive(Drop)]
pub struct Numbers {
    entries: Vec<JEntry>,
}

impl Journaled for Numbers {
    ghost use Rattle.std.specs.Prelude.{reverse, []};

    ghost journal = { λ numbers. reverse numbers.entries.items };

    ghost origin = { λ numbers. record { stores = 1; first = [] } };
}

impl Numbers {
    /// A store that gave out none.
    pub fn new(alloc: Global) -> Numbers {
        Numbers {
            entries: Vec::new(alloc),
        }
    }

    /// How many it gave out.
    pub fn given(&self) -> usize {
        self.entries.len()
    }

    /// Gives out a number to a pass.
    #[tactic(auto, using(crate::proofs::Notes::gains_one, crate::proofs::Notes::gains_none))]
    fn give_out(&mut self, pass: u32) -> Result<(), NoMemory>
        ensures { GrowsBy pass (reverse self.old.entries.items) (reverse self.new.entries.items) }
    {
        let number = self.entries.len() as u64;
        self.entries.push(JEntry::Took {
            pass,
            store: 0,
            command: Command::Fresh,
            answer: Answer::Fresh { number },
        })?;
        Ok(())
    }
}

/// Takes a turn, in which the pass is given a number.
pub fn note_call<R: Wait>(
    rt: &R,
    turn: &Turn<Numbers>,
    pass: &mut Pass<Numbers>,
    number: u32,
) -> Result<(), NoMemory>
    requires { IsFor turn.now number pass.old.end pass.old }
    ensures { IsFor turn.now number pass.old.end pass.new }
{
    let mut numbers = turn.take(rt, pass);
    let given = numbers.give_out(number);
    turn.give(pass, numbers);
    given
}
