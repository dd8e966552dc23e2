//! What is written down of steps.

ghost use Rattle.std.specs.Prelude.{◌≡◌, ◌+◌, ◌<◌, ◌≤◌, ◌^◌, ◌∷◌, [], IfOk, OnOk, Ok, Err, reverse, vec_len, vec_capacity};
ghost use Rattle.store_group.specs.Journal.{gained, with_late, with_own};
ghost use Rattle.fabric.specs.Settled.{taken, doubts_in};
ghost use Rattle.fabric.specs.Taking.{request_of, written};

use nfs3_types::NoMemory;
use page_types::{Answer, Command, JEntry};
use pair_types::StepFault;
use std::alloc::Global;
use store_group::Stepped;

/// A command that a pass asked of a store.
#[derive(Drop)]
pub(crate) struct Asked {
    pub pass: u32,
    pub store: u32,
    pub command: Command,
}

/// The journal, the oldest entry first; how many steps were taken; and how many of them answered a doubt.
#[derive(Drop)]
pub(crate) struct Book {
    pub entries: Vec<JEntry>,
    pub steps: u64,
    pub doubts: u64,
}

fn late_entry(store: u32, command: Command, answer: Answer) -> JEntry
    ensures { result ≡ JEntry.Late store command answer }
{
    JEntry::Late {
        store,
        command,
        answer,
    }
}

fn answered_entry(asked: Asked, answer: Answer) -> JEntry
    ensures { result ≡ JEntry.Took asked.pass asked.store asked.command answer }
{
    JEntry::Took {
        pass: asked.pass,
        store: asked.store,
        command: asked.command,
        answer,
    }
}

fn doubted_entry(asked: Asked) -> JEntry
    ensures { result ≡ JEntry.Doubted asked.pass asked.store asked.command }
{
    JEntry::Doubted {
        pass: asked.pass,
        store: asked.store,
        command: asked.command,
    }
}

impl Book {
    /// Nothing was written down. It takes no memory.
    pub(crate) fn new(alloc: Global) -> Book
        ensures entries { result.entries.items ≡ [] }
        ensures steps { result.steps ≡ 0 }
        ensures doubts { result.doubts ≡ 0 }
    {
        Book {
            entries: Vec::new(alloc),
            steps: 0,
            doubts: 0,
        }
    }

    /// Takes the memory for the entries of one step.
    pub(crate) fn make_room(&mut self) -> Result<(), NoMemory>
        ensures room { OnOk result (vec_len self.new.entries + 2 ≤ vec_capacity self.new.entries) }
        ensures entries { self.new.entries.items ≡ self.old.entries.items }
        ensures steps { self.new.steps ≡ self.old.steps }
        ensures doubts { self.new.doubts ≡ self.old.doubts }
    {
        self.entries.reserve(2)?;
        Ok(())
    }

    #[tactic(auto, using(crate::proofs::Lists::reverse_push))]
    fn write(&mut self, entry: JEntry)
        requires room { vec_len self.old.entries < vec_capacity self.old.entries }
        ensures entries { written self.new ≡ entry ∷ written self.old }
        ensures len { vec_len self.new.entries ≡ vec_len self.old.entries + 1 }
        ensures capacity { vec_capacity self.new.entries ≡ vec_capacity self.old.entries }
        ensures steps { self.new.steps ≡ self.old.steps }
        ensures doubts { self.new.doubts ≡ self.old.doubts }
    {
        self.entries.push_reserved(entry);
    }

    /// Writes down what is settled late.
    fn note_late(&mut self, store: u32, late: Option<(Command, Answer)>)
        requires room { vec_len self.old.entries < vec_capacity self.old.entries }
        ensures entries { written self.new ≡ with_late store late (written self.old) }
        ensures len { vec_len self.new.entries ≤ vec_len self.old.entries + 1 }
        ensures capacity { vec_capacity self.new.entries ≡ vec_capacity self.old.entries }
        ensures steps { self.new.steps ≡ self.old.steps }
        ensures doubts { self.new.doubts ≡ self.old.doubts }
    {
        let Some((command, answer)) = late else {
            return;
        };
        self.write(late_entry(store, command, answer));
    }

    /// Writes down an answer.
    fn note_answer(&mut self, asked: Asked, answer: Answer)
        requires room { vec_len self.old.entries < vec_capacity self.old.entries }
        requires steps { self.old.steps < 2 ^ 62 }
        ensures entries { written self.new ≡ JEntry.Took asked.pass asked.store asked.command answer ∷ written self.old }
        ensures steps { self.new.steps ≡ self.old.steps + 1 }
        ensures doubts { self.new.doubts ≡ self.old.doubts }
    {
        self.steps += 1;
        self.write(answered_entry(asked, answer));
    }

    /// Counts a fault, and writes down the command that is pending now, if it is in doubt.
    fn note_fault(&mut self, asked: Asked, doubted: bool, fault: StepFault)
        requires room { vec_len self.old.entries < vec_capacity self.old.entries }
        requires steps { self.old.steps < 2 ^ 62 }
        requires doubts { self.old.doubts < 2 ^ 62 }
        ensures entries { written self.new ≡ with_own (request_of asked) (Err fault) doubted (written self.old) }
        ensures steps { self.new.steps ≡ self.old.steps + taken (Err fault) doubted }
        ensures doubts { self.new.doubts ≡ self.old.doubts + doubts_in (Err fault) }
    {
        if fault == StepFault::Doubt {
            self.doubts += 1;
        }
        if doubted {
            self.steps += 1;
            self.write(doubted_entry(asked));
        }
    }

    /// Writes down what a step did, and answers it by an equal answer.
    pub(crate) fn note(
        &mut self,
        asked: Asked,
        told: Answer,
        stepped: Stepped,
    ) -> Result<Answer, StepFault>
        requires room { vec_len self.old.entries + 2 ≤ vec_capacity self.old.entries }
        requires steps { self.old.steps < 2 ^ 62 }
        requires doubts { self.old.doubts < 2 ^ 62 }
        requires told { IfOk stepped.own (λ own. own ≡ told) }
        ensures result { result ≡ stepped.own }
        ensures entries { written self.new
            ≡ gained (request_of asked) stepped.late stepped.own stepped.doubted (written self.old) }
        ensures steps { self.new.steps ≡ self.old.steps + taken stepped.own stepped.doubted }
        ensures doubts { self.new.doubts ≡ self.old.doubts + doubts_in stepped.own }
    {
        let Stepped { late, doubted, own } = stepped;
        self.note_late(asked.store, late);
        match own {
            Ok(answer) => {
                self.note_answer(asked, answer);
                Ok(told)
            }
            Err(fault) => {
                self.note_fault(asked, doubted, fault);
                Err(fault)
            }
        }
    }
}
