//! What a Resolve does.

ghost use Rattle.std.specs.Prelude.{◌≡◌, ℕ, ◌+◌, ◌≤◌, ◌^◌, map, IfOk};
ghost use Rattle.page_types.specs.declared.command.Command.TheVariants.{Resolve};
ghost use Rattle.page_store.specs.Keeps.{IsIndexed};
ghost use Rattle.page_store.specs.Steps.{seen, IsStep};
ghost use Rattle.page_store.specs.Changes.{end_change};

use crate::look::View;
use crate::party::copy_party;
use crate::patch::Step;
use crate::row::{Change, resolved_row};
use nfs3_types::{ListOf, NoMemory};
use page_types::{Answer, Resolution};
use pair_types::Tid;
use std::alloc::Global;

impl<'a> View<'a> {
    /// The rows of these pages once all holds of a transaction are gone.
    fn resolved_rows(
        &self,
        alloc: Global,
        numbers: &[u64],
        tid: Tid,
        commit: bool,
    ) -> Result<Vec<Change>, NoMemory>
        requires { (number : ℕ) → ((seen self.now).slot number).version ≤ 2 ^ 63 + 1 }
        ensures { IfOk result
            (λ rows. rows.items ≡ map (end_change (seen self.now) tid commit) numbers.now) }
    {
        let mut rows = Vec::with_capacity(alloc, numbers.len())?;
        for number in numbers {
            let row = resolved_row(alloc, self.row(*number), tid, commit)?;
            rows.push(Change {
                number: *number,
                row,
            })?;
        }
        Ok(rows)
    }

    /// What a Resolve does.
    pub fn resolve(&self, alloc: Global, r: Resolution) -> Result<Step, NoMemory>
        requires bounded { (number : ℕ) → ((seen self.now).slot number).version ≤ 2 ^ 63 + 1 }
        requires indexed { IsIndexed (seen self.now) }
        ensures { IfOk result (IsStep (seen self.now) (Resolve r)) }
    {
        let mut party = copy_party(alloc, self.party(r.tid))?;
        let rows = self.resolved_rows(alloc, party.numbers.as_slice(), r.tid, r.commit)?;
        party.ended = true;
        party.numbers = ListOf::new(alloc);
        Ok(self.all(rows, r.tid, party, Answer::Resolved))
    }
}
