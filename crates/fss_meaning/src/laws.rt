//! That what is done of a call over records in pages is right.

ghost use Rattle.std.specs.Prelude.{◌≤◌, ◌<◌, ⊤, Ok, Err, Some, None};
ghost use Rattle.nfs3_types.specs.declared.entry.Entry.{Entry};
ghost use Rattle.nfs3_types.specs.declared.reply.Reply.{Reply};
ghost use Rattle.pair_types.specs.declared.fault.PairFault.TheVariants.{HeightFull};
ghost use Rattle.page_types.specs.Fair.{IsRight};
ghost use Rattle.page_types.specs.Journals.{Origin};
ghost use Rattle.serial_rules.specs.Worlds.{first_world};
ghost use Rattle.serial_rules.specs.Committed.{shown};
ghost use Rattle.birth_death.specs.Shows.{Seat};
ghost use Rattle.fs_rules.specs.Answers.{Asked};
ghost use Rattle.fs_rules.specs.Tree.{Tree};
ghost use Rattle.fs_shows.specs.Steps.{Edits};
ghost use Rattle.first_page.specs.Standing.{IsFirstPage};
ghost use Rattle.nfs3_procs.specs.Answering.{Answers};
ghost use Rattle.nfs3_procs.specs.declared.fault.BodyFault.TheVariants.{Pair};
ghost use Rattle.fss_meaning.specs.Meaning.{PagesStand, GoesOn, no_space, nothing_written};
ghost use Rattle.fss_meaning.specs.Runs.{Runs, IsEntryOf, seated};

use fs_sound::calls_keep_trees_sound;

/// A call that was answered: by what it read and wrote, the transaction is right for the entry with its reply.
pub fn replies_are_right()
    ensures { (old new : Seat) (asked : Asked) (reply : Reply) (e : Entry) → asked.lane < 16 → Runs old new →
        Answers seated old new asked (Ok reply) → IsEntryOf asked reply e →
        IsRight (PagesStand new.state.stores) GoesOn new.state.reads new.state.writes (Some e) }
{
    calls_keep_trees_sound();
}

/// A call that would succeed, on a tree of pages that is as high as trees get: with nothing written, NOSPC is right for it.
pub fn full_is_right()
    ensures { (old new : Seat) (asked : Asked) (e : Entry) → Runs old new →
        Answers seated old new asked (Err (Pair HeightFull)) → IsEntryOf asked (no_space asked.call) e →
        IsRight (PagesStand new.state.stores) GoesOn new.state.reads nothing_written (Some e) }
{}

/// A sweep: by what it read and wrote, the transaction is right, and serves no call.
pub fn sweeps_are_right()
    ensures { (old new : Seat) → Runs old new → Edits seated old new (λ t. ⊤) (λ t. t) →
        IsRight (PagesStand new.state.stores) GoesOn new.state.reads new.state.writes None }
{}

/// Over one store or more, the first page stands for the first tree.
pub fn first_page_stands()
    ensures { (origin : Origin) (t : Tree) → 1 ≤ origin.stores → IsFirstPage origin.first t →
        PagesStand origin.stores (shown (first_world origin)) t }
{}
