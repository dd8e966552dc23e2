//! The laws of what a session answers. Their functions do nothing: what is proved is that the clause holds.

ghost use Rattle.std.specs.Prelude.{◌≡◌, ◌≢◌, ℕ, List};
ghost use Rattle.fs_rules.specs.Tree.{Tree as PlainTree};
ghost use Rattle.fs_rules.specs.Sound.{IsSound};
ghost use Rattle.nfs3_types.specs.declared.moment.Moment.{Moment};
ghost use Rattle.service.specs.declared.session.SessionEnd.TheVariants.{WriteFault};
ghost use Rattle.service.specs.Readings.{IsSame, Reading};
ghost use Rattle.service.specs.Served.{answering, made_at};
ghost use Rattle.service.specs.Session.{IsByText, IsFront};
ghost use Rattle.service.specs.Transcript.{fed, starved, transcript};
ghost use Rattle.service.specs.Turns.{Tells, Turn, contents, moments_of, written};

use crate::tree::Tree;
use fs_sound::{calls_keep_trees_sound, first_tree_is_sound};

/// What was read determines what was answered. Two sessions on one text, both of which could write, answered
/// the same records, on whatever trees; and where the text alone ended both, they ended alike. Where they
/// began with the same tree, got the same moments and lacked memory at the same turns, their turns, bytes and
/// trees are the same; and one that could not write wrote a front of what the other one wrote.
pub fn one_reading<T: Tree>()
    ensures records { (tree other : PlainTree) (text : List ℕ) (r : Reading T.answering tree text)
        (s : Reading T.answering other text)
        → r.end ≢ WriteFault → s.end ≢ WriteFault → contents r.turns ≡ contents s.turns }
    ensures end { (tree other : PlainTree) (text : List ℕ) (r : Reading T.answering tree text)
        (s : Reading T.answering other text)
        → IsByText r.end → IsByText s.end → r.end ≡ s.end }
    ensures same { (tree : PlainTree) (text : List ℕ) (r s : Reading T.answering tree text)
        → r.end ≢ WriteFault → s.end ≢ WriteFault
        → moments_of r.turns ≡ moments_of s.turns → starved r.turns ≡ starved s.turns → IsSame r s }
    ensures front { (tree : PlainTree) (text : List ℕ) (r s : Reading T.answering tree text)
        → r.end ≡ WriteFault → s.end ≢ WriteFault
        → IsFront (moments_of r.turns) (moments_of s.turns) → IsFront (starved r.turns) (starved s.turns)
        → IsFront r.bytes s.bytes }
{}

/// Up to the first turn at which memory ran out, the replies are exactly those of a tree for which it
/// always suffices.
pub fn fed_as_if_memory_sufficed<T: Tree>()
    ensures replies { (old new : PlainTree) (turns : List Turn) → Tells T.answering old new turns
        → written T.answering.fsid (fed turns) ≡ transcript T.answering old (contents (fed turns)) (moments_of (fed turns)) }
    ensures first { (turns : List Turn) → IsFront (fed turns) turns }
{}

/// Whatever turns were answered, the tree behind them is sound.
pub fn trees_stay_sound()
    ensures { (first : Moment) (new : PlainTree) (turns : List Turn) → Tells answering (made_at first) new turns → IsSound new }
{
    first_tree_is_sound();
    calls_keep_trees_sound();
}
