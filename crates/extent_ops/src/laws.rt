//! Laws of ranges. These functions do nothing: what is proved is that their clauses hold.

ghost use Rattle.std.specs.Prelude.{◌≡◌, ◌+◌, ◌≤◌, ◌^◌, ℕ, List, length, take, drop, Some};
ghost use Rattle.pairs.specs.declared.at.At.{At};
ghost use Rattle.pairs.specs.declared.at.At.TheVariants.{Live};
ghost use Rattle.pairs.specs.Versions.{Versions};
ghost use Rattle.fs_rules.specs.Edits.{resized, written};
ghost use Rattle.fs_shows.specs.Extents.{Marks, ShowsContent};
ghost use Rattle.fs_shows.specs.Shows.{KeepsBlocks, live_marks, MarksStale};
ghost use Rattle.extent_ops.specs.Ranges.{ReadsBytes, Writes};
ghost use Rattle.extent_ops.specs.Cuts.{cut_marks, Cuts};

/// A range that was read is that part of the file's content; a write is the content with the bytes at the offset; and a cut
/// is the content cut to the size, or filled up to it with zeros.
pub fn ranges_are_of_contents()
    ensures read { (v : Versions) (at : At) (file : ℕ) (m : Marks) (offset : ℕ) (room content : List ℕ) → KeepsBlocks v
        → offset + length room ≤ length content → length content ≤ 2 ^ 64 → ShowsContent v at file m content
        → ReadsBytes at file m offset (length room) room v → room ≡ take (length room) (drop offset content) }
    ensures write { (v z : Versions) (file : ℕ) (m : Marks) (offset : ℕ) (bytes content : List ℕ)
        → ShowsContent v Live file m content → Writes file m offset (length bytes) bytes v z
        → ShowsContent z Live file m (written offset bytes content) }
    ensures cut { (v z : Versions) (file : ℕ) (m : Marks) (size : ℕ) (content : List ℕ)
        → live_marks v file ≡ Some m → MarksStale v → ShowsContent v Live file m content → Cuts file m size v z
        → ShowsContent z Live file (cut_marks size m) (resized size content) }
{}
