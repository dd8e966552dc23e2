//! Laws of lives, and of what edits show. These functions do nothing: what is proved is that their clauses hold.

ghost use Rattle.std.specs.Prelude.{◌≡◌, ◌≢◌, ◌<◌, ◌≤◌, ℕ, List, [], Option, Some, None};
ghost use Rattle.std.specs.List.{Contains};
ghost use Rattle.pair_types.specs.declared.slot.Slot.{Slot};
ghost use Rattle.pairs.specs.declared.at.At.{At};
ghost use Rattle.pairs.specs.declared.at.At.TheVariants.{Live, Snap};
ghost use Rattle.pairs.specs.Lives.{Life, born, never, put_life, AreLives};
ghost use Rattle.pairs.specs.Versions.{Versions, HasLives, CanPut, value_at, epoch, epoch_key};
ghost use Rattle.pairs.specs.Versions.{with_put, with_del, with_purge, with_block};

/// A value that is put is what the live view sees at its key, born in the epoch, and a view of the epoch or later too; a
/// view of an earlier number stays, at each key; and so does every view at other keys. Lives stay in order.
pub fn puts_are_seen()
    ensures live { (key value : List ℕ) (v : Versions) → CanPut key value v → value_at Live (with_put key value v) key ≡ Some
        value }
    ensures born { (key value : List ℕ) (v : Versions) → CanPut key value v →
        born ((with_put key value v).lives key) ≡ Some (epoch v) }
    ensures later { (key value : List ℕ) (v : Versions) (n : ℕ) → CanPut key value v → epoch v ≤ n → n < never →
        value_at (Snap n) (with_put key value v) key ≡ Some value }
    ensures earlier { (key value k : List ℕ) (v : Versions) (n : ℕ) → CanPut key value v → n < epoch v →
        value_at (Snap n) (with_put key value v) k ≡ value_at (Snap n) v k }
    ensures others { (key value k : List ℕ) (v : Versions) (at : At) → k ≢ key →
        value_at at (with_put key value v) k ≡ value_at at v k }
    ensures lives { (key value : List ℕ) (v : Versions) → CanPut key value v → HasLives (with_put key value v) }
{}

/// Of two puts at a key in one epoch the last one counts alone.
pub fn the_last_put_counts()
    ensures { (epoch : ℕ) (first last : List ℕ) (ls : List Life) → epoch < never → AreLives epoch 0 ls →
        put_life epoch last (put_life epoch first ls) ≡ put_life epoch last ls }
{}

/// A value that ended is seen by the live view no more; a view of an earlier number stays, at each key; and so does every
/// view at other keys. Lives stay in order.
pub fn dels_are_seen()
    ensures live { (key : List ℕ) (v : Versions) → HasLives v → value_at Live (with_del key v) key ≡ None }
    ensures earlier { (key k : List ℕ) (v : Versions) (n : ℕ) → HasLives v → n < epoch v →
        value_at (Snap n) (with_del key v) k ≡ value_at (Snap n) v k }
    ensures others { (key k : List ℕ) (v : Versions) (at : At) → k ≢ key → value_at at (with_del key v) k ≡ value_at at v k }
    ensures lives { (key : List ℕ) (v : Versions) → key ≢ epoch_key → HasLives v → HasLives (with_del key v) }
{}

/// A purge changes neither the live view nor that of a number that is kept. Lives stay in order.
pub fn purges_are_not_seen()
    ensures live { (kept key k : List ℕ) (v : Versions) → value_at Live (with_purge kept key v) k ≡ value_at Live v k }
    ensures kept { (kept key k : List ℕ) (v : Versions) (n : ℕ) → Contains kept n →
        value_at (Snap n) (with_purge kept key v) k ≡ value_at (Snap n) v k }
    ensures lives { (kept key : List ℕ) (v : Versions) → HasLives v → HasLives (with_purge kept key v) }
{}

/// A block lies where it was written, all else as it did; no view of the pairs changes.
pub fn blocks_lie_apart()
    ensures here { (s : Slot) (block : Option (List ℕ)) (v : Versions) → (with_block s block v).blocks s ≡ block }
    ensures elsewhere { (s t : Slot) (block : Option (List ℕ)) (v : Versions) → t ≢ s →
        (with_block s block v).blocks t ≡ v.blocks t }
    ensures pairs { (s : Slot) (block : Option (List ℕ)) (v : Versions) → (with_block s block v).lives ≡ v.lives }
{}

/// Nothing is in order.
pub fn nothing_has_lives()
    ensures { (stores : ℕ) → HasLives (record { stores = stores; lives = λ _. []; blocks = λ _. None }) }
{}
