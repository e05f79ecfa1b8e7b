//! What the rule of a counter says to a reader.
ghost use Rattle.std.specs.Prelude.{◌≡◌, ◌∷◌, [], List, length, All, Some, slice_get};
ghost use Rattle.atomic_table.specs.Table.{State};
ghost use Rattle.st_post_counter.specs.declared.seen.Seen.{Seen};
ghost use Rattle.st_post_counter.specs.Seen.{Begins, whole, IsWhole};

use crate::seen::Seen;
use crate::steps::OneHistory;
use atomic_table::TableRule;

/// A law. Where the rule that counters keep holds, and it holds after every step, the word is the length of one list. The
/// first endpoint, the machine's, has seen all of it. What each endpoint has seen is a beginning of it, and is all of it
/// where a contract says that it is whole.
pub fn the_word_counts_one_history<T>()
    ensures { (state : State (Unit {0}) (Seen T))
        → ⟦<OneHistory as TableRule<(), Seen<T>, ()>>⟧.holds tt state
        → (history : List T) × (state.words ≡ length history ∷ [])
        × (slice_get state.views 0 ≡ Some (whole history))
        × All (λ seen. Begins seen.posts history × (IsWhole seen → seen.posts ≡ history)) state.views }
{}
