ghost use Rattle.std.specs.Prelude.{◌≡◌, ℕ, ◌<◌, ◌≤◌, Bool, false, true, List, [], ◌∷◌, ◌++◌, length, MatchOption, slice_index_or};
ghost use Rattle.rules.specs.Tree.{bytes_in};
ghost use Rattle.parts.specs.Stores.{longest};
ghost use Rattle.label_stores.specs.Sizes.{room_where};
ghost use Rattle.label_stores.specs.Fills.{IsNew, FitsLabel, FilledBy};

use crate::fill::Fill;

// How labels lie in lent bytes and a lent list of starts. These come as two slices, as they are lent, and not as one struct,
// which would be made for each call.
pub trait Layout {
    ghost use Rattle.label_stores.specs.declared.fill.Fill.{Fill};

    // Whether memory of so many bytes and starts is taken, and what byte room and places it then gives.
    ghost takes: { (bytes starts : ℕ) → Bool };

    ghost room: { (bytes starts : ℕ) → ℕ };

    ghost places: { (bytes starts : ℕ) → ℕ };

    // The first n labels, which together have t bytes.
    ghost labels: { (bytes starts : List ℕ) (n t : ℕ) → List (List ℕ) };

    // The memory with one label more behind n labels, which together have t bytes.
    ghost bytes_with: { List ℕ → (n t : ℕ) → List ℕ → List ℕ };

    ghost starts_with: { List ℕ → (n t : ℕ) → List ℕ };

    // The labels of a store that is filled so far lie in this memory.
    ghost Sound: { (bytes starts : List ℕ) → Fill → Type 0 };

    // It is a fact of one proof, as a ghost field must be.
    ghost sound_once: { (bytes starts : List ℕ) (fill : Fill) → IsProp (Sound bytes starts fill) };

    // No labels yet in memory of these sizes, if it is taken.
    fn fresh(bytes: usize, starts: usize) -> Option<Fill>
        ensures { MatchOption result (takes bytes starts ≡ false) (λ fill. (takes bytes starts ≡ true) × IsNew fill (room bytes starts) (places bytes starts)) };

    // The bytes of label v.
    fn span<'a>(bytes: &'a [u8], starts: &[u32], fill: Fill, v: u32) -> &'a [u8]
        requires sound { Sound bytes.now starts.now fill }
        requires there { v < fill.count }
        ensures { result.now ≡ slice_index_or (labels bytes.now starts.now fill.count fill.total) v [] };

    // Writes one label more. How filled the store is with it.
    fn lay(bytes: &mut [u8], starts: &mut [u32], fill: Fill, label: &[u8]) -> Fill
        requires sound { Sound bytes.old starts.old fill }
        requires fits { FitsLabel fill label.now }
        ensures filled { FilledBy label.now fill result }
        ensures sound { Sound bytes.new starts.new result }
        ensures labels { labels bytes.new starts.new result.count result.total ≡ labels bytes.old starts.old fill.count fill.total ++ (label.now ∷ []) }
        ensures bytes { bytes.new ≡ bytes_with bytes.old fill.count fill.total label.now }
        ensures starts { starts.new ≡ starts_with starts.old fill.count fill.total };

    // The laws: sound memory holds as many labels, and as many bytes of them, as the store counts, and none that is too
    // long; and memory is sound before the first label.
    ghost counted: { (bytes starts : List ℕ) (fill : Fill) → Sound bytes starts fill → length (labels bytes starts fill.count fill.total) ≡ fill.count };

    ghost summed: { (bytes starts : List ℕ) (fill : Fill) → Sound bytes starts fill → bytes_in (labels bytes starts fill.count fill.total) ≡ fill.total };

    ghost short: { (bytes starts : List ℕ) (fill : Fill) → Sound bytes starts fill → (v : ℕ) → v < fill.count → length (slice_index_or (labels bytes starts fill.count fill.total) v []) ≤ longest };

    ghost empty: { (bytes starts : List ℕ) (fill : Fill) → let taken = takes (length bytes) (length starts) in
        IsNew fill (room_where taken (room (length bytes) (length starts))) (room_where taken (places (length bytes) (length starts))) → Sound bytes starts fill };
}
