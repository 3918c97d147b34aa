ghost use Rattle.std.specs.Prelude.{◌≡◌, ◌+◌, ◌<◌, ◌≤◌, ◌++◌, length, take, drop, slice_index};
ghost use Rattle.rules.specs.declared.step.Step.TheVariants.{By32};
ghost use Rattle.rules.specs.Tree.{climb as climb_in};
ghost use Rattle.parts.specs.Maps.{count_of};
ghost use Rattle.parts.specs.Stores.{label_at};
ghost use Rattle.dictionary.specs.Shows.{tree_in};
ghost use Rattle.dictionary.specs.Spelling.{of_row, Ticketed};

use crate::descent::STEP;
use parts::map::NodeMap;
use parts::store::LabelStore;

// Byte i of label v; 0 where there is none.
#[tactic(auto, unfolding(parts::specs::Stores::byte_answer))]
fn byte_at<L: LabelStore>(store: &L, v: u32, i: usize) -> u8
    ensures { v < length (L.LabelStore.meaning store.now).labels → i < length (label_at (L.LabelStore.meaning store.now) v) → result ≡ slice_index (label_at (L.LabelStore.meaning store.now) v) i }
{
    store.byte(v, i).unwrap_or(0)
}

// The length of label v; 0 where there is none.
#[tactic(auto, unfolding(parts::specs::Stores::length_answer))]
fn length_of<L: LabelStore>(store: &L, v: u32) -> usize
    ensures { v < length (L.LabelStore.meaning store.now).labels → result ≡ length (label_at (L.LabelStore.meaning store.now) v) }
{
    store.length(v).unwrap_or(0)
}

// Lays the first n bytes of label v right before a place of the word, and answers where they begin. By index, since a store
// gives a label byte by byte.
fn lay<L: LabelStore>(store: &L, v: u32, n: usize, word: &mut [u8], end: usize) -> usize
    requires { (n ≤ end) × (end ≤ length word.old) }
    ensures place { result + n ≡ end }
    ensures laid { v < length (L.LabelStore.meaning store.now).labels → n ≤ length (label_at (L.LabelStore.meaning store.now) v) → drop result word.new ≡ take n (label_at (L.LabelStore.meaning store.now) v) ++ drop end word.old }
{
    let at = end - n;
    for i in 0..n {
        word[at + i] = byte_at(store, v, i);
    }
    at
}

// Climbs from a row's node, lays what it spells at the end of the word, and answers where that begins.
pub(crate) fn climb<M: NodeMap, L: LabelStore>(
    map: &M,
    store: &L,
    ticket: u32,
    word: &mut [u8],
) -> usize
    requires { length word.old ≡ 201 }
    ensures place { result ≤ 201 }
    ensures spelled { Ticketed (M.NodeMap.meaning map.now) (L.LabelStore.meaning store.now) ticket → drop result word.new ≡ climb_in By32 (tree_in (M.NodeMap.meaning map.now) (L.LabelStore.meaning store.now)) ticket }
{
    let _ = map.count();
    let mut node = ticket;
    let mut i = length_of(store, ticket);
    let mut end = word.len();
    loop {
        if i > end {
            return end;
        }
        let Ok((parent, symbol)) = map.up(node) else {
            return lay(store, node, i, word, end);
        };
        if symbol == STEP.step_symbol() {
            i += STEP.length();
        } else {
            end = lay(store, node, i, word, end);
            if end == 0 {
                return 0;
            }
            end -= 1;
            word[end] = STEP.byte_of(symbol) as u8;
            i = STEP.place_of(symbol);
        }
        node = parent;
    }
}

// Whether a node is a row's. A tag's label may be empty, so a step node is told by its symbol.
#[tactic(auto, unfolding(parts::specs::Maps::up_answer))]
pub(crate) fn is_ticket<M: NodeMap, L: LabelStore>(map: &M, store: &L, ticket: u32) -> bool
    ensures { length (L.LabelStore.meaning store.now).labels ≤ count_of (M.NodeMap.meaning map.now) → result ≡ of_row (M.NodeMap.meaning map.now) (L.LabelStore.meaning store.now) ticket }
{
    ticket < store.count()
        && map
            .up(ticket)
            .map_or(true, |(_, symbol)| symbol != STEP.step_symbol())
}
