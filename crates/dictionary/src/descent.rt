ghost use Rattle.std.specs.Prelude.{◌≡◌, ◌+◌, ◌<◌, ◌≤◌, length};
ghost use Rattle.rules.specs.declared.step.Step.TheVariants.{By32};
ghost use Rattle.rules.specs.Steps.{symbol_count};
ghost use Rattle.rules.specs.Words.{shared};
ghost use Rattle.rules.specs.Tree.{child, down};
ghost use Rattle.parts.specs.Maps.{MapFacts, count_of};
ghost use Rattle.parts.specs.Stores.{label_at};
ghost use Rattle.dictionary.specs.Looks.{reached, Bounded, Asked, Looked, Opened};

use parts::map::NodeMap;
use parts::store::LabelStore;
use rules::step::Step;

pub(crate) const STEP: Step = Step::By32;

// Where going down step children ends: the node, how many steps are missing below it, and the moves made.
#[derive(Clone, Copy)]
pub(crate) struct Reached {
    pub(crate) node: u32,
    pub(crate) missing: u32,
    pub(crate) moves: u32,
}

// What a tag in no row lacks: below the node, so many steps and then the child by the symbol, which has the label.
#[derive(Clone, Copy)]
pub(crate) struct Gap<'a> {
    pub(crate) node: u32,
    pub(crate) missing: u32,
    pub(crate) symbol: u16,
    pub(crate) label: &'a [u8],
}

// Where looking for a tag ends, at its node or at what is missing, and the moves made.
#[derive(Clone, Copy)]
pub(crate) struct Place<'a> {
    pub(crate) end: Result<u32, Gap<'a>>,
    pub(crate) moves: u32,
}

// The functions here, of growing and of climbing take map and store, and not `Parts`: they know no shelf, whose meaning each
// clause would then have to name. What stands in for a fault is never read where a book is shown, which their clauses
// suppose; with a ghost field of `Dictionary` that says more, the proof of `enter` did not close.

// The child of u by the symbol c; none also where there is no such node or symbol.
#[tactic(auto, unfolding(parts::specs::Maps::child_answer))]
pub(crate) fn child_of<M: NodeMap>(map: &M, u: u32, c: u16) -> Option<u32>
    ensures { u < count_of (M.NodeMap.meaning map.now) → c < symbol_count By32 → result ≡ child (M.NodeMap.meaning map.now).edges u c }
{
    map.child(u, c).unwrap_or(None)
}

// How many leading bytes label v and s share; 0 where there is no such label.
#[tactic(auto, unfolding(parts::specs::Stores::meet_answer))]
pub(crate) fn meet_of<L: LabelStore>(store: &L, v: u32, s: &[u8]) -> usize
    ensures { v < length (L.LabelStore.meaning store.now).labels → result ≡ shared s.now (label_at (L.LabelStore.meaning store.now) v) }
{
    store.meet(v, s, 0).unwrap_or(0)
}

// Goes down k step children from u.
pub(crate) fn steps_down<M: NodeMap>(map: &M, u: u32, k: u32) -> Reached
    ensures moves { result.moves + result.missing ≡ k }
    ensures reached { u < count_of (M.NodeMap.meaning map.now) → reached result ≡ down By32 (M.NodeMap.meaning map.now).edges k u }
{
    let mut node = u;
    for moves in 0..k {
        match child_of(map, node, STEP.step_symbol()) {
            Some(v) => node = v,
            None => return Reached {
                node,
                missing: k - moves,
                moves,
            },
        }
    }
    Reached {
        node,
        missing: 0,
        moves: k,
    }
}

// Looks for the spelled form s, from node 0 on. Each passage to a child is a move. What holds of every node map is told
// with the count, and here with the answer.
pub(crate) fn look<'a, M: NodeMap, L: LabelStore>(map: &M, store: &L, s: &'a [u8]) -> Place<'a>
    requires { length s.now ≤ 201 }
    ensures facts { MapFacts By32 (M.NodeMap.meaning map.now) }
    ensures bounded { Bounded s.now result }
    ensures looked { Looked (M.NodeMap.meaning map.now) (L.LabelStore.meaning store.now) s.now result }
    ensures opened { Asked (M.NodeMap.meaning map.now) (L.LabelStore.meaning store.now) s.now → Opened (M.NodeMap.meaning map.now).edges result }
{
    let _ = map.count();
    let mut node = 0;
    let mut rest = s;
    let mut moves = 0;
    loop {
        let i = meet_of(store, node, rest);
        let Some(&byte) = rest.get(i) else {
            return Place {
                end: Ok(node),
                moves,
            };
        };
        let symbol = STEP.branch_symbol(byte, i);
        let below = steps_down(map, node, STEP.steps_to(i) as u32);
        rest = &rest[i + 1..];
        moves += below.moves;
        let gap = Gap {
            node: below.node,
            missing: below.missing,
            symbol,
            label: rest,
        };
        if below.missing > 0 {
            return Place {
                end: Err(gap),
                moves,
            };
        }
        match child_of(map, below.node, symbol) {
            Some(child) => node = child,
            None => return Place {
                end: Err(gap),
                moves,
            },
        }
        moves += 1;
    }
}
