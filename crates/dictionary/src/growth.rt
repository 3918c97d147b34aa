ghost use Rattle.std.specs.Prelude.{◌≡◌};
ghost use Rattle.dictionary.specs.Growth.{CanMake, Made, CanGrow, Grown};

use crate::descent::{Gap, STEP};
use parts::map::NodeMap;
use parts::store::LabelStore;

// Makes the child of u by the symbol c, with its label, and answers its number.
#[tactic(auto, unfolding(parts::specs::Maps::add_answer, parts::specs::Maps::add_next, parts::specs::Stores::append_answer, parts::specs::Stores::append_next))]
fn make_node<M: NodeMap, L: LabelStore>(
    map: &mut M,
    store: &mut L,
    u: u32,
    c: u16,
    label: &[u8],
) -> u32
    ensures made { CanMake (M.NodeMap.meaning map.old) (L.LabelStore.meaning store.old) u c label.now → Made (M.NodeMap.meaning map.old) (L.LabelStore.meaning store.old) u c label.now (M.NodeMap.meaning map.new) (L.LabelStore.meaning store.new) result }
    ensures stays { (L.LabelStore.meaning store.new).places ≡ (L.LabelStore.meaning store.old).places }
{
    let _ = store.append(label, 0);
    map.add(u, c).unwrap_or(0)
}

// Makes what a tag lacks: the steps, each with an empty label, and then the last child, whose number is the answer.
pub(crate) fn grow<M: NodeMap, L: LabelStore>(map: &mut M, store: &mut L, gap: Gap<'_>) -> u32
    ensures grown { CanGrow (M.NodeMap.meaning map.old) (L.LabelStore.meaning store.old) gap.entry.node gap.entry.missing gap.entry.symbol gap.entry.label.now → Grown (M.NodeMap.meaning map.old) (L.LabelStore.meaning store.old) gap.entry.node gap.entry.missing gap.entry.symbol gap.entry.label.now (M.NodeMap.meaning map.new) (L.LabelStore.meaning store.new) result }
    ensures stays { (L.LabelStore.meaning store.new).places ≡ (L.LabelStore.meaning store.old).places }
{
    let mut node = gap.node;
    for _ in 0..gap.missing {
        node = make_node(map, store, node, STEP.step_symbol(), &[]);
    }
    make_node(map, store, node, gap.symbol, gap.label)
}
