use dictionary::dictionary::Parts;
use parts::map::NodeMap;
use parts::shelf::Shelf;
use parts::store::LabelStore;
use rules::step::Step;
use session::serve::serve_list;
use std::alloc::{AllocError, Global};

// How a node hangs below its parent.
#[derive(Clone, Copy)]
pub(crate) struct Edge {
    pub(crate) parent: u32,
    pub(crate) symbol: u16,
}

impl Edge {
    // Whether it leads to a step node.
    pub(crate) fn is_step(self) -> bool {
        self.symbol == Step::By32.step_symbol()
    }

    pub(crate) fn byte(self) -> u8 {
        (Step::By32.byte_of(self.symbol) & 255) as u8
    }

    // The place of its byte in a label, past the steps.
    pub(crate) fn place(self) -> usize {
        Step::By32.place_of(self.symbol)
    }
}

// A node with its label, the amount that its row holds, the first node that hangs below it, and the next below the same
// parent. Only node 0 has no edge, and it has no label before a tag is entered.
#[derive(Drop)]
pub(crate) struct Node {
    pub(crate) edge: Option<Edge>,
    pub(crate) label: Option<Vec<u8>>,
    pub(crate) amount: Option<u32>,
    pub(crate) first: Option<u32>,
    pub(crate) next: Option<u32>,
}

impl Node {
    pub(crate) fn is_step(&self) -> bool {
        self.edge.is_some_and(|edge| edge.is_step())
    }
}

// What a run leaves: how many label bytes there are, the current room, and the nodes in number order. They lie in a list and
// name one another by number: nodes that own those below them are dropped by a recursion as deep as the tree, take more
// memory, and are found by number only by a walk.
#[derive(Drop)]
pub(crate) struct Tree {
    pub(crate) label_bytes: u32,
    pub(crate) room: u32,
    pub(crate) nodes: Vec<Node>,
}

impl Tree {
    // The edge of the node with this number.
    pub(crate) fn edge_of(&self, number: usize) -> Option<Edge> {
        self.nodes.get(number)?.edge
    }
}

// Runs a list on a dictionary over these parts. What is printed for it is not kept.
// The parts come one by one: for a caller of concrete makes that builds a `Parts`, the checker makes no proof, since a type
// argument holds a `&mut` and a struct that has a ghost field.
pub(crate) fn run_on<M: NodeMap + Drop, L: LabelStore + Drop, S: Shelf<Value = u32> + Drop>(
    heap: Global,
    map: M,
    store: L,
    shelf: S,
    text: &[u8],
) -> Result<Tree, AllocError> {
    let (dictionary, _) = serve_list(Parts { map, store, shelf }, text, &mut []);
    let parts = dictionary.into_parts();
    let mut nodes: Vec<Node> = (0..parts.map.count())
        .map(|v| node_of(heap, &parts, v))
        .try_collect(heap)?;
    hang(&mut nodes, parts.map.count());
    Ok(Tree {
        label_bytes: parts.store.total(),
        room: parts.map.room(),
        nodes,
    })
}

// A node with nothing below it.
fn node_of<M: NodeMap, L: LabelStore, S: Shelf<Value = u32>>(
    heap: Global,
    parts: &Parts<M, L, S>,
    v: u32,
) -> Result<Node, AllocError> {
    let Parts { map, store, shelf } = parts;
    Ok(Node {
        edge: edge_of(map, v),
        label: label_of(heap, store, v)?,
        amount: shelf.get(v).unwrap_or(None),
        first: None,
        next: None,
    })
}

fn edge_of<M: NodeMap>(map: &M, v: u32) -> Option<Edge> {
    let (parent, symbol) = map.up(v).ok()?;
    Some(Edge { parent, symbol })
}

fn label_of<L: LabelStore>(heap: Global, store: &L, v: u32) -> Result<Option<Vec<u8>>, AllocError> {
    let Ok(length) = store.length(v) else {
        return Ok(None);
    };
    let bytes = (0..length).filter_map(|i| store.byte(v, i).ok());
    Ok(Some(bytes.collect(heap)?))
}

// Hangs each node, the last first, in front of those that hang below its parent already, so that they rise by number.
fn hang(nodes: &mut [Node], count: u32) {
    for v in (0..count).rev() {
        let Some(edge) = nodes.get(v as usize).and_then(|node| node.edge) else {
            continue;
        };
        let Some(parent) = nodes.get_mut(edge.parent as usize) else {
            continue;
        };
        let next = parent.first.replace(v);
        if let Some(node) = nodes.get_mut(v as usize) {
            node.next = next;
        }
    }
}
