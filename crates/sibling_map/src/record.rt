// What is kept of a node: its parent and symbol, its newest child, and the next older child of its parent. There are at
// most 32,768 nodes, so 16 bits hold a number. Node 0 has no parent: 0 stands there, since an `Option` would make every
// record longer. A link is a record's number, since all records lie in memory that the caller lends, with no heap for a Box.
#[derive(Clone, Copy, PartialEq, Eq, Debug)]
pub struct NodeRecord {
    pub(crate) parent: u16,
    pub(crate) symbol: u16,
    pub(crate) first: Option<u16>,
    pub(crate) next: Option<u16>,
}

impl NodeRecord {
    // For making a list of records: what they hold before they are lent does not matter.
    pub const BLANK: NodeRecord = NodeRecord {
        parent: 0,
        symbol: 0,
        first: None,
        next: None,
    };
}
