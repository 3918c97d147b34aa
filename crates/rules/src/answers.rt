// The row that holds a value for a tag: its ticket, and the value.
#[derive(Clone, Copy, PartialEq, Eq, Debug)]
pub struct Held<V> {
    pub ticket: u32,
    pub value: V,
}

// What a find of a well-formed tag answers: the row that holds a value for it, or none. A move is a passage to a child on
// the way down the tree.
#[derive(Clone, Copy, PartialEq, Eq, Debug)]
pub struct Found<V> {
    pub held: Option<Held<V>>,
    pub moves: u32,
}

// What one call of a run answers where it is not refused.
#[derive(Clone, Copy, PartialEq, Eq, Debug)]
pub enum Answer<V> {
    Entered(u32),
    Changed(u32),
    Struck(u32),
    Looked(Found<V>),
    Spelled(usize),
    Doubled(u32),
}

// One call of a run. A spell says how many bytes long its buffer is.
#[derive(Clone, Copy, PartialEq, Eq, Debug)]
pub enum Call<'a, V> {
    Enter { tag: &'a [u8], value: V },
    Change { tag: &'a [u8], value: V },
    Find { tag: &'a [u8] },
    Strike { tag: &'a [u8] },
    Spell { ticket: u32, buffer: usize },
    Double,
}
