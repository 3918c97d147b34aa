use tags::refusal::Refusal;

// What a dictionary is made of: a node map, a label store and a shelf. Clauses take their three meanings one by one: a
// definition takes those of any make, and one fact for the three would only rename them.
#[derive(Drop)]
pub struct Parts<M, L, S> {
    pub map: M,
    pub store: L,
    pub shelf: S,
}

// A dictionary over a node map, a label store and a shelf, with which it works only through their traits. Its fields are
// private and only opening makes one, so by construction every dictionary either shows an arrival book or was opened over
// parts that did not fit, and then only says so.
#[derive(Drop)]
pub struct Dictionary<M, L, S> {
    pub(crate) parts: Parts<M, L, S>,
    // What checking the parts answered.
    pub(crate) opened: Result<(), Refusal>,
}
