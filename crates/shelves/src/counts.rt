// A tally's plain numbers.
#[derive(Clone, Copy, PartialEq, Eq, Debug)]
pub struct Counts {
    pub inserted: u32,
    pub accepted: u32,
    pub rejected: u32,
    pub takings: u32,
}
