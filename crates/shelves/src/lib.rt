#![tactic(auto)]

pub mod bit;
pub mod counts;
mod lent;
pub mod record;
pub mod tally;
#[cfg(test)]
mod tests;
