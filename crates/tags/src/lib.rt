#![tactic(auto)]

pub mod refusal;
pub mod tag;
#[cfg(test)]
mod tests;
