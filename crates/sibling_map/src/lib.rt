#![tactic(auto)]

pub mod map;
pub mod record;
pub mod shape;
#[cfg(test)]
mod tests;
