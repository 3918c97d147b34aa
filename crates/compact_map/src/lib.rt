#![tactic(auto)]

mod bytes;
mod hash;
pub mod laws;
pub mod map;
pub mod shape;
mod slot;
mod table;
#[cfg(test)]
mod tests;
