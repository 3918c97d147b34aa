#![tactic(auto)]

pub mod map;
pub mod shelf;
pub mod sizes;
pub mod store;
