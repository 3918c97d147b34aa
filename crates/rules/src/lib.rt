#![tactic(auto)]

pub mod answers;
pub mod laws;
pub mod step;
