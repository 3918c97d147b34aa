#![tactic(auto)]

pub mod command;
pub mod lines;
mod numbers;
pub mod reading;
