#![tactic(auto)]

mod lists;
mod output;
pub mod serve;
mod texts;
