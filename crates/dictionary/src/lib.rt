#![tactic(auto)]

pub mod calls;
mod climbing;
mod descent;
pub mod dictionary;
mod growth;
pub mod opening;
pub mod runs;
pub mod serve;
pub mod serving;
