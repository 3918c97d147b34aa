#![tactic(auto)]

mod fill;
pub mod grouped;
mod labels;
mod layout;
pub mod lent;
pub mod plain;
#[cfg(test)]
mod tests;
