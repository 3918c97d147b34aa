// Cases that run on a dictionary over every combination of makes.

#![tactic(auto)]

#[cfg(test)]
mod calls;
#[cfg(test)]
mod example;
#[cfg(test)]
mod tests;
