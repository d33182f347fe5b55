//! Worked rows of scenarios, from their texts to their reports, which go through every crate below.
#![tactic(auto)]

#[cfg(test)]
mod tests;
