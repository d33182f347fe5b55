//! Worked stories of whole nets, which go through every crate below.
#![tactic(auto)]

#[cfg(test)]
mod tests;
