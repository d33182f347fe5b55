//! Runs of nets in threads, and the workers of such runs called by themselves.
#![tactic(auto)]

#[cfg(test)]
mod tests;
