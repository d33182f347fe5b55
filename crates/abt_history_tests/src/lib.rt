//! Runs in threads, which keep their history or keep none, by the same workers.
#![tactic(auto)]

#[cfg(test)]
mod tests;
