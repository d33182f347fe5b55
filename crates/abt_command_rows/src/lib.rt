//! Rows of the program's commands, from their words to their octets.
#![tactic(auto)]

#[cfg(test)]
mod tests;
