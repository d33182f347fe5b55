//! Worked rows of journals: each kind of line, read and written, each fault of a line and of a text, and runs in threads written and read.
#![tactic(auto)]

#[cfg(test)]
mod tests;
