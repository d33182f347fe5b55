//! Worked journals, and journals of generated lists of events against a slow search by the definitions.
#![tactic(auto)]

#[cfg(test)]
mod tests;
#[cfg(test)]
mod walk_tests;
