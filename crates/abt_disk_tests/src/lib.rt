//! Tests of stores on disks: whatever a crash leaves, failing disks, and files.
#![tactic(auto)]

#[cfg(test)]
mod tests;
