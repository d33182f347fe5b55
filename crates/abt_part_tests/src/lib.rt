//! Tests of single parts: cells, policers, links, stores, sources, nets and ports.
#![tactic(auto)]

#[cfg(test)]
mod port_tests;
#[cfg(test)]
mod tests;
