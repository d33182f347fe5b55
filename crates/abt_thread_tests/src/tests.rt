//! Runs of nets in threads. What the clauses don't say: that workers run side by side, that messages go on and answers are heard.
mod answers;
mod arrivals;
mod crossing;
mod crowds;
mod fixture;
mod gates;
mod heard;
mod links;
mod locks;
mod memory;
mod operators;
mod relays;
mod reserved;
mod rows;
