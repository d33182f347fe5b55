//! What the tests of several parts share.
mod cell;
mod gcra;
mod keep;
mod ledger;
mod lines;
mod list;
mod net;
mod node;
mod progress;
mod rate;
mod safety;
mod shaper;
mod source;
mod text;

use abt_cell::Vc;
use std::alloc::Global;
use std::fmt::{Debug, Display};
use std::process::Abort;
use std::test::Fail;

/// A channel of VPI 1.
fn channel(vci: u16) -> Result<Vc, Fail> {
    Ok(Vc::new(1, vci).ok_or("the VPI is too great")?)
}

/// Demands that two values are equal. What calls this knows nothing of them from it, which keeps its proof short.
fn same<T: PartialEq + Debug>(rt: &impl Abort, found: &T, expected: &T) {
    assert_eq!(rt; *found, *expected);
}

/// Demands that two lists are equal.
fn same_items<T: PartialEq + Debug>(rt: &impl Abort, found: &[T], expected: &[T]) {
    assert_eq!(rt; found, expected);
}

/// Demands the words in which a value is told; if memory was refused, they are asked for again.
fn says<T: Display>(rt: &impl Abort, alloc: Global, value: &T, words: &str) -> Result<(), Fail> {
    let said = match format!(in alloc; "{value}") {
        Ok(said) => said,
        Err(_) => format!(in alloc; "{value}")?,
    };
    same(rt, &said.as_str(), &words);
    Ok(())
}
