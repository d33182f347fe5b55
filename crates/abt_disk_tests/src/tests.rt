//! What the tests of stores share.
mod blocks;
mod crashes;
mod failing;
mod files;
mod trial_file;

use abt_keep::Record;
use std::alloc::Global;
use std::fmt::{Debug, Display};
use std::process::Abort;
use std::test::Fail;

/// Demands that two values are equal. What calls this knows nothing of them from it, which keeps its proof short.
fn same<T: PartialEq + Debug>(rt: &impl Abort, found: &T, expected: &T) {
    assert_eq!(rt; *found, *expected);
}

/// Demands the words in which a value is told; if memory was refused, they are asked for again.
fn says<T: Display>(rt: &impl Abort, alloc: Global, value: &T, words: &str) -> Result<(), Fail> {
    let said = match format!(in alloc; "{value}") {
        Ok(said) => said,
        Err(_) => format!(in alloc; "{value}")?,
    };
    same(rt, &said.as_str(), &words);
    Ok(())
}

/// The records of the worked examples (docs/FORMATS.md, "Kept records"): 42 and a second, 43 and a millisecond.
fn old() -> Record {
    Record::old(42)
}

fn new() -> Result<Record, Fail> {
    Ok(Record::new(43, 1_000_000_000).ok_or("a record")?)
}
