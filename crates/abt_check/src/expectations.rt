//! What a scenario expects of its events, by the array `expect`.
ghost use Rattle.std.specs.Prelude.{◌≡◌, IfOk, Some, length, option_map, string_bytes};
ghost use Rattle.toml.specs.Parse.{parse_document};
ghost use Rattle.toml.specs.View.{items_view, table_view, view};
ghost use Rattle.abt_text.specs.FirstFault.{GivesOr};
ghost use Rattle.abt_check.specs.Expectations as spec;
ghost use Rattle.abt_check.specs.Expectations.{texts_seen};
ghost use Rattle.abt_check.specs.declared.expectations.ExpectFault.TheVariants.{Memory};

use crate::outcome_words::is_expectation;
use std::alloc::{AllocError, AllocFailed, Global};
use toml::{Table, Value};

/// The key of the expected outcomes.
pub(crate) const EXPECT: &str = "expect";

/// Why the array `expect` of a scenario can't be compared with its outcomes: the first of these.
#[derive(Clone, Copy, Debug, PartialEq, Eq)]
pub enum ExpectFault {
    /// It is no array.
    NoArray,
    /// The item of this number, from 1, is no text.
    NoText { number: u64 },
    /// The text of this number, from 1, can't be an outcome, and isn't empty.
    NoOutcome { number: u64 },
    /// There aren't as many texts as events.
    Count { events: u64, texts: u64 },
    /// No memory was found.
    Memory,
}

impl From<AllocError> for ExpectFault {
    ghost from_gives = { λ _ fault. fault ≡ Memory };

    fn from(_: AllocError) -> ExpectFault {
        ExpectFault::Memory
    }
}

impl<T: Drop> From<AllocFailed<T>> for ExpectFault {
    ghost from_gives = { λ _ fault. fault ≡ Memory };

    fn from(_: AllocFailed<T>) -> ExpectFault {
        ExpectFault::Memory
    }
}

// The document of a text that is TOML. Of another one it is said that there is no memory.
pub(crate) fn document_of(alloc: Global, source: &str) -> Result<Table, AllocError>
    ensures { IfOk result (λ table. parse_document source.now ≡ Some (table_view table)) }
{
    match toml::table_from_str(alloc, source) {
        Ok(table) => Ok(table),
        Err(_) => Err(AllocError),
    }
}

// What stands at `expect` in a document.
pub(crate) fn expect_in<'a>(table: &'a Table) -> Option<&'a Value>
    ensures { option_map (λ value. view value.now) result
        ≡ spec.expect_of (Some (table_view table.entry.now)) }
{
    table.get(EXPECT)
}

// What is expected of so many events, or the first fault.
pub(crate) fn expectations_of(
    alloc: Global,
    events: usize,
    value: &Value,
) -> Result<Vec<String>, ExpectFault>
    ensures exact { GivesOr Memory texts_seen (spec.expectations_of events (view value.now)) result }
    ensures count { IfOk result (λ texts. length texts.items ≡ events) }
{
    let Some(values) = value.as_array() else {
        return Err(ExpectFault::NoArray);
    };
    let texts = expectations_in(alloc, values.as_slice())?;
    if texts.len() == events {
        Ok(texts)
    } else {
        Err(ExpectFault::Count {
            events: events as u64,
            texts: texts.len() as u64,
        })
    }
}

fn expectations_in(alloc: Global, values: &[Value]) -> Result<Vec<String>, ExpectFault>
    ensures { GivesOr Memory texts_seen (spec.expectations_from 1 (items_view values.now)) result }
{
    let mut texts = Vec::new(alloc);
    let mut number = 1;
    for value in values {
        texts.push(expectation_of(alloc, number, value)?)?;
        number += 1;
    }
    Ok(texts)
}

// What is expected of the event of a number.
fn expectation_of(alloc: Global, number: u64, value: &Value) -> Result<String, ExpectFault>
    ensures { GivesOr Memory string_bytes (spec.expectation_of number (view value.now)) result }
{
    let Some(text) = value.as_str() else {
        return Err(ExpectFault::NoText { number });
    };
    if !is_expectation(text) {
        return Err(ExpectFault::NoOutcome { number });
    }
    Ok(String::from_str(alloc, text)?)
}
