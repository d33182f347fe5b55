//! What stands at the keys of a table.
ghost use Rattle.std.specs.Prelude.{◌≡◌, ◌<◌, ◌≤◌, ◌^◌, option_map, MatchResult, IfOk};
ghost use Rattle.toml.specs.Data.{get_member};
ghost use Rattle.toml.specs.View.{view, table_view, items_view};
ghost use Rattle.abt_scenario.specs.Keys.{key_name};
ghost use Rattle.abt_text.specs.FirstFault.{listed};
ghost use Rattle.abt_scenario.specs.Reading.{Gives, texts_seen};
ghost use Rattle.abt_scenario.specs.Values.{member_at, whole_of, numbers_of, numbers_in, are_texts, texts_among, texts_at, texts_in};

use crate::fault::ScenarioFault;
use crate::key::Key;
use std::alloc::Global;
use toml::{Table, Value};

/// No number of a TOML text is as great.
pub(crate) const WHOLE_LIMIT: u64 = 9_223_372_036_854_775_808;

// What stands at a key.
pub(crate) fn value_at<'a>(table: &'a Table, key: Key) -> Option<&'a Value>
    ensures { option_map (λ value. view value.now) result
        ≡ get_member (key_name key) (table_view table.entry.now) }
{
    table.get(key.name())
}

// What stands at a key that has to be there.
pub(crate) fn member_at<'a>(table: &'a Table, key: Key) -> Result<&'a Value, ScenarioFault>
    ensures { let exact = member_at key (table_view table.entry.now) in
        MatchResult result (λ value. exact ≡ Ok (view value.now)) (λ fault. exact ≡ Err fault) }
{
    match value_at(table, key) {
        Some(value) => Ok(value),
        None => Err(ScenarioFault::MissingKey(key)),
    }
}

// A whole number below a limit.
pub(crate) fn whole_of(value: &Value, key: Key, limit: u64) -> Result<u64, ScenarioFault>
    ensures value { result ≡ whole_of limit key (view value.now) }
    ensures within { IfOk result (λ number. number < limit) }
{
    match value.as_integer() {
        Some(number) => match u64::try_from(number) {
            Ok(number) if number < limit => Ok(number),
            _ => Err(ScenarioFault::WrongType(key)),
        },
        None => Err(ScenarioFault::WrongType(key)),
    }
}

// A whole number of 16 bits below a limit.
pub(crate) fn short_of(value: &Value, key: Key, limit: u64) -> Result<u16, ScenarioFault>
    requires { limit ≤ 2 ^ 16 }
    ensures value { result ≡ whole_of limit key (view value.now) }
    ensures within { IfOk result (λ number. number < limit) }
{
    let number = whole_of(value, key, limit)?;
    Ok(number as u16)
}

// An array of whole numbers.
pub(crate) fn numbers_of(alloc: Global, value: &Value, key: Key) -> Result<Vec<u64>, ScenarioFault>
    ensures { Gives listed (numbers_of (2 ^ 63) key (view value.now)) result }
{
    match value.as_array() {
        Some(values) => numbers_in(alloc, values.as_slice(), key),
        None => Err(ScenarioFault::WrongType(key)),
    }
}

fn numbers_in(alloc: Global, values: &[Value], key: Key) -> Result<Vec<u64>, ScenarioFault>
    ensures { Gives listed (numbers_in (2 ^ 63) key (items_view values.now)) result }
{
    let mut numbers = Vec::new(alloc);
    for value in values {
        numbers.push(whole_of(value, key, WHOLE_LIMIT)?)?;
    }
    Ok(numbers)
}

// Whole numbers of 16 bits, in an array.
pub(crate) fn shorts_of(alloc: Global, value: &Value, key: Key) -> Result<Vec<u16>, ScenarioFault>
    ensures { Gives listed (numbers_of (2 ^ 16) key (view value.now)) result }
{
    match value.as_array() {
        Some(values) => shorts_in(alloc, values.as_slice(), key),
        None => Err(ScenarioFault::WrongType(key)),
    }
}

fn shorts_in(alloc: Global, values: &[Value], key: Key) -> Result<Vec<u16>, ScenarioFault>
    ensures { Gives listed (numbers_in (2 ^ 16) key (items_view values.now)) result }
{
    let mut numbers = Vec::new(alloc);
    for value in values {
        numbers.push(short_of(value, key, 65536)?)?;
    }
    Ok(numbers)
}

// The texts at a key, none if it is missing.
pub(crate) fn texts_at<'a>(
    alloc: Global,
    table: &'a Table,
    key: Key,
) -> Result<Vec<&'a str>, ScenarioFault>
    ensures { Gives texts_seen (texts_at key (table_view table.entry.now)) result }
{
    match value_at(table, key) {
        Some(value) => match value.as_array() {
            Some(values) => texts_in(alloc, values.as_slice(), key),
            None => Err(ScenarioFault::WrongType(key)),
        },
        None => Ok(Vec::new(alloc)),
    }
}

fn texts_in<'a>(alloc: Global, values: &'a [Value], key: Key) -> Result<Vec<&'a str>, ScenarioFault>
    ensures { Gives texts_seen (texts_in key (items_view values.entry.now)) result }
{
    let mut texts = Vec::new(alloc);
    for value in values {
        match value.as_str() {
            Some(text) => texts.push(text)?,
            None => return Err(ScenarioFault::WrongType(key)),
        }
    }
    Ok(texts)
}

// The values at a key, which are all texts; none if the key is missing.
pub(crate) fn text_values_at<'a>(table: &'a Table, key: Key) -> Result<&'a [Value], ScenarioFault>
    ensures { Gives
        (λ values. texts_among (items_view values.now)) (texts_at key (table_view table.entry.now)) result }
{
    match value_at(table, key) {
        Some(value) => match value.as_array() {
            Some(values) => text_values(values.as_slice(), key),
            None => Err(ScenarioFault::WrongType(key)),
        },
        None => Ok(&[]),
    }
}

// These values, if all of them are texts.
#[tactic(auto, using(crate::proofs::TextValues::texts_are))]
fn text_values<'a>(values: &'a [Value], key: Key) -> Result<&'a [Value], ScenarioFault>
    ensures { Gives
        (λ values. texts_among (items_view values.now)) (texts_in key (items_view values.entry.now)) result }
{
    if are_texts(values) {
        Ok(values)
    } else {
        Err(ScenarioFault::WrongType(key))
    }
}

fn are_texts(values: &[Value]) -> bool
    ensures { result ≡ are_texts (items_view values.now) }
{
    for value in values {
        if value.as_str().is_none() {
            return false;
        }
    }
    true
}
