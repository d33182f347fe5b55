//! Rates in words where a rate code is wanted.
use abt_codes::{Quantity, code_below, exactly, quantity_in};
use abt_text::HexCode;
use std::alloc::{AllocError, Global};

// The code that says a rate in words, and of one that no code says the nearest code below, behind a semicolon; nothing for other words.
pub(crate) fn code_meant(alloc: Global, word: &str) -> Result<String, AllocError> {
    match said_of(alloc, word)? {
        Some(said) => format!(in alloc; "; {said}"),
        None => Ok(String::new(alloc)),
    }
}

fn said_of(alloc: Global, word: &str) -> Result<Option<String>, AllocError> {
    match quantity_in(word) {
        Some(quantity) => Ok(Some(code_said(alloc, word, quantity)?)),
        None => Ok(None),
    }
}

// Which code says a rate that is written so.
fn code_said(alloc: Global, written: &str, quantity: Quantity) -> Result<String, AllocError> {
    if quantity.under == 0 {
        return Ok(String::new(alloc));
    }
    let code = HexCode(code_below(quantity));
    if exactly(quantity).is_some() {
        format!(in alloc; "{written} is code {code}")
    } else {
        format!(in alloc; "the nearest code below {written} is {code}")
    }
}
