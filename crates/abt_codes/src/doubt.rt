//! Codes that say rate 0, and are maybe meant as cells per second.
ghost use Rattle.std.specs.Prelude.{◌≡◌, ◌↔◌, ◌<◌, IfOk, IsTrue, string_bytes};
ghost use Rattle.std.specs.Option.{option_map};
ghost use Rattle.abt_codes.specs.Doubts as spec;
ghost use Rattle.abt_codes.specs.Doubts.{IsCodeBelow, IsCodeDoubt, IsDoubtful, IsOfCells};

use crate::nearest::below;
use crate::quantity::Quantity;
use abt_format::rate_of;
use abt_text::{HexCode, u64_of};
use std::alloc::{AllocError, Global};

// The units of one cell per second.
const CELL_UNITS: u128 = 512;

/// The code of the greatest rate that isn't above a quantity.
pub fn code_below(quantity: Quantity) -> u16
    requires { 0 < quantity.under }
    ensures { IsCodeBelow quantity result }
{
    below(quantity).code()
}

/// What is doubtful in a word that is a rate code: it says rate 0, isn't `0000`, and was maybe to be so many cells per second
/// (docs/FORMATS.md, "Checks").
///
/// # Errors
/// If memory is refused.
pub fn code_doubt(alloc: Global, word: &str) -> Result<Option<String>, AllocError>
    ensures { IfOk result (λ doubt. IsCodeDoubt word.now (option_map string_bytes doubt)) }
{
    if !is_doubtful(word) {
        return Ok(None);
    }
    let text = match u64_of(word) {
        Some(cells) => cells_doubt(alloc, word, cells)?,
        None => zero_doubt(alloc, word)?,
    };
    Ok(Some(text))
}

// Whether a code says rate 0, and isn't the one that is written for it.
fn is_doubtful(word: &str) -> bool
    ensures { IsTrue result ↔ IsDoubtful word.now }
{
    match rate_of(word) {
        Some(rate) => rate.units() == 0 && word != "0000",
        None => false,
    }
}

// What is told of one that is so many cells per second by its digits.
fn cells_doubt(alloc: Global, word: &str, cells: u64) -> Result<String, AllocError>
    ensures { IfOk result (λ text. IsOfCells word.now cells (string_bytes text)) }
{
    let quantity = Quantity {
        over: u128::from(cells) * CELL_UNITS,
        under: 1,
    };
    let code = HexCode(code_below(quantity));
    format!(in alloc; "code {word} is rate 0; {cells} cells/s is {code}")
}

// What is told of another one.
fn zero_doubt(alloc: Global, word: &str) -> Result<String, AllocError>
    ensures { IfOk result (λ text. string_bytes text ≡ spec.zero_text word.now) }
{
    format!(in alloc; "code {word} is rate 0, which is written 0000")
}
