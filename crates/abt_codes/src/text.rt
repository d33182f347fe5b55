//! The text of `abt code`.
ghost use Rattle.std.specs.Prelude.{◌≡◌, ◌<◌, ◌⊎◌, None, IfOk, IfErr, IsSomeAnd, string_bytes};
ghost use Rattle.abt_perform.specs.RateText.{rate_line};
ghost use Rattle.abt_codes.specs.CodeText.{IsCodeText, above_line};
ghost use Rattle.abt_codes.specs.Quantity.{quantity_in};
ghost use Rattle.abt_codes.specs.declared.fault.CodesFault.TheVariants.{Memory};
ghost use Rattle.abt_codes.specs.declared.fault.CodesFault.TheVariants as fault;

use crate::fault::CodesFault;
use crate::nearest::{above, below};
use crate::quantity::{Quantity, quantity_in};
use abt_perform::rate_line;
use abt_rate::Rate;
use std::alloc::{AllocError, Global};

/// The codes nearest to the rate that a text says: the greatest that isn't above it, and the least that isn't below it.
pub fn code_text(alloc: Global, word: &str) -> Result<String, CodesFault>
    ensures ok { IfOk result
        (λ text. IsSomeAnd (quantity_in word.now) (λ quantity. IsCodeText quantity (string_bytes text))) }
    ensures err { IfErr result
        (λ found. (found ≡ Memory) ⊎ ((found ≡ fault.Rate) × (quantity_in word.now ≡ None))) }
{
    match quantity_in(word) {
        Some(quantity) => Ok(nearest_text(alloc, quantity)?),
        None => Err(CodesFault::Rate),
    }
}

// The two lines of a quantity.
fn nearest_text(alloc: Global, quantity: Quantity) -> Result<String, AllocError>
    requires { 0 < quantity.under }
    ensures { IfOk result (λ text. IsCodeText quantity (string_bytes text)) }
{
    let below = rate_line(alloc, below(quantity))?;
    let above = above_line(alloc, above(quantity))?;
    format!(in alloc; "below {below}{above}")
}

fn above_line(alloc: Global, above: Option<Rate>) -> Result<String, AllocError>
    ensures { IfOk result (λ line. string_bytes line ≡ above_line above) }
{
    match above {
        Some(rate) => {
            let line = rate_line(alloc, rate)?;
            format!(in alloc; "above {line}")
        }
        None => String::from_str(alloc, "above none\n"),
    }
}
