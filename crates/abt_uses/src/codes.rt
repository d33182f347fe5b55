//! Rates in words, and the codes nearest to them.
ghost use Rattle.std.specs.Prelude.{◌≡◌, ◌≤◌, IfSome, IsSomeAnd};
ghost use Rattle.abt_codes.specs.Nearest.{IsBelow};
ghost use Rattle.abt_codes.specs.Quantity as quantity;
ghost use Rattle.abt_rate.specs.Rate.{units_of};

use abt_codes::{below, quantity_in};

/// The code of the greatest rate that isn't above a rate in words, such as `1.3Mbps`; `None` for words that say no rate.
pub fn code_below(words: &str) -> Option<u16>
    ensures { IfSome result (λ code. IsSomeAnd (quantity.quantity_in words.now)
        (λ said. IsBelow said (units_of code))) }
{
    let quantity = quantity_in(words)?;
    let rate = below(quantity);
    Some(rate.code())
}
