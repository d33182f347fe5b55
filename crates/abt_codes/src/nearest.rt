//! The rates that codes say, nearest to a quantity.
ghost use Rattle.std.specs.Prelude.{◌≡◌, ◌↔◌, ◌<◌, ℕ, IsNone, IsTrue, IfSome};
ghost use Rattle.abt_codes.specs.Nearest.{IsAbove, IsBelow, IsExactly, IsNearest, IsSaid};
ghost use Rattle.abt_codes.specs.declared.nearest.SaidRate.{SaidRate};

use crate::quantity::{Quantity, quantity_in};
use abt_format::rate_of;
use abt_rate::Rate;

/// The rate that a word says.
#[derive(Clone, Copy, Debug, PartialEq, Eq)]
pub struct SaidRate {
    /// The rate of a code.
    pub rate: Rate,
    /// Whether it is just the one that the word says, and isn't below it.
    pub is_exact: bool,
}

/// The greatest rate of a code that isn't above a quantity.
pub fn below(quantity: Quantity) -> Rate
    requires { 0 < quantity.under }
    ensures { IsBelow quantity result }
{
    match u64::try_from(quantity.over / quantity.under) {
        Ok(units) => Rate::at_most(units),
        Err(_) => Rate::at_most(u64::MAX),
    }
}

/// The least rate of a code that isn't below a quantity, or `None` if the quantity is above the greatest rate.
pub fn above(quantity: Quantity) -> Option<Rate>
    requires { 0 < quantity.under }
    ensures { IsAbove quantity result }
{
    match u64::try_from(quantity.over.div_ceil(quantity.under)) {
        Ok(units) => Rate::at_least(units),
        Err(_) => None,
    }
}

/// The rate of a code that is just a quantity, or `None` if no code says it.
#[tactic(auto, using(crate::proofs::Quotients::same_rate))]
pub fn exactly(quantity: Quantity) -> Option<Rate>
    requires { 0 < quantity.under }
    ensures some { IfSome result (IsExactly quantity) }
    ensures none { IsNone result → (units : ℕ) → IsExactly quantity units → ⊥ }
{
    let nearest = nearest_to(quantity);
    if nearest.is_exact {
        return Some(nearest.rate);
    }
    None
}

// The greatest rate of a code that isn't above a quantity, and whether it is just that.
#[tactic(auto, using(crate::proofs::Quotients::exactly, crate::proofs::Quotients::no_other))]
fn nearest_to(quantity: Quantity) -> SaidRate
    requires { 0 < quantity.under }
    ensures { IsNearest quantity result }
{
    let rate = below(quantity);
    let units = u128::from(rate.units());
    let is_exact = quantity.over / quantity.under == units && quantity.over % quantity.under == 0;
    SaidRate { rate, is_exact }
}

/// The rate that a word says: that of a code of four hexadecimal digits, or of a rate in words the greatest of a code that isn't above it.
pub fn rate_said(word: &str) -> Option<SaidRate>
    ensures some { IfSome result (IsSaid word.now) }
    ensures none { IsNone result → (said : SaidRate) → IsSaid word.now said → ⊥ }
{
    match rate_of(word) {
        Some(rate) => Some(SaidRate {
            rate,
            is_exact: true,
        }),
        None => Some(nearest_to(quantity_in(word)?)),
    }
}
