//! Durations in words.
ghost use Rattle.std.specs.Prelude.{◌≡◌, ◌≤◌, ◌^◌, IfSome};
ghost use Rattle.abt_codes.specs.Durations as spec;

use crate::quantity::cut;
use abt_text::u64_of;

/// The picoseconds that a text says, such as `200`, `200ps` or `1ms`: 1 to 19 digits, and maybe `ps`, `ns`, `us` or `ms`
/// (docs/FORMATS.md, "Parts by hand").
pub fn picoseconds_in(text: &str) -> Option<u128>
    ensures { result ≡ spec.picoseconds_in text.now }
{
    let (digits, unit) = cut(text);
    let number = u64_of(digits)?;
    let scale = picoseconds_of(unit)?;
    Some(u128::from(number) * scale)
}

// How many picoseconds a unit has.
fn picoseconds_of(unit: &str) -> Option<u128>
    ensures value { result ≡ spec.picoseconds_of unit.now }
    ensures bound { IfSome result (λ scale. scale ≤ 10 ^ 9) }
{
    match unit {
        "" | "ps" => Some(1),
        "ns" => Some(1_000),
        "us" => Some(1_000_000),
        "ms" => Some(1_000_000_000),
        _ => None,
    }
}
