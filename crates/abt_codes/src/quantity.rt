//! Rates in words.
ghost use Rattle.std.specs.Prelude.{◌≡◌, ◌<◌, ◌≤◌, ◌*◌, ◌^◌, take, drop, IfSome};
ghost use Rattle.std.specs.Option.{option_map};
ghost use Rattle.std.specs.List.{prefix_len};
ghost use Rattle.std.specs.Char.{is_ascii_digit};
ghost use Rattle.std.specs.Str.{IsCharBoundary};
ghost use Rattle.abt_codes.specs.Quantity.{behind_digits, behind_point, digits_of, places_max, quantity_in, quantity_of, unit_of, units_in, with_fraction, with_places, with_rest, with_unit};

use abt_text::u64_of;

// The decimal places of a rate at most.
const PLACES_MAX: usize = 9;

// The bits of a cell on the line: 53 octets.
const CELL_BITS: u128 = 424;

/// A rate in units of 1/512 cell/s, as a quotient of two numbers: it may lie between two numbers of units.
#[derive(Clone, Copy, Debug, PartialEq, Eq)]
pub struct Quantity {
    /// The dividend.
    pub over: u128,
    /// By what, above 0.
    pub under: u128,
}

/// The unit that a rate counts in a second.
#[derive(Clone, Copy, Debug, PartialEq, Eq)]
pub enum RateUnit {
    /// Cells.
    Cells,
    /// Bits on the line, 424 for each cell.
    Bits,
    /// 1,000 such bits.
    Kilobits,
    /// 1,000,000 such bits.
    Megabits,
    /// 1,000,000,000 such bits.
    Gigabits,
}

/// The rate that a text says, such as `500cps` or `1.3Mbps`: 1 to 19 digits, maybe a point and 1 to 9 digits, and `cps`, `bps`, `kbps`,
/// `Mbps` or `Gbps` (docs/FORMATS.md, "Rates in words"). It is exact.
pub fn quantity_in(text: &str) -> Option<Quantity>
    ensures value { result ≡ quantity_in text.now }
    ensures divides { IfSome result (λ quantity. 0 < quantity.under) }
{
    let (digits, rest) = cut(text);
    let whole = u64_of(digits)?;
    with_rest(whole, rest, behind_point(rest))
}

/// The whole units of 1/512 cell/s in the rate that a text says.
pub fn units_in(text: &str) -> Option<u128>
    ensures { result ≡ units_in text.now }
{
    let quantity = quantity_in(text)?;
    Some(quantity.over / quantity.under)
}

/// The digits that a text begins with, and what stands behind them.
pub(crate) fn cut(text: &str) -> (&str, &str)
    ensures digits { result.0.now ≡ digits_of text.now }
    ensures rest { result.1.now ≡ behind_digits text.now }
{
    text.split_at(digit_count(text))
}

// How many digits a text begins with.
fn digit_count(text: &str) -> usize
    ensures value { result ≡ prefix_len is_ascii_digit text.now }
    ensures boundary { IsCharBoundary text.now result }
{
    for (place, octet) in text.as_bytes().iter().enumerate() {
        if !octet.is_ascii_digit() {
            return place;
        }
    }
    text.len()
}

// What stands behind the point that a text begins with, if it does.
fn behind_point(text: &str) -> Option<&str>
    ensures { option_map (λ rest. rest.now) result ≡ behind_point text.now }
{
    match text.as_bytes().first() {
        Some(b'.') => Some(&text[1..]),
        _ => None,
    }
}

fn with_rest(whole: u64, rest: &str, fraction: Option<&str>) -> Option<Quantity>
    ensures value { result ≡ with_rest whole rest.now (option_map (λ text. text.now) fraction.entry) }
    ensures divides { IfSome result (λ quantity. 0 < quantity.under) }
{
    match fraction {
        Some(text) => with_fraction(whole, text),
        None => with_unit(u128::from(whole), 0, rest),
    }
}

fn with_fraction(whole: u64, text: &str) -> Option<Quantity>
    ensures value { result ≡ with_fraction whole text.now }
    ensures divides { IfSome result (λ quantity. 0 < quantity.under) }
{
    let (digits, rest) = cut(text);
    let fraction = u64_of(digits)?;
    with_places(whole, fraction, digits.len(), rest)
}

#[tactic(auto, using(crate::proofs::Scales::has_room))]
fn with_places(whole: u64, fraction: u64, places: usize, word: &str) -> Option<Quantity>
    ensures value { result ≡ with_places whole fraction places word.now }
    ensures divides { IfSome result (λ quantity. 0 < quantity.under) }
{
    if places > PLACES_MAX {
        return None;
    }
    let number = u128::from(whole) * ten_to(places) + u128::from(fraction);
    with_unit(number, places, word)
}

fn with_unit(number: u128, places: usize, word: &str) -> Option<Quantity>
    requires number { number < 2 ^ 65 * 10 ^ places }
    requires places { places ≤ places_max }
    ensures value { result ≡ with_unit number places word.now }
    ensures divides { IfSome result (λ quantity. 0 < quantity.under) }
{
    let unit = unit_of(word)?;
    Some(quantity_of(number, places, unit))
}

fn unit_of(word: &str) -> Option<RateUnit>
    ensures { result ≡ unit_of word.now }
{
    match word {
        "cps" => Some(RateUnit::Cells),
        "bps" => Some(RateUnit::Bits),
        "kbps" => Some(RateUnit::Kilobits),
        "Mbps" => Some(RateUnit::Megabits),
        "Gbps" => Some(RateUnit::Gigabits),
        _ => None,
    }
}

// A number with so many decimal places of a unit.
#[tactic(auto, using(crate::proofs::Scales::in_whole, crate::proofs::Scales::at_most))]
fn quantity_of(number: u128, places: usize, unit: RateUnit) -> Quantity
    requires number { number < 2 ^ 65 * 10 ^ places }
    requires places { places ≤ places_max }
    ensures value { result ≡ quantity_of number places unit }
    ensures divides { 0 < result.under }
{
    let tens = ten_to(places);
    match unit {
        RateUnit::Cells => Quantity {
            over: number * 512,
            under: tens,
        },
        RateUnit::Bits => Quantity {
            over: number * 512,
            under: tens * CELL_BITS,
        },
        RateUnit::Kilobits => Quantity {
            over: number * 1_000 * 512,
            under: tens * CELL_BITS,
        },
        RateUnit::Megabits => Quantity {
            over: number * 1_000_000 * 512,
            under: tens * CELL_BITS,
        },
        RateUnit::Gigabits => Quantity {
            over: number * ten_to(PLACES_MAX - places) * 512,
            under: CELL_BITS,
        },
    }
}

// A power of ten.
fn ten_to(places: usize) -> u128
    requires { places ≤ places_max }
    ensures value { result ≡ 10 ^ places }
    ensures positive { 0 < result }
    ensures bound { result ≤ 10 ^ 9 }
{
    match places {
        0 => 1,
        1 => 10,
        2 => 100,
        3 => 1_000,
        4 => 10_000,
        5 => 100_000,
        6 => 1_000_000,
        7 => 10_000_000,
        8 => 100_000_000,
        _ => 1_000_000_000,
    }
}
