//! Hexadecimal digits of cells.
ghost use Rattle.std.specs.Prelude.{◌≡◌, ◌<◌, ◌≤◌, ℕ, List, Ok, IfSome, length, slice_index};
ghost use Rattle.hex.specs.Hex.{decode_of};
ghost use Rattle.abt_parts.specs.HexValues.{HaveValues, value_or_16};

// The octets of a cell, and the digits that spell them.
const OCTETS: usize = 52;

const DIGITS: usize = 104;

// The octets that 104 digits of either case spell, or `None` if they aren't so many digits.
pub(crate) fn octets_of(digits: &[u8]) -> Option<[u8; OCTETS]>
    ensures { IfSome result (λ octets. decode_of digits.now ≡ Ok octets) }
{
    if digits.len() != DIGITS {
        return None;
    }
    let (values, most) = values_of(digits);
    if most > 15 {
        return None;
    }
    Some(octets_by(&values))
}

// The value of each digit, and the greatest of them.
fn values_of(digits: &[u8]) -> ([u8; DIGITS], u8)
    requires { length digits.now ≡ 104 }
    ensures values { HaveValues digits.now result.0 }
    ensures most { (k : ℕ) → k < 104 → slice_index result.0 k ≤ result.1 }
{
    let mut values = [0; DIGITS];
    let mut most = 0;
    for index in 0..DIGITS {
        let value = value_of(digits[index]);
        values[index] = value;
        most = value.max(most);
    }
    (values, most)
}

// The value of a digit, or 16 if it is none.
fn value_of(digit: u8) -> u8
    ensures { result ≡ value_or_16 digit }
{
    match digit {
        b'0'..=b'9' => digit - b'0',
        b'a'..=b'f' => digit - b'a' + 10,
        b'A'..=b'F' => digit - b'A' + 10,
        _ => 16,
    }
}

// The octets that digits of these values spell.
fn octets_by(values: &[u8; DIGITS]) -> [u8; OCTETS]
    requires { (k : ℕ) → k < 104 → slice_index values.now k ≤ 15 }
    ensures { (digits : List ℕ) → HaveValues digits values.now → decode_of digits ≡ Ok result }
{
    let mut octets = [0; OCTETS];
    for index in 0..OCTETS {
        octets[index] = values[2 * index] * 16 + values[2 * index + 1];
    }
    octets
}
