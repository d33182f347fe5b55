//! Decimal numbers of any number of digits.
ghost use Rattle.std.specs.Prelude.{◌≡◌, ◌≤◌, ◌<◌, ℕ, Some, None, IfSome, length};
ghost use Rattle.abt_cli.specs.Decimal.{decimal_in};

/// The number that a word says in decimal digits, with any number of leading zeros, if it is at most `limit`, or `None`: no sign, no
/// space, nothing else (docs/FORMATS.md, "The program").
pub fn decimal_of(word: &str, limit: u64) -> Option<u64>
    ensures some { IfSome result (λ number. (decimal_in word.now ≡ Some number) × (number ≤ limit)) }
    ensures none { result ≡ None → (number : ℕ) → decimal_in word.now ≡ Some number → limit < number }
{
    if word.is_empty() {
        return None;
    }
    number_within(word.as_bytes(), limit)
}

// The number that octets say, of which there is one.
fn number_within(octets: &[u8], limit: u64) -> Option<u64>
    requires { 1 ≤ length octets.now }
    ensures some { IfSome result (λ number. (decimal_in octets.now ≡ Some number) × (number ≤ limit)) }
    ensures none { result ≡ None → (number : ℕ) → decimal_in octets.now ≡ Some number → limit < number }
{
    let mut value = 0_u64;
    for octet in octets {
        if !octet.is_ascii_digit() {
            return None;
        }
        let digit = u64::from(*octet - b'0');
        value = value.checked_mul(10)?.checked_add(digit)?;
    }
    if value <= limit { Some(value) } else { None }
}
