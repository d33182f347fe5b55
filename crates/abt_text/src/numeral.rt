//! Numbers in texts.
ghost use Rattle.std.specs.Prelude.{◌≡◌, ◌^◌};
ghost use Rattle.abt_text.specs.Words.{number_of, number_below};

/// The number of 1 to 19 decimal digits that a text is, leading zeros allowed, or `None`: no sign, no space, nothing
/// else (docs/FORMATS.md, "Scenario").
pub fn u64_of(text: &str) -> Option<u64>
    ensures { result ≡ number_of text.now }
{
    number_of(text.as_bytes())
}

/// The number of 1 to 19 decimal digits that a text is, if it is below 2^32.
pub fn u32_of(text: &str) -> Option<u32>
    ensures { result ≡ number_below (2 ^ 32) text.now }
{
    u32::try_from(u64_of(text)?).ok()
}

/// The number of 1 to 19 decimal digits that a text is, if it is below 2^16.
pub fn u16_of(text: &str) -> Option<u16>
    ensures { result ≡ number_below (2 ^ 16) text.now }
{
    u16::try_from(u64_of(text)?).ok()
}

// The number that octets are.
fn number_of(octets: &[u8]) -> Option<u64>
    ensures { result ≡ number_of octets.now }
{
    if octets.is_empty() || octets.len() > 19 {
        return None;
    }
    let mut value = 0;
    for octet in octets {
        if !octet.is_ascii_digit() {
            return None;
        }
        value = value * 10 + u64::from(*octet - b'0');
    }
    Some(value)
}
