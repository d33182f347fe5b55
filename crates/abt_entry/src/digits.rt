//! Numbers of 64 bits as decimal digits.
ghost use Rattle.std.specs.Prelude.{◌≡◌};
ghost use Rattle.abt_entry.specs.Values.{digits_of};

// The number of 1 to 20 decimal digits that a text is, or `None`: no sign, no point, nothing else.
pub(crate) fn digits_of(octets: &[u8]) -> Option<u128>
    ensures { result ≡ digits_of octets.now }
{
    if octets.is_empty() || octets.len() > 20 {
        return None;
    }
    let mut value = 0;
    for octet in octets {
        if !octet.is_ascii_digit() {
            return None;
        }
        value = value * 10 + u128::from(*octet - b'0');
    }
    Some(value)
}
