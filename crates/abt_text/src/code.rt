//! Rate codes as text.
ghost use Rattle.std.specs.Prelude.{◌≡◌, ◌<◌, ◌++◌, Some, OnOk, false, string_bytes};
ghost use Rattle.std.specs.Str.{IsAscii};
ghost use Rattle.std.specs.Fmt.{digit_glyph};
ghost use Rattle.abt_text.specs.Text.{code_text};

use std::alloc::AllocError;
use std::fmt;

/// A code of 16 bits that shows itself as four lower-case hexadecimal digits, as rate codes are printed
/// (docs/FORMATS.md, "Report").
#[derive(Clone, Copy, Debug, PartialEq, Eq)]
pub struct HexCode(pub u16);

impl HexCode {
    /// Puts the four digits at the end of a text.
    pub fn push_to(self, text: &mut String) -> Result<(), AllocError>
        ensures { OnOk result (string_bytes text.new ≡ string_bytes text.old ++ code_text self.0) }
    {
        let digits = self.digits();
        match std::str::from_utf8(&digits) {
            Ok(digits) => text.push_str(digits),
            Err(_) => unreachable!(),
        }
    }

    // The four digits as octets, the most significant first.
    fn digits(self) -> [u8; 4]
        ensures value { result ≡ code_text self.0 }
        ensures ascii { IsAscii result }
    {
        let code = self.0;
        [
            digit_of(code >> 12),
            digit_of((code >> 8) % 16),
            digit_of((code >> 4) % 16),
            digit_of(code % 16),
        ]
    }
}

impl fmt::Display for HexCode {
    ghost output = { λ code. Some (code_text code.0) };

    fn fmt<W: fmt::Write>(&self, f: &mut fmt::Formatter<W>) -> fmt::Result {
        let digits = self.digits();
        match std::str::from_utf8(&digits) {
            Ok(text) => f.write_str(text),
            Err(_) => unreachable!(),
        }
    }
}

// The ASCII digit of a number below 16.
fn digit_of(number: u16) -> u8
    requires { number < 16 }
    ensures value { result ≡ digit_glyph false number }
    ensures ascii { result < 128 }
{
    let number = number as u8;
    if number < 10 {
        b'0' + number
    } else {
        b'a' + (number - 10)
    }
}
