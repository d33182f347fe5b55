//! Numbers in the lines of reports, written into the report at once, as there are many.
ghost use Rattle.std.specs.Prelude.{◌≡◌, ◌++◌, OnOk, string_bytes};
ghost use Rattle.abt_text.specs.Text.{decimal};

use itoa::Buffer;
use std::alloc::AllocError;

// A number in decimal digits.
pub(crate) fn push_number(text: &mut String, number: u64) -> Result<(), AllocError>
    ensures { OnOk result (string_bytes text.new ≡ string_bytes text.old ++ decimal number) }
{
    let mut buffer = Buffer::new();
    text.push_str(buffer.format(number))
}
