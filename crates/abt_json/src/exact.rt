//! Numbers that not every reader holds exactly.
ghost use Rattle.std.specs.Prelude.{OnOk};
ghost use Rattle.abt_entry.specs.ObjectMembers.{Adds};
ghost use Rattle.abt_json.specs.Kinds.{exact_members, text_of_great};

use abt_entry::{push_number, push_text};
use itoa::Buffer;
use json::Writer;
use std::alloc::AllocError;

// Up to here each whole number is a double, as which many readers hold numbers.
const DOUBLE_MAX: u64 = 9_007_199_254_740_992;

/// Adds a member with a number, and behind it one of another name with its digits as a text, if it is above 2^53.
///
/// # Errors
/// If memory is refused.
pub fn push_exact(
    object: &mut Writer,
    name: &str,
    as_text: &str,
    number: u64,
) -> Result<(), AllocError>
    ensures { OnOk result (Adds (exact_members name.now as_text.now number) object.old object.new) }
{
    push_number(object, name, number)?;
    push_text_of_great(object, as_text, number)
}

fn push_text_of_great(object: &mut Writer, name: &str, number: u64) -> Result<(), AllocError>
    ensures { OnOk result (Adds (text_of_great name.now number) object.old object.new) }
{
    if number <= DOUBLE_MAX {
        return Ok(());
    }
    let mut digits = Buffer::new();
    push_text(object, name, digits.format(number))
}
