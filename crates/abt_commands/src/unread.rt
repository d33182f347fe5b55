//! Texts that weren't read.
ghost use Rattle.std.specs.Prelude.{◌≡◌};
ghost use Rattle.abt_perform.specs.Plans.{Tells};
ghost use Rattle.abt_commands.specs.Besides.{unread_line};

use crate::opening::READ_LINE;
use abt_perform::{MEMORY_LINE, tell_text};
use abt_text::TextFault;
use std::io::Write;

// What is told of a text that is too long.
const TOO_LONG: &str = "fault: TooLong\na text may have at most 16777216 octets\n";

// Tells why a text wasn't read, and of one that is too long, how long it may be.
pub(crate) fn tell_unread<E: Write>(fault: TextFault, errors: &mut E)
    ensures { Tells (unread_line fault) (E.contents errors.old) (E.contents errors.new) }
{
    tell_text(errors, line_of(fault));
}

fn line_of(fault: TextFault) -> &'static str
    ensures { result.now ≡ unread_line fault }
{
    match fault {
        TextFault::Read => READ_LINE,
        TextFault::TooLong => TOO_LONG,
        TextFault::Memory => MEMORY_LINE,
    }
}
