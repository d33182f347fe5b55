//! What is told if words are no plan.
ghost use Rattle.std.specs.Prelude.{◌≡◌};
ghost use Rattle.abt_perform.specs.Plans.{AnswersWords};

use abt_perform::{MEMORY_LINE, WRITE_LINE, WordsFault, tell_text};
use abt_text::put;
use std::io::Write;

/// Tells why words are no plan, and gives the exit status: 0 for help, which goes to `writer`, 2 for words that
/// are refused, and 1 if memory or the writer failed.
pub fn answer_words<W: Write, E: Write>(fault: &WordsFault, writer: &mut W, errors: &mut E) -> u8
    ensures { AnswersWords fault.now result (W.contents writer.old) (W.contents writer.new)
        (E.contents errors.old) (E.contents errors.new) }
{
    match fault {
        WordsFault::Words(text) => {
            tell_text(errors, text.as_str());
            2
        }
        WordsFault::Help(text) => match put(writer, text.as_bytes()) {
            Ok(()) => 0,
            Err(_) => {
                tell_text(errors, WRITE_LINE);
                1
            }
        },
        WordsFault::Memory => {
            tell_text(errors, MEMORY_LINE);
            1
        }
    }
}
