//! `abt draw`, with advice behind the picture.
ghost use Rattle.std.specs.Prelude.{◌≡◌, ◌⊎◌, string_bytes};
ghost use Rattle.std.specs.Option.{option_map};
ghost use Rattle.abt_commands.specs.Advice.{TellsAdvice};
ghost use Rattle.abt_commands.specs.Besides.{IsOfText};
ghost use Rattle.abt_commands.specs.Draws.{DrawsAdvised, EndsDrawnAdvised, IsScenarioDrawn, IsScenarioUndrawn};
ghost use Rattle.abt_commands.specs.declared.advice.Runs.TheVariants.{Events};

use crate::advice::{Runs, advise};
use crate::draw::draw_from;
use crate::input::{Input, opened};
use crate::unread::tell_unread;
use abt_cli::DrawCommand;
use abt_progress::Progress;
use abt_text::octets_of;
use std::alloc::AllocGlobal;
use std::io::{Read, Write};
use std::rt::Files;

// Draws the scenario of a file, or else of the input that is there, and tells advice behind that.
pub(crate) fn draw_advised<T: Files + AllocGlobal, R: Read, W: Write, E: Write, P: Write + Drop>(
    rt: &T,
    progress: &Progress<P>,
    command: &DrawCommand,
    input: &mut R,
    out: &mut W,
    errors: &mut E,
) -> u8
    ensures { DrawsAdvised command.now result (R.remaining input.old) (R.remaining input.new)
        (W.contents out.old) (W.contents out.new) (E.contents errors.old) (E.contents errors.new) }
{
    match opened(rt, progress, &command.file) {
        Ok(Input::Here) => over_reader(rt, command, input, out, errors),
        Ok(Input::File(mut file)) => over_reader(rt, command, &mut file, out, errors),
        Err(unopened) => unopened.tell(errors),
    }
}

// Draws the text that a reader has left, and tells advice.
fn over_reader<T: Files + AllocGlobal, R: Read, W: Write, E: Write>(
    rt: &T,
    command: &DrawCommand,
    reader: &mut R,
    out: &mut W,
    errors: &mut E,
) -> u8
    ensures { EndsDrawnAdvised command.now result (R.remaining reader.old) (R.remaining reader.new)
        (W.contents out.old) (W.contents out.new) (E.contents errors.old) (E.contents errors.new) }
{
    match octets_of(rt.alloc(), reader) {
        Ok(octets) => over_text(rt, command, octets.as_slice(), out, errors),
        Err(fault) => {
            tell_unread(fault, errors);
            1
        }
    }
}

// Draws a text, and tells advice.
fn over_text<T: Files + AllocGlobal, W: Write, E: Write>(
    rt: &T,
    command: &DrawCommand,
    text: &[u8],
    out: &mut W,
    errors: &mut E,
) -> u8
    ensures status { (result ≡ 0) ⊎ (result ≡ 1) }
    ensures ok { result ≡ 0 → IsOfText (IsScenarioDrawn command.now.picture)
        (TellsAdvice Events (option_map string_bytes command.now.file)) text.now
        (W.contents out.old) (W.contents out.new) (E.contents errors.old) (E.contents errors.new) }
    ensures err { result ≡ 1 → IsOfText (IsScenarioUndrawn command.now.picture)
        (TellsAdvice Events (option_map string_bytes command.now.file)) text.now
        (W.contents out.old) (W.contents out.new) (E.contents errors.old) (E.contents errors.new) }
{
    let mut left = text;
    let status = draw_from(rt, &command.picture, &mut left, out, errors);
    advise(rt.alloc(), Runs::Events, &command.file, text, errors);
    status
}
