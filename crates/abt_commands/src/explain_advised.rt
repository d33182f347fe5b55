//! `abt explain`, with advice behind the explanation.
ghost use Rattle.std.specs.Prelude.{◌≡◌, ◌⊎◌, string_bytes};
ghost use Rattle.std.specs.Option.{option_map};
ghost use Rattle.abt_explain.specs.Explained.{IsExplained, IsRefused};
ghost use Rattle.abt_commands.specs.Advice.{TellsAdvice};
ghost use Rattle.abt_commands.specs.Besides.{IsOfText};
ghost use Rattle.abt_commands.specs.Ends.{Quietly};
ghost use Rattle.abt_commands.specs.Runs.{EndsExplainedAdvised, ExplainsAdvised};
ghost use Rattle.abt_commands.specs.declared.advice.Runs.TheVariants.{Events};

use crate::advice::{Runs, advise};
use crate::input::{Input, opened};
use crate::unread::tell_unread;
use abt_explain::perform_explain;
use abt_progress::Progress;
use abt_text::octets_of;
use std::alloc::{AllocGlobal, Global};
use std::io::{Read, Write};
use std::rt::Files;

// Explains the scenario of a file, or else of the input that is there, and tells advice behind that.
pub(crate) fn explain_advised<T: Files + AllocGlobal, R: Read, W: Write, E: Write, P: Write + Drop>(
    rt: &T,
    progress: &Progress<P>,
    file: &Option<String>,
    input: &mut R,
    out: &mut W,
    errors: &mut E,
) -> u8
    ensures { ExplainsAdvised file.now result (R.remaining input.old) (R.remaining input.new)
        (W.contents out.old) (W.contents out.new) (E.contents errors.old) (E.contents errors.new) }
{
    match opened(rt, progress, file) {
        Ok(Input::Here) => over_reader(rt.alloc(), file, input, out, errors),
        Ok(Input::File(mut read)) => over_reader(rt.alloc(), file, &mut read, out, errors),
        Err(unopened) => unopened.tell(errors),
    }
}

// Explains the text that a reader has left, and tells advice.
fn over_reader<R: Read, W: Write, E: Write>(
    alloc: Global,
    file: &Option<String>,
    reader: &mut R,
    out: &mut W,
    errors: &mut E,
) -> u8
    ensures { EndsExplainedAdvised (option_map string_bytes file.now) result
        (R.remaining reader.old) (R.remaining reader.new)
        (W.contents out.old) (W.contents out.new) (E.contents errors.old) (E.contents errors.new) }
{
    match octets_of(alloc, reader) {
        Ok(octets) => over_text(alloc, file, octets.as_slice(), out, errors),
        Err(fault) => {
            tell_unread(fault, errors);
            1
        }
    }
}

// Explains a text, and tells advice.
fn over_text<W: Write, E: Write>(
    alloc: Global,
    file: &Option<String>,
    text: &[u8],
    out: &mut W,
    errors: &mut E,
) -> u8
    ensures status { (result ≡ 0) ⊎ (result ≡ 1) }
    ensures ok { result ≡ 0 → IsOfText (Quietly IsExplained)
        (TellsAdvice Events (option_map string_bytes file.now)) text.now
        (W.contents out.old) (W.contents out.new) (E.contents errors.old) (E.contents errors.new) }
    ensures err { result ≡ 1 → IsOfText IsRefused
        (TellsAdvice Events (option_map string_bytes file.now)) text.now
        (W.contents out.old) (W.contents out.new) (E.contents errors.old) (E.contents errors.new) }
{
    let mut left = text;
    let status = perform_explain(alloc, &mut left, out, errors);
    advise(alloc, Runs::Events, file, text, errors);
    status
}
