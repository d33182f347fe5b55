//! `abt explain`.
ghost use Rattle.abt_commands.specs.Runs.{Explains, ExplainsAsJson, ExplainsPlain};

use crate::explain_advised::explain_advised;
use crate::input::{Input, opened};
use abt_explain::perform_explain;
use abt_json::{JsonPlan, perform_json};
use abt_progress::Progress;
use std::alloc::AllocGlobal;
use std::io::{Read, Write};
use std::rt::Files;

// Explains the scenario of a file, or else of the input that is there, in lines or as JSON, gives advice besides, and gives the exit
// status.
pub(crate) fn explain<T: Files + AllocGlobal, R: Read, W: Write, E: Write, P: Write + Drop>(
    rt: &T,
    progress: &Progress<P>,
    file: &Option<String>,
    json: bool,
    advised: bool,
    input: &mut R,
    out: &mut W,
    errors: &mut E,
) -> u8
    ensures { Explains json advised file.now result (R.remaining input.old) (R.remaining input.new)
        (W.contents out.old) (W.contents out.new) (E.contents errors.old) (E.contents errors.new) }
{
    if json {
        return explain_as_json(rt, progress, file, input, out, errors);
    }
    if advised {
        return explain_advised(rt, progress, file, input, out, errors);
    }
    explain_plain(rt, progress, file, input, out, errors)
}

// Explains it in lines.
fn explain_plain<T: Files + AllocGlobal, R: Read, W: Write, E: Write, P: Write + Drop>(
    rt: &T,
    progress: &Progress<P>,
    file: &Option<String>,
    input: &mut R,
    out: &mut W,
    errors: &mut E,
) -> u8
    ensures { ExplainsPlain file.now result (R.remaining input.old) (R.remaining input.new)
        (W.contents out.old) (W.contents out.new) (E.contents errors.old) (E.contents errors.new) }
{
    match opened(rt, progress, file) {
        Ok(Input::Here) => perform_explain(rt.alloc(), input, out, errors),
        Ok(Input::File(mut file)) => perform_explain(rt.alloc(), &mut file, out, errors),
        Err(unopened) => unopened.tell(errors),
    }
}

// Explains it as JSON.
fn explain_as_json<T: Files + AllocGlobal, R: Read, W: Write, E: Write, P: Write + Drop>(
    rt: &T,
    progress: &Progress<P>,
    file: &Option<String>,
    input: &mut R,
    out: &mut W,
    errors: &mut E,
) -> u8
    ensures { ExplainsAsJson file.now result (R.remaining input.old) (R.remaining input.new)
        (W.contents out.old) (W.contents out.new) (E.contents errors.old) (E.contents errors.new) }
{
    let plan = JsonPlan::Explain(None);
    match opened(rt, progress, file) {
        Ok(Input::Here) => perform_json(rt.alloc(), &plan, input, out, errors),
        Ok(Input::File(mut file)) => perform_json(rt.alloc(), &plan, &mut file, out, errors),
        Err(unopened) => unopened.tell(errors),
    }
}
