//! `abt draw`.
ghost use Rattle.abt_commands.specs.Draws.{Draws, DrawsScenario, EndsDrawnOver};

use crate::draw_advised::draw_advised;
use crate::draw_threads::draw_threads;
use crate::input::{Input, opened};
use crate::picture_file::deliver;
use abt_cli::DrawCommand;
use abt_draw::{PicturePlan, drawing_of, tell_draw_fault};
use abt_progress::Progress;
use std::alloc::AllocGlobal;
use std::io::{Read, Write};
use std::rt::Files;
use std::sync::Wait;
use std::thread::Threads;

// Draws the scenario of a file, or else of the input that is there, and gives advice besides, or a run of its scripts in threads, and gives
// the exit status. The picture goes to its own file, whole or not at all, or out.
pub(crate) fn draw<T, R: Read, W: Write, E: Write, P: Write + Drop>(
    rt: &T,
    progress: &Progress<P>,
    command: &DrawCommand,
    advised: bool,
    input: &mut R,
    out: &mut W,
    errors: &mut E,
) -> u8
where
    T: Files + AllocGlobal + Threads + Wait + Sync,
    ensures { Draws advised command.now result (R.remaining input.old) (R.remaining input.new)
        (W.contents out.old) (W.contents out.new) (E.contents errors.old) (E.contents errors.new) }
{
    match command.workers {
        Some(workers) => draw_threads(rt, progress, command, workers, input, out, errors),
        None if advised => draw_advised(rt, progress, command, input, out, errors),
        None => draw_scenario(rt, progress, command, input, out, errors),
    }
}

// Draws the scenario.
fn draw_scenario<T: Files + AllocGlobal, R: Read, W: Write, E: Write, P: Write + Drop>(
    rt: &T,
    progress: &Progress<P>,
    command: &DrawCommand,
    input: &mut R,
    out: &mut W,
    errors: &mut E,
) -> u8
    ensures { DrawsScenario command.now result (R.remaining input.old) (R.remaining input.new)
        (W.contents out.old) (W.contents out.new) (E.contents errors.old) (E.contents errors.new) }
{
    let picture = &command.picture;
    match opened(rt, progress, &command.file) {
        Ok(Input::Here) => draw_from(rt, picture, input, out, errors),
        Ok(Input::File(mut file)) => draw_from(rt, picture, &mut file, out, errors),
        Err(unopened) => unopened.tell(errors),
    }
}

// Draws the scenario that a reader has left.
pub(crate) fn draw_from<T: Files + AllocGlobal, R: Read, W: Write, E: Write>(
    rt: &T,
    picture: &PicturePlan,
    reader: &mut R,
    out: &mut W,
    errors: &mut E,
) -> u8
    ensures { EndsDrawnOver picture.now result (R.remaining reader.old) (R.remaining reader.new)
        (W.contents out.old) (W.contents out.new) (E.contents errors.old) (E.contents errors.new) }
{
    match drawing_of(rt.alloc(), picture, reader) {
        Ok(text) => deliver(rt, picture, text.as_str(), out, errors),
        Err(fault) => {
            tell_draw_fault(rt.alloc(), fault, errors);
            1
        }
    }
}
