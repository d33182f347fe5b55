//! `abt draw --workers`.
ghost use Rattle.std.specs.Prelude.{◌≡◌, ◌⊎◌, ◌+◌, option_map, string_bytes, IfErr, IfOk};
ghost use Rattle.std.specs.Io.KnownBytes.{Keeps};
ghost use Rattle.abt_text.specs.Streams.{ConsumesAtMost, text_max};
ghost use Rattle.abt_commands.specs.Delivered.{is_printed};
ghost use Rattle.abt_commands.specs.DrawsThreads.{DrawsThreads, EndsRunDrawnOver, IsNoRunOfText, IsRunOfText, MayPrint};
ghost use Rattle.abt_commands.specs.Saved.{IsSavedIfNamed};

use crate::input::{Input, opened};
use crate::picture_file::{deliver, keep_picture};
use crate::saving::save_if_named;
use abt_cli::DrawCommand;
use abt_draw::{DrawFault, PicturePlan, Scene, picture_of, tell_draw_fault};
use abt_model::Event;
use abt_net::Net;
use abt_perform::{Fault, tell_fault};
use abt_perform_threads::{JudgedRun, show_scenario};
use abt_progress::Progress;
use std::alloc::{AllocGlobal, Global};
use std::io::{Read, Write};
use std::rt::Files;
use std::sync::Wait;
use std::thread::Threads;

// Room for the lines that a run shows.
const LINES_ROOM: usize = 64;

// Runs the scenario of a file, or else of the input that is there, in threads, draws and writes its events as the command says, and gives
// the exit status.
pub(crate) fn draw_threads<T, R: Read, W: Write, E: Write, P: Write + Drop>(
    rt: &T,
    progress: &Progress<P>,
    command: &DrawCommand,
    workers: u16,
    input: &mut R,
    out: &mut W,
    errors: &mut E,
) -> u8
where
    T: Files + AllocGlobal + Threads + Wait + Sync,
    ensures { DrawsThreads workers command.now result (R.remaining input.old) (R.remaining input.new)
        (W.contents out.old) (W.contents out.new) (E.contents errors.old) (E.contents errors.new) }
{
    match opened(rt, progress, &command.file) {
        Ok(Input::Here) => over_reader(rt, command, workers, input, out, errors),
        Ok(Input::File(mut file)) => over_reader(rt, command, workers, &mut file, out, errors),
        Err(unopened) => unopened.tell(errors),
    }
}

// Runs the scenario that a reader has left, and draws and writes its events as the command says.
fn over_reader<T, R: Read, W: Write, E: Write>(
    rt: &T,
    command: &DrawCommand,
    workers: u16,
    reader: &mut R,
    out: &mut W,
    errors: &mut E,
) -> u8
where
    T: Files + AllocGlobal + Threads + Wait + Sync,
    ensures { EndsRunDrawnOver workers command.now result (R.remaining reader.old) (R.remaining reader.new)
        (W.contents out.old) (W.contents out.new) (E.contents errors.old) (E.contents errors.new) }
{
    match run_of(rt, rt.alloc(), workers, reader) {
        Ok(run) => keep_run(rt, command, &run, out, errors),
        Err(fault) => {
            tell_fault(fault, errors);
            1
        }
    }
}

// Runs the scenario that a reader has left, and weaves the journals of the run. What `abt threads` shows of it goes nowhere.
pub(crate) fn run_of<T: Threads + Wait + Sync, R: Read>(
    rt: &T,
    alloc: Global,
    workers: u16,
    reader: &mut R,
) -> Result<JudgedRun, Fault>
    ensures reads { ConsumesAtMost (R.remaining reader.old) (R.remaining reader.new) (text_max + 1) }
    ensures ok { IfOk result (IsRunOfText workers (R.remaining reader.old)) }
    ensures err { IfErr result (IsNoRunOfText workers (R.remaining reader.old)) }
{
    let mut lines = Vec::with_capacity(alloc, LINES_ROOM)?;
    show_scenario(rt, alloc, workers, reader, &mut lines)
}

// Writes the events of a run to the file for them, if there is to be one, and their picture to its own, or out. Gives the exit status.
fn keep_run<T: Files + AllocGlobal, W: Write, E: Write>(
    rt: &T,
    command: &DrawCommand,
    run: &JudgedRun,
    out: &mut W,
    errors: &mut E,
) -> u8
    ensures status { (result ≡ 0) ⊎ (result ≡ 1) }
    ensures ok { result ≡ 0 →
        IsSavedIfNamed (option_map string_bytes command.now.events) run.now.ran.net run.now.judged.events }
    ensures quiet { result ≡ 0 → Keeps (E.contents errors.old) (E.contents errors.new) }
    ensures printed { MayPrint (is_printed command.now.picture) (W.contents out.old) (W.contents out.new) }
{
    let JudgedRun { ran, judged } = run;
    let events = judged.events.as_slice();
    let saved = save_if_named(rt, &command.events, &ran.net, events, errors);
    let drawn = draw_run(rt, &command.picture, &ran.net, events, out, errors);
    if saved == 0 { drawn } else { saved }
}

// Draws events, and puts the picture into its file, or out. Gives the exit status.
#[tactic(auto, using(crate::proofs::MayPrint::delivered, crate::proofs::MayPrint::none_out))]
fn draw_run<T: Files + AllocGlobal, W: Write, E: Write>(
    rt: &T,
    picture: &PicturePlan,
    net: &Net,
    events: &[Event],
    out: &mut W,
    errors: &mut E,
) -> u8
    ensures status { (result ≡ 0) ⊎ (result ≡ 1) }
    ensures quiet { result ≡ 0 → Keeps (E.contents errors.old) (E.contents errors.new) }
    ensures printed { MayPrint (is_printed picture.now) (W.contents out.old) (W.contents out.new) }
{
    match text_of(rt.alloc(), picture, net, events) {
        Ok(text) => deliver(rt, picture, text.as_str(), out, errors),
        Err(fault) => {
            tell_draw_fault(rt.alloc(), fault, errors);
            1
        }
    }
}

// Writes events as a scenario to the file that may be named, and their picture to its own, or tells why not. Gives the exit status.
pub(crate) fn keep_events<T: Files + AllocGlobal, E: Write>(
    rt: &T,
    name: &Option<String>,
    picture: &PicturePlan,
    net: &Net,
    events: &[Event],
    errors: &mut E,
) -> u8
    ensures status { (result ≡ 0) ⊎ (result ≡ 1) }
    ensures ok { result ≡ 0 → IsSavedIfNamed (option_map string_bytes name.now) net.now events.now }
    ensures quiet { result ≡ 0 → Keeps (E.contents errors.old) (E.contents errors.new) }
{
    let saved = save_if_named(rt, name, net, events, errors);
    let text = text_of(rt.alloc(), picture, net, events);
    let drawn = keep_picture(rt, picture, text, errors);
    if saved == 0 { drawn } else { saved }
}

// The text of the picture of events, which stand in no text.
fn text_of(
    alloc: Global,
    picture: &PicturePlan,
    net: &Net,
    events: &[Event],
) -> Result<String, DrawFault> {
    let scene = Scene {
        net,
        events,
        lines: &[],
        stuck: &[],
    };
    picture_of(alloc, picture, &scene)
}
