//! `abt audit --draw`.
ghost use Rattle.std.specs.Prelude.{◌≡◌, ◌⊎◌, IfOk, IfSome};
ghost use Rattle.std.specs.Io.KnownBytes.{Keeps};
ghost use Rattle.abt_audit.specs.Parts.{IsSizedRun};
ghost use Rattle.abt_draw.specs.Drawn.{TellsSome};
ghost use Rattle.abt_commands.specs.Audits.{DrawsAudit, IsPartDrawn, events_file_of};
ghost use Rattle.abt_commands.specs.Saved.{IsSavedIfNamed};

use crate::audit::{save_left, show_texts};
use crate::draw_threads::keep_events;
use crate::picture_file::keep_picture;
use abt_audit::{AuditedRun, Mark, marks_of, weave_part};
use abt_cli::AuditCommand;
use abt_draw::{DrawFault, PicturePlan, Scene, StuckMark, picture_of};
use abt_files::shown;
use abt_journal_text::Run;
use abt_progress::Progress;
use abt_weave::Actor;
use std::alloc::{AllocError, AllocGlobal, Global};
use std::io::{Read, Write};
use std::rt::Files;

// Audits journals, and gives the exit status. Once all is shown it writes the events and draws them; if journals got stuck, it does so with
// the events before that.
pub(crate) fn draw_audit<T: Files + AllocGlobal, R: Read, W: Write, E: Write, P: Write + Drop>(
    rt: &T,
    progress: &Progress<P>,
    command: &AuditCommand,
    picture: &PicturePlan,
    input: &mut R,
    out: &mut W,
    errors: &mut E,
) -> u8
    ensures { DrawsAudit command.now result (R.remaining input.old) (R.remaining input.new)
        (W.contents out.old) (W.contents out.new) (E.contents errors.old) (E.contents errors.new) }
{
    match show_texts(rt, progress, command, input, out, errors) {
        Ok(run) => keep_audited(rt, command, picture, &run, errors),
        Err(left) => {
            let _saved = save_left(rt, command, &left, errors);
            let _drawn = draw_left(rt, picture, command.files.as_slice(), &left, errors);
            1
        }
    }
}

// Writes the events of an audited run to the file for them, if there is to be one, and their picture to its own. Gives the exit status.
fn keep_audited<T: Files + AllocGlobal, E: Write>(
    rt: &T,
    command: &AuditCommand,
    picture: &PicturePlan,
    run: &AuditedRun,
    errors: &mut E,
) -> u8
    ensures status { (result ≡ 0) ⊎ (result ≡ 1) }
    ensures ok { result ≡ 0 → IsSavedIfNamed (events_file_of command.now) run.now.net run.now.audited.events }
    ensures quiet { result ≡ 0 → Keeps (E.contents errors.old) (E.contents errors.new) }
{
    let events = run.audited.events.as_slice();
    keep_events(rt, &command.events, picture, &run.net, events, errors)
}

// Draws the events before journals got stuck, if they did, or tells why not.
fn draw_left<T: Files + AllocGlobal, E: Write>(
    rt: &T,
    picture: &PicturePlan,
    names: &[String],
    left: &Option<Run>,
    errors: &mut E,
) -> u8
    requires { IfSome left.now IsSizedRun }
    ensures status { (result ≡ 0) ⊎ (result ≡ 1) }
    ensures quiet { result ≡ 0 → Keeps (E.contents errors.old) (E.contents errors.new) }
    ensures told { result ≡ 1 → TellsSome (E.contents errors.old) (E.contents errors.new) }
{
    match left {
        Some(run) => draw_part(rt, picture, names, run, errors),
        None => 0,
    }
}

// Draws the events before a run's journals got stuck, or tells why not.
fn draw_part<T: Files + AllocGlobal, E: Write>(
    rt: &T,
    picture: &PicturePlan,
    names: &[String],
    run: &Run,
    errors: &mut E,
) -> u8
    requires { IsSizedRun run.now }
    ensures status { (result ≡ 0) ⊎ (result ≡ 1) }
    ensures quiet { result ≡ 0 → Keeps (E.contents errors.old) (E.contents errors.new) }
    ensures told { result ≡ 1 → TellsSome (E.contents errors.old) (E.contents errors.new) }
{
    let text = part_drawing(rt.alloc(), picture, names, run);
    keep_picture(rt, picture, text, errors)
}

// The picture of the events before a run's journals got stuck, with a mark for each entry at which one did.
fn part_drawing(
    alloc: Global,
    picture: &PicturePlan,
    names: &[String],
    run: &Run,
) -> Result<String, DrawFault>
    requires { IsSizedRun run.now }
    ensures { IfOk result (λ _. IsPartDrawn picture.now run.now) }
{
    let part = weave_part(alloc, run)?;
    let names = shown_names(alloc, names)?;
    let marks = marks_of(alloc, names.as_slice(), run, part.stuck.as_slice())?;
    let stuck = stuck_marks(alloc, marks.as_slice())?;
    let scene = Scene {
        net: &run.net,
        events: part.events.as_slice(),
        lines: &[],
        stuck: stuck.as_slice(),
    };
    picture_of(alloc, picture, &scene)
}

// Marks as pictures have them.
fn stuck_marks(alloc: Global, marks: &[Mark]) -> Result<Vec<StuckMark<'_>>, AllocError> {
    let mut stuck = Vec::with_capacity(alloc, marks.len())?;
    for mark in marks {
        stuck.push(stuck_mark(mark))?;
    }
    Ok(stuck)
}

// A mark on a lifeline, with the words of its line.
fn stuck_mark(mark: &Mark) -> StuckMark<'_> {
    let actor = match mark.actor {
        Actor::Source(source) => abt_draw::Actor::Source(source),
        Actor::Port(port) => abt_draw::Actor::Port(port),
    };
    let line = std::str::from_utf8(mark.line.as_slice()).unwrap_or("");
    StuckMark {
        actor,
        text: line.trim_end(),
    }
}

// Names as they are shown: a picture has no character that isn't seen, nor one that XML doesn't have.
fn shown_names(alloc: Global, names: &[String]) -> Result<Vec<String>, AllocError> {
    let mut shown_names = Vec::with_capacity(alloc, names.len())?;
    for name in names {
        shown_names.push(shown(alloc, name.as_str())?)?;
    }
    Ok(shown_names)
}
