//! `abt play`.
ghost use Rattle.std.specs.Prelude.{◌≡◌, ◌⊎◌};
ghost use Rattle.std.specs.Io.KnownBytes.{Keeps};
ghost use Rattle.abt_commands.specs.Plays.{EndsPlayedOver, IsKept, IsNotBoth, IsPictured, IsUnkept, IsUnsaved, Plays, PlaysPlain, events_file_of};
ghost use Rattle.abt_commands.specs.Saved.{IsSavedIfNamed};
ghost use Rattle.abt_draw.specs.Drawn.{TellsSome};

use crate::input::{Input, opened};
use crate::picture_file::keep_picture;
use crate::play_advised::play_advised;
use crate::saving::save_if_named;
use abt_draw::{PicturePlan, Scene, picture_of};
use abt_play::{PlayPlan, ScenarioPlay, show_play, tell_show_fault};
use abt_progress::Progress;
use std::alloc::AllocGlobal;
use std::io::{Read, Write};
use std::rt::Files;

// Plays the scenario of the file that a plan names, or else of the input that is there, writes and draws its events as the plan says, gives
// advice besides, and gives the exit status.
pub(crate) fn play<T: Files + AllocGlobal, R: Read, W: Write, E: Write, P: Write + Drop>(
    rt: &T,
    progress: &Progress<P>,
    plan: &PlayPlan,
    advised: bool,
    input: &mut R,
    out: &mut W,
    errors: &mut E,
) -> u8
    ensures { Plays advised plan.now result (R.remaining input.old) (R.remaining input.new)
        (W.contents out.old) (W.contents out.new) (E.contents errors.old) (E.contents errors.new) }
{
    if advised {
        return play_advised(rt, progress, plan, input, out, errors);
    }
    play_plain(rt, progress, plan, input, out, errors)
}

// Plays it, and gives no advice.
fn play_plain<T: Files + AllocGlobal, R: Read, W: Write, E: Write, P: Write + Drop>(
    rt: &T,
    progress: &Progress<P>,
    plan: &PlayPlan,
    input: &mut R,
    out: &mut W,
    errors: &mut E,
) -> u8
    ensures { PlaysPlain plan.now result (R.remaining input.old) (R.remaining input.new)
        (W.contents out.old) (W.contents out.new) (E.contents errors.old) (E.contents errors.new) }
{
    match opened(rt, progress, &plan.file) {
        Ok(Input::Here) => play_from(rt, plan, input, out, errors),
        Ok(Input::File(mut file)) => play_from(rt, plan, &mut file, out, errors),
        Err(unopened) => unopened.tell(errors),
    }
}

// Plays the scenario that a reader has left, and writes and draws its events as the plan says.
pub(crate) fn play_from<T: Files + AllocGlobal, R: Read, W: Write, E: Write>(
    rt: &T,
    plan: &PlayPlan,
    reader: &mut R,
    out: &mut W,
    errors: &mut E,
) -> u8
    ensures { EndsPlayedOver plan.now result (R.remaining reader.old) (R.remaining reader.new)
        (W.contents out.old) (W.contents out.new) (E.contents errors.old) (E.contents errors.new) }
{
    match show_play(rt.alloc(), &plan.chances, reader, out) {
        Ok(shown) => keep_play(rt, plan, &shown, errors),
        Err(fault) => {
            tell_show_fault(fault, errors);
            1
        }
    }
}

// Writes the events of a play and their picture to the files for them, if there are to be any. Gives the exit status.
fn keep_play<T: Files + AllocGlobal, E: Write>(
    rt: &T,
    plan: &PlayPlan,
    shown: &ScenarioPlay,
    errors: &mut E,
) -> u8
    ensures status { (result ≡ 0) ⊎ (result ≡ 1) }
    ensures ok { result ≡ 0 → IsKept plan.now shown.now }
    ensures quiet { result ≡ 0 → Keeps (E.contents errors.old) (E.contents errors.new) }
    ensures err { result ≡ 1 → IsUnkept plan.now shown.now (E.contents errors.old) (E.contents errors.new) }
{
    match &plan.picture {
        Some(picture) => keep_both(rt, plan, picture, shown, errors),
        None => save_play(rt, plan, shown, errors),
    }
}

// Writes the events of a play to the file for them, if there is to be one, and their picture to its own. Gives the exit status.
fn keep_both<T: Files + AllocGlobal, E: Write>(
    rt: &T,
    plan: &PlayPlan,
    picture: &PicturePlan,
    shown: &ScenarioPlay,
    errors: &mut E,
) -> u8
    ensures status { (result ≡ 0) ⊎ (result ≡ 1) }
    ensures saved { result ≡ 0 → IsSavedIfNamed (events_file_of plan.now) shown.now.net shown.now.played.events }
    ensures pictured { result ≡ 0 → IsPictured picture.now shown.now.net shown.now.played.events }
    ensures quiet { result ≡ 0 → Keeps (E.contents errors.old) (E.contents errors.new) }
    ensures err { result ≡ 1 → IsNotBoth plan.now shown.now (E.contents errors.old) (E.contents errors.new) }
{
    let saved = save_play(rt, plan, shown, errors);
    let drawn = draw_play(rt, picture, shown, errors);
    if saved == 0 { drawn } else { saved }
}

// Writes the events of a play to the file for them, if there is to be one. Gives the exit status.
fn save_play<T: Files + AllocGlobal, E: Write>(
    rt: &T,
    plan: &PlayPlan,
    shown: &ScenarioPlay,
    errors: &mut E,
) -> u8
    ensures status { (result ≡ 0) ⊎ (result ≡ 1) }
    ensures ok { result ≡ 0 → IsSavedIfNamed (events_file_of plan.now) shown.now.net shown.now.played.events }
    ensures quiet { result ≡ 0 → Keeps (E.contents errors.old) (E.contents errors.new) }
    ensures err { result ≡ 1 → IsUnsaved plan.now shown.now (E.contents errors.old) (E.contents errors.new) }
{
    let events = shown.played.events.as_slice();
    save_if_named(rt, &plan.events, &shown.net, events, errors)
}

// Draws the events of a play to the file for their picture. Gives the exit status.
fn draw_play<T: Files + AllocGlobal, E: Write>(
    rt: &T,
    picture: &PicturePlan,
    shown: &ScenarioPlay,
    errors: &mut E,
) -> u8
    ensures status { (result ≡ 0) ⊎ (result ≡ 1) }
    ensures ok { result ≡ 0 → IsPictured picture.now shown.now.net shown.now.played.events }
    ensures quiet { result ≡ 0 → Keeps (E.contents errors.old) (E.contents errors.new) }
    ensures told { result ≡ 1 → TellsSome (E.contents errors.old) (E.contents errors.new) }
{
    let scene = Scene {
        net: &shown.net,
        events: shown.played.events.as_slice(),
        lines: &[],
        stuck: &[],
    };
    let text = picture_of(rt.alloc(), picture, &scene);
    keep_picture(rt, picture, text, errors)
}
