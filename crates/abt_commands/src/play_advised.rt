//! `abt play`, with advice behind the play.
ghost use Rattle.std.specs.Prelude.{◌≡◌, ◌⊎◌, string_bytes};
ghost use Rattle.std.specs.Option.{option_map};
ghost use Rattle.abt_commands.specs.Advice.{TellsAdvice};
ghost use Rattle.abt_commands.specs.Besides.{IsOfText};
ghost use Rattle.abt_commands.specs.Plays.{EndsPlayedAdvised, IsPlayed, IsUnplayed, PlaysAdvised};
ghost use Rattle.abt_commands.specs.declared.advice.Runs.TheVariants.{Scripts};

use crate::advice::{Runs, advise};
use crate::input::{Input, opened};
use crate::play::play_from;
use crate::unread::tell_unread;
use abt_play::PlayPlan;
use abt_progress::Progress;
use abt_text::octets_of;
use std::alloc::AllocGlobal;
use std::io::{Read, Write};
use std::rt::Files;

// Plays the scenario of the file that a plan names, or else of the input that is there, and tells advice behind that.
pub(crate) fn play_advised<T: Files + AllocGlobal, R: Read, W: Write, E: Write, P: Write + Drop>(
    rt: &T,
    progress: &Progress<P>,
    plan: &PlayPlan,
    input: &mut R,
    out: &mut W,
    errors: &mut E,
) -> u8
    ensures { PlaysAdvised plan.now result (R.remaining input.old) (R.remaining input.new)
        (W.contents out.old) (W.contents out.new) (E.contents errors.old) (E.contents errors.new) }
{
    match opened(rt, progress, &plan.file) {
        Ok(Input::Here) => over_reader(rt, plan, input, out, errors),
        Ok(Input::File(mut file)) => over_reader(rt, plan, &mut file, out, errors),
        Err(unopened) => unopened.tell(errors),
    }
}

// Plays the text that a reader has left, and tells advice.
fn over_reader<T: Files + AllocGlobal, R: Read, W: Write, E: Write>(
    rt: &T,
    plan: &PlayPlan,
    reader: &mut R,
    out: &mut W,
    errors: &mut E,
) -> u8
    ensures { EndsPlayedAdvised plan.now result (R.remaining reader.old) (R.remaining reader.new)
        (W.contents out.old) (W.contents out.new) (E.contents errors.old) (E.contents errors.new) }
{
    match octets_of(rt.alloc(), reader) {
        Ok(octets) => over_text(rt, plan, octets.as_slice(), out, errors),
        Err(fault) => {
            tell_unread(fault, errors);
            1
        }
    }
}

// Plays a text, and tells advice.
fn over_text<T: Files + AllocGlobal, W: Write, E: Write>(
    rt: &T,
    plan: &PlayPlan,
    text: &[u8],
    out: &mut W,
    errors: &mut E,
) -> u8
    ensures status { (result ≡ 0) ⊎ (result ≡ 1) }
    ensures ok { result ≡ 0 → IsOfText (IsPlayed plan.now)
        (TellsAdvice Scripts (option_map string_bytes plan.now.file)) text.now
        (W.contents out.old) (W.contents out.new) (E.contents errors.old) (E.contents errors.new) }
    ensures err { result ≡ 1 → IsOfText (IsUnplayed plan.now)
        (TellsAdvice Scripts (option_map string_bytes plan.now.file)) text.now
        (W.contents out.old) (W.contents out.new) (E.contents errors.old) (E.contents errors.new) }
{
    let mut left = text;
    let status = play_from(rt, plan, &mut left, out, errors);
    advise(rt.alloc(), Runs::Scripts, &plan.file, text, errors);
    status
}
