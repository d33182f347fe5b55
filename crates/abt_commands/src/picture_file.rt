//! Pictures that are written to a file of their own.
ghost use Rattle.std.specs.Prelude.{◌≡◌, ◌⊎◌, string_bytes};
ghost use Rattle.std.specs.Result.{IsOkAnd};
ghost use Rattle.std.specs.Io.KnownBytes.{Appends, Keeps};
ghost use Rattle.abt_text.specs.Streams.{AppendsPrefix};
ghost use Rattle.abt_draw.specs.Drawn.{TellsSome};
ghost use Rattle.abt_commands.specs.Delivered.{BreaksOff, Delivers, is_printed};
ghost use Rattle.abt_commands.specs.Saved.{IsFiled};

use crate::saving::{why_of_file, write_file};
use crate::unwritten::tell_unwritten;
use abt_draw::{DrawFault, PicturePlan, tell_draw_fault};
use abt_files::{OutFault, Why};
use abt_perform::{MEMORY_LINE, OPEN_LINE, WRITE_LINE, tell_text};
use abt_text::put;
use std::alloc::AllocGlobal;
use std::io::Write;
use std::rt::Files;

// Writes a picture to its file, or tells why there is none. Gives the exit status.
pub(crate) fn keep_picture<T: Files + AllocGlobal, E: Write>(
    rt: &T,
    plan: &PicturePlan,
    text: Result<String, DrawFault>,
    errors: &mut E,
) -> u8
    ensures status { (result ≡ 0) ⊎ (result ≡ 1) }
    ensures quiet { result ≡ 0 → Keeps (E.contents errors.old) (E.contents errors.new) }
    ensures told { result ≡ 1 → TellsSome (E.contents errors.old) (E.contents errors.new) }
    ensures kept { result ≡ 0 → IsOkAnd text (λ drawing. IsFiled (string_bytes drawing)) }
{
    match text {
        Ok(text) => keep_text(rt, plan, text.as_str(), errors),
        Err(fault) => {
            tell_draw_fault(rt.alloc(), fault, errors);
            1
        }
    }
}

// Writes the text of a picture to its file, or tells why it can't. Gives the exit status.
pub(crate) fn keep_text<T: Files + AllocGlobal, E: Write>(
    rt: &T,
    plan: &PicturePlan,
    text: &str,
    errors: &mut E,
) -> u8
    ensures status { (result ≡ 0) ⊎ (result ≡ 1) }
    ensures quiet { result ≡ 0 → Keeps (E.contents errors.old) (E.contents errors.new) }
    ensures told { result ≡ 1 → TellsSome (E.contents errors.old) (E.contents errors.new) }
    ensures kept { result ≡ 0 → IsFiled text.now }
{
    match write_file(rt, plan.out.as_str(), text.as_bytes()) {
        Ok(()) => 0,
        Err(fault) => {
            tell_unwritten(
                rt.alloc(),
                line_of(fault),
                plan.out.as_str(),
                why_of_file(fault),
                errors,
            );
            1
        }
    }
}

// Writes the text of a picture to its file, or to the standard output, which is `-`; or tells why it can't. Gives the exit status.
pub(crate) fn deliver<T: Files + AllocGlobal, W: Write, E: Write>(
    rt: &T,
    plan: &PicturePlan,
    text: &str,
    out: &mut W,
    errors: &mut E,
) -> u8
    ensures status { (result ≡ 0) ⊎ (result ≡ 1) }
    ensures quiet { result ≡ 0 → Keeps (E.contents errors.old) (E.contents errors.new) }
    ensures told { result ≡ 1 → TellsSome (E.contents errors.old) (E.contents errors.new) }
    ensures delivers { result ≡ 0 →
        Delivers (is_printed plan.now) text.now (W.contents out.old) (W.contents out.new) }
    ensures breaks { result ≡ 1 →
        BreaksOff (is_printed plan.now) text.now (W.contents out.old) (W.contents out.new) }
{
    if plan.out.as_str() == "-" {
        return print(text, out, errors);
    }
    keep_text(rt, plan, text, errors)
}

// Prints a text, or tells that it can't. Gives the exit status.
fn print<W: Write, E: Write>(text: &str, out: &mut W, errors: &mut E) -> u8
    ensures status { (result ≡ 0) ⊎ (result ≡ 1) }
    ensures quiet { result ≡ 0 → Keeps (E.contents errors.old) (E.contents errors.new) }
    ensures told { result ≡ 1 → TellsSome (E.contents errors.old) (E.contents errors.new) }
    ensures all { result ≡ 0 → Appends (W.contents out.old) (W.contents out.new) text.now }
    ensures part { result ≡ 1 → AppendsPrefix (W.contents out.old) (W.contents out.new) text.now }
{
    match put(out, text.as_bytes()) {
        Ok(()) => 0,
        Err(_) => {
            tell_text(errors, WRITE_LINE);
            1
        }
    }
}

// What is told of a picture whose file isn't written.
fn line_of(fault: OutFault) -> &'static str {
    match fault {
        OutFault::Open(Why::Memory) => MEMORY_LINE,
        OutFault::Open(_) => OPEN_LINE,
        OutFault::Write(_) => WRITE_LINE,
    }
}
