//! What is told of a file that isn't written.
ghost use Rattle.std.specs.Prelude.{◌≡◌, ◌⊎◌, IfOk, string_bytes};
ghost use Rattle.abt_text.specs.Text.{◌⋅◌};
ghost use Rattle.abt_files.specs.Shown as shown;
ghost use Rattle.abt_files.specs.Why as words;
ghost use Rattle.std.specs.Io.KnownBytes.{Keeps};
ghost use Rattle.abt_commands.specs.Unwritten.{TellsReason, TellsUnwritten};

use abt_files::{Why, line_of, unwritten_words};
use abt_perform::tell_text;
use std::alloc::{AllocError, Global};
use std::io::Write;

// Tells the line of a fault, and behind it the file's name and why it isn't written. Want of memory is told alone.
pub(crate) fn tell_unwritten<E: Write>(
    alloc: Global,
    line: &str,
    name: &str,
    why: Why,
    errors: &mut E,
)
    ensures { TellsUnwritten line.now name.now why (E.contents errors.old) (E.contents errors.new) }
{
    if why == Why::Memory {
        tell_text(errors, line);
        return;
    }
    match told_of(alloc, line, name, why) {
        Ok(text) => tell_text(errors, text.as_str()),
        Err(_) => tell_text(errors, line),
    }
}

// Tells a file's name and why it isn't written, unless memory is refused.
pub(crate) fn tell_reason<E: Write>(alloc: Global, name: &str, why: Why, errors: &mut E)
    ensures { Keeps (E.contents errors.old) (E.contents errors.new)
        ⊎ TellsReason name.now (E.contents errors.old) (E.contents errors.new) }
{
    if let Ok(text) = line_of(alloc, name, unwritten_words(why)) {
        tell_text(errors, text.as_str());
    }
}

fn told_of(alloc: Global, line: &str, name: &str, why: Why) -> Result<String, AllocError>
    ensures { IfOk result (λ text. string_bytes text ≡
        line.now ⋅ shown.line_of name.now (words.unwritten_words why)) }
{
    let told = line_of(alloc, name, unwritten_words(why))?;
    let told = told.as_str();
    format!(in alloc; "{line}{told}")
}
