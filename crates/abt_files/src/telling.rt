//! Names that are told without memory.
ghost use Rattle.std.specs.Prelude.{◌≡◌, OnErr, OnOk};
ghost use Rattle.std.specs.Io.KnownBytes.{Appends};
ghost use Rattle.std.specs.Char.{encode_utf8};
ghost use Rattle.abt_text.specs.Streams.{AppendsPrefix};
ghost use Rattle.abt_files.specs.Shown as spec;

use crate::showing::shown_letter;
use abt_text::{Unwritten, put};
use std::io::Write;

/// Writes a text as it is shown ([`crate::shown`]), without memory.
///
/// # Errors
/// If the writer failed behind a part of it.
pub fn put_shown<W: Write>(writer: &mut W, text: &str) -> Result<(), Unwritten>
    ensures ok { OnOk result (Appends (W.contents writer.old) (W.contents writer.new) (spec.shown text.now)) }
    ensures err { OnErr result
        (AppendsPrefix (W.contents writer.old) (W.contents writer.new) (spec.shown text.now)) }
{
    for letter in text.chars() {
        put_letter(writer, shown_letter(letter))?;
    }
    Ok(())
}

fn put_letter<W: Write>(writer: &mut W, letter: char) -> Result<(), Unwritten>
    ensures ok { OnOk result (Appends (W.contents writer.old) (W.contents writer.new) (encode_utf8 letter)) }
    ensures err { OnErr result
        (AppendsPrefix (W.contents writer.old) (W.contents writer.new) (encode_utf8 letter)) }
{
    let mut room = [0; 4];
    let octets = letter.encode_utf8(&mut room);
    put(writer, octets.as_bytes())
}
