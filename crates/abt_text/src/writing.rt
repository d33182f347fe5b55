//! A whole text to a writer.
ghost use Rattle.std.specs.Prelude.{◌<◌, ◌≤◌, length, take, IfOk, OnOk, OnErr};
ghost use Rattle.std.specs.Io.KnownBytes.{Appends, Keeps};
ghost use Rattle.abt_text.specs.Streams.{AppendsPrefix};

use crate::reading::TRIES;
use std::io::{ErrorKind, Write};
use thiserror::Error;

/// The writer failed, or took no octet.
#[derive(Clone, Copy, Debug, PartialEq, Eq, Error)]
#[error("the output can't be written")]
pub struct Unwritten;

/// Writes all of a text, in as many writes as the writer needs. A write that was interrupted is tried again.
pub fn put<W: Write>(writer: &mut W, text: &[u8]) -> Result<(), Unwritten>
    ensures ok { OnOk result (Appends (W.contents writer.old) (W.contents writer.new) text.now) }
    ensures err { OnErr result
        (AppendsPrefix (W.contents writer.old) (W.contents writer.new) text.now) }
{
    let mut written = 0;
    while written < text.len() {
        let count = write_some(writer, &text[written..])?;
        written += count;
    }
    Ok(())
}

// Writes the beginning of a text, at least one octet of it.
fn write_some<W: Write>(writer: &mut W, text: &[u8]) -> Result<usize, Unwritten>
    ensures some { IfOk result (λ count. 0 < count) }
    ensures within { IfOk result (λ count. count ≤ length text.now) }
    ensures ok { IfOk result
        (λ count. Appends (W.contents writer.old) (W.contents writer.new) (take count text.now)) }
    ensures err { OnErr result (Keeps (W.contents writer.old) (W.contents writer.new)) }
{
    for _try in 0..TRIES {
        match writer.write(text) {
            Ok(0) => return Err(Unwritten),
            Ok(count) => return Ok(count),
            Err(error) if error.kind() == ErrorKind::Interrupted => {}
            Err(_) => return Err(Unwritten),
        }
    }
    Err(Unwritten)
}
