//! A text from any reader to any writer.
ghost use Rattle.std.specs.Prelude.{◌≡◌, IfSome, length};
ghost use Rattle.std.specs.Io.KnownBytes.{Appends};

use abt_text::{octets_of, put};
use std::alloc::Global;
use std::io::{Read, Write};

/// Writes a copy of all that a reader has left, and says how many octets that were; `None` if it couldn't.
pub fn copied<R: Read, W: Write>(alloc: Global, reader: &mut R, writer: &mut W) -> Option<usize>
    ensures { IfSome result (λ count. IfSome (R.remaining reader.old) (λ left. (count ≡ length left) ×
        Appends (W.contents writer.old) (W.contents writer.new) left)) }
{
    let octets = octets_of(alloc, reader).ok()?;
    put(writer, octets.as_slice()).ok()?;
    Some(octets.len())
}
