//! A file that is written whole or not at all.
ghost use Rattle.std.specs.Prelude.{IfSome};
ghost use Rattle.abt_files.specs.Calls.{IsWritten};

use abt_files::{Kept, create_output};
use abt_text::put;
use std::alloc::AllocGlobal;
use std::rt::Files;

/// Writes a text to the file of a name; `None` if that couldn't be, and then the file is as it was.
pub fn kept_text<T: Files + AllocGlobal>(rt: &T, name: &str, text: &[u8]) -> Option<Kept>
    ensures { IfSome result (λ kept. IsWritten text.now kept.log.calls) }
{
    let mut output = create_output(rt, name).ok()?;
    match put(&mut output, text) {
        Ok(()) => output.keep(rt).ok(),
        Err(_) => {
            let _ = output.discard(rt);
            None
        }
    }
}
