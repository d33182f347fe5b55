//! A reader whose progress is drawn on a terminal.
ghost use Rattle.std.specs.Prelude.{◌≡◌, IfSome};

use abt_progress::{Progress, Watched};
use abt_text::octets_of;
use std::alloc::Global;
use std::io::{Read, Write};

/// All that a reader has left, while a line on a terminal tells how far it is read; `None` if it couldn't be read. What the terminal
/// takes changes nothing of it.
pub fn octets_shown<R: Read + Drop, E: Write + Drop>(
    alloc: Global,
    reader: R,
    terminal: E,
) -> Option<Vec<u8>>
    ensures { IfSome result (λ octets. IfSome (R.remaining reader) (λ left. octets.items ≡ left)) }
{
    let progress = Progress::new(alloc, Some(terminal));
    let mut watched = Watched::new(reader, &progress);
    octets_of(alloc, &mut watched).ok()
}
