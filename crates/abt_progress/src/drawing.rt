//! The line on the terminal.
ghost use Rattle.std.specs.Prelude.{◌≡◌, ◌⊎◌, true, false};
ghost use Rattle.std.specs.Io.KnownBytes.{Keeps};
ghost use Rattle.abt_progress.specs.Line.{Draws, clear_text, line_text};

use crate::line::{CLEAR, line_text};
use abt_text::put;
use std::alloc::Global;
use std::io::Write;

// A terminal, and whether the line stands on it. What can't be written there is let go.
#[derive(Drop)]
pub(crate) struct Drawing<E> {
    terminal: E,
    stands: bool,
}

impl<E: Write> Drawing<E> {
    pub(crate) fn new(terminal: E) -> Drawing<E>
        ensures terminal { result.terminal ≡ terminal }
        ensures stands { result.stands ≡ false }
    {
        Drawing {
            terminal,
            stands: false,
        }
    }

    // Draws the line, over the one that stands; nothing if no memory is found.
    pub(crate) fn draw(&mut self, alloc: Global, octets: u64, ended: bool)
        ensures draws { Keeps (E.contents self.old.terminal) (E.contents self.new.terminal)
            ⊎ Draws (line_text octets ended) (E.contents self.old.terminal) (E.contents self.new.terminal) }
        ensures stands { self.new.stands ≡ true }
    {
        self.stands = true;
        if let Ok(text) = line_text(alloc, octets, ended) {
            tell(&mut self.terminal, text.as_str());
        }
    }

    // Takes the line away, if it stands, and says whether it stood.
    pub(crate) fn clear(&mut self) -> bool
        ensures stood { result ≡ self.old.stands }
        ensures gone { self.new.stands ≡ false }
        ensures still { self.old.stands ≡ false →
            Keeps (E.contents self.old.terminal) (E.contents self.new.terminal) }
        ensures clears { self.old.stands ≡ true →
            Draws clear_text (E.contents self.old.terminal) (E.contents self.new.terminal) }
    {
        let stood = self.stands;
        if stood {
            tell(&mut self.terminal, CLEAR);
            self.stands = false;
        }
        stood
    }
}

// Writes a text as far as the terminal takes it.
fn tell<E: Write>(terminal: &mut E, text: &str)
    ensures { Draws text.now (E.contents terminal.old) (E.contents terminal.new) }
{
    let _ = put(terminal, text.as_bytes());
}
