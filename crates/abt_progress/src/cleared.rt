//! Writers before whose octets the line is taken away.
ghost use Rattle.std.specs.Prelude.{◌≡◌, ◌↔◌, ◌++◌, ◌∷◌, [], List, ℕ, IsTrue};
ghost use Rattle.std.specs.Io.{WritesAtMost};
ghost use Rattle.std.specs.Io.KnownBytes.{WriteAppends, Keeps};

use crate::progress::Progress;
use std::io::{Result, Write};

/// A writer before whose octets the line is taken away, and behind whose lines it is drawn again. What is written goes to the writer
/// inside as it came, and nothing else does.
#[derive(Drop)]
pub struct Cleared<'a, W, E> {
    writer: W,
    progress: &'a Progress<E>,
}

impl<'a, W: Write, E: Write + Drop> Cleared<'a, W, E> {
    /// The writer, which is to stand beside the line from now on.
    pub fn new(writer: W, progress: &'a Progress<E>) -> Cleared<'a, W, E>
        ensures { W.contents result.writer ≡ W.contents writer }
    {
        Cleared { writer, progress }
    }
}

impl<'a, W: Write, E: Write + Drop> Write for Cleared<'a, W, E> {
    ghost contents = { λ cleared. W.contents cleared.writer };

    fn write(&mut self, octets: &[u8]) -> Result<usize> {
        let stood = self.progress.clear();
        let count = self.writer.write(octets)?;
        if stood && ends_line(&octets[..count]) {
            self.progress.draw_again();
        }
        Ok(count)
    }

    fn flush(&mut self) -> Result<()> {
        self.writer.flush()
    }
}

// Whether octets end with a line.
fn ends_line(octets: &[u8]) -> bool
    ensures { IsTrue result ↔ ((before : List ℕ) × (octets.now ≡ before ++ 10 ∷ [])) }
{
    octets.last() == Some(&b'\n')
}
