//! A standard output whose reader may go away, as `head` does.
ghost use Rattle.std.specs.Prelude.{◌≡◌, if◌then◌else◌};

use std::cell::Cell;
use std::io::{ErrorKind, Result, Write};

// A writer that notes when its reader went away. Its octets go to the writer inside as they come, and each failure comes back.
#[derive(Drop)]
pub(crate) struct Piped<'a, W> {
    writer: W,
    is_left: &'a Cell<bool>,
}

impl<'a, W: Write> Piped<'a, W> {
    pub(crate) fn new(writer: W, is_left: &'a Cell<bool>) -> Piped<'a, W> {
        Piped { writer, is_left }
    }
}

impl<'a, W: Write> Write for Piped<'a, W> {
    ghost contents = { λ piped. W.contents piped.writer };

    fn write(&mut self, octets: &[u8]) -> Result<usize> {
        let written = self.writer.write(octets);
        if let Err(error) = &written {
            if error.kind() == ErrorKind::BrokenPipe {
                self.is_left.set(true);
            }
        }
        written
    }

    fn flush(&mut self) -> Result<()> {
        self.writer.flush()
    }
}

// A writer of what is told beside an output. Once the reader of that went away, all is let go.
#[derive(Drop)]
pub(crate) struct Beside<'a, W> {
    writer: W,
    is_left: &'a Cell<bool>,
}

impl<'a, W: Write> Beside<'a, W> {
    pub(crate) fn new(writer: W, is_left: &'a Cell<bool>) -> Beside<'a, W> {
        Beside { writer, is_left }
    }
}

impl<'a, W: Write> Write for Beside<'a, W> {
    fn write(&mut self, octets: &[u8]) -> Result<usize> {
        if self.is_left.get() {
            Ok(octets.len())
        } else {
            self.writer.write(octets)
        }
    }

    fn flush(&mut self) -> Result<()> {
        self.writer.flush()
    }
}

// The exit status of a command: of one whose reader went away it is that of a program that is ended by SIGPIPE, as a shell tells it.
pub(crate) fn status_of(status: u8, is_left: bool) -> u8
    ensures { result ≡ (if is_left then 141 else status) }
{
    if is_left { 141 } else { status }
}
