//! Readers whose octets are counted.
ghost use Rattle.std.specs.Prelude.{◌≡◌};
ghost use Rattle.std.specs.Io.{ReadsAtMost};
ghost use Rattle.std.specs.Io.KnownBytes.{ReadConsumes};

use crate::progress::Progress;
use std::io::{Read, Result, Write};

/// A reader whose octets are counted. It has left what the reader inside has left, and hands on each read as it came.
#[derive(Drop)]
pub struct Watched<'a, R, E> {
    reader: R,
    progress: &'a Progress<E>,
}

impl<'a, R: Read, E: Write + Drop> Watched<'a, R, E> {
    /// The reader, whose octets are to be counted from now on.
    pub fn new(reader: R, progress: &'a Progress<E>) -> Watched<'a, R, E>
        ensures { R.remaining result.reader ≡ R.remaining reader }
    {
        Watched { reader, progress }
    }
}

impl<'a, R: Read, E: Write + Drop> Read for Watched<'a, R, E> {
    ghost remaining = { λ watched. R.remaining watched.reader };

    fn read(&mut self, room: &mut [u8]) -> Result<usize> {
        let count = self.reader.read(room)?;
        self.progress.count(count);
        Ok(count)
    }
}
