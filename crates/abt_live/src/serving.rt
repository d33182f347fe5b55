//! Servers that keep a journal, over the lines of any reader.
ghost use Rattle.std.specs.Prelude.{◌≡◌, ℕ, [], Option, OnOk, OnErr, string_bytes};
ghost use Rattle.std.specs.Io.KnownBytes.{IsAtEnd};
ghost use Rattle.std.specs.Option.{option_map};
ghost use Rattle.abt_text.specs.Text.{Text};
ghost use Rattle.abt_lines.specs.Served.{ServesAll, ServesPart};
ghost use Rattle.abt_live.specs.Serving.{EndsSilent};

use crate::fault::StopFault;
use abt_lines::{LineServer, LinesFault, serve_lines};
use std::alloc::{AllocError, Global};
use std::io::{Read, Write};
use thiserror::Error;

/// A server of lines that keeps a journal, and stops for good if that can't be written.
pub trait JournalServer {
    // It may answer the line of this number so, and is then that. A line that is too long isn't seen.
    ghost steps: { (old : Self) → ℕ → Option Text → (said : Text) → (new : Self) → Type 0 };

    /// Puts the answer to the next line, which has this number, or is too long if there is `None`, into an empty text.
    ///
    /// # Errors
    /// The server is of no use any more, and nobody is told what it did.
    fn answer(
        &mut self,
        alloc: Global,
        number: u64,
        line: Option<&[u8]>,
        text: &mut String,
    ) -> Result<(), StopFault>
        requires { string_bytes text.old ≡ [] }
        ensures { OnOk result (steps self.old number (option_map (λ line. line.now) line.entry)
            (string_bytes text.new) self.new) };
}

/// Why lines aren't all answered by a server that keeps a journal.
#[derive(Clone, Copy, Debug, PartialEq, Eq, Error)]
pub enum ServeFault {
    /// The journal can't be written.
    #[error("the journal can't be written")]
    Journal,
    /// The lines can't be read, answered or written.
    #[error("{0}")]
    Lines(LinesFault),
}

// A server, and whether its journal couldn't be written.
#[derive(Drop)]
struct Stoppable<S: JournalServer> {
    server: S,
    is_broken: bool,
}

impl<S: JournalServer> LineServer for Stoppable<S> {
    ghost use Rattle.abt_live.specs.Serving.{EndsSilent};

    ghost steps = { λ old number line said new. S.steps old.server number line said new.server };

    ghost ends = { EndsSilent };

    fn answer(
        &mut self,
        alloc: Global,
        number: u64,
        line: Option<&[u8]>,
        text: &mut String,
    ) -> Result<(), AllocError> {
        match self.server.answer(alloc, number, line, text) {
            Ok(()) => Ok(()),
            Err(fault) => {
                self.is_broken = fault == StopFault::Journal;
                Err(AllocError)
            }
        }
    }

    fn end(&self, _alloc: Global, _number: u64, _text: &mut String) -> Result<(), AllocError> {
        Ok(())
    }
}

/// Answers all lines of a reader. What a read of the lines ends is in the journal, and answered, before the next read.
pub fn serve_journal<S: JournalServer + Drop, R: Read, W: Write>(
    alloc: Global,
    server: S,
    reader: &mut R,
    writer: &mut W,
) -> Result<(), ServeFault>
    ensures end { OnOk result (IsAtEnd (R.remaining reader.new)) }
    ensures ok { OnOk result ((last : S) × ServesAll S.steps EndsSilent server last
        (R.remaining reader.old) (W.contents writer.old) (W.contents writer.new)) }
    ensures err { OnErr result (ServesPart S.steps EndsSilent server
        (R.remaining reader.old) (W.contents writer.old) (W.contents writer.new)) }
{
    let mut lines = Stoppable {
        server,
        is_broken: false,
    };
    match serve_lines(alloc, &mut lines, reader, writer) {
        Ok(()) => Ok(()),
        Err(_) if lines.is_broken => Err(ServeFault::Journal),
        Err(fault) => Err(ServeFault::Lines(fault)),
    }
}
