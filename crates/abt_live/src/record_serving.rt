//! Servers that keep a journal, over the lines and cells of any reader.
ghost use Rattle.std.specs.Prelude.{◌≡◌, [], Option, OnOk, OnErr};
ghost use Rattle.std.specs.Io.KnownBytes.{IsAtEnd};
ghost use Rattle.std.specs.Option.{option_map};
ghost use Rattle.abt_text.specs.Text.{Text};
ghost use Rattle.abt_records.specs.Served.{ServesRecords, ServesSome};

use crate::fault::StopFault;
use crate::serving::ServeFault;
use abt_records::{RecordServer, serve_records};
use std::alloc::{AllocError, Global};
use std::io::{Read, Write};

/// A server of lines and cells that keeps a journal, and stops for good if that can't be written.
pub trait JournalRecords {
    // It may answer this record so, and is then that. A line that is too long isn't seen.
    ghost steps: { (old : Self) → Option Text → (said : Text) → (new : Self) → Type 0 };

    /// Puts the answer to the next line or cell, which is a line that is too long if there is `None`, where no octets are.
    ///
    /// # Errors
    /// The server is of no use any more, and nobody is told what it did.
    fn answer(
        &mut self,
        alloc: Global,
        seen: Option<&[u8]>,
        said: &mut Vec<u8>,
    ) -> Result<(), StopFault>
        requires { said.old.items ≡ [] }
        ensures { OnOk result (steps self.old (option_map (λ octets. octets.now) seen.entry)
            said.new.items self.new) };
}

// A server, and whether its journal couldn't be written.
#[derive(Drop)]
struct StoppableRecords<S: JournalRecords> {
    server: S,
    is_broken: bool,
}

impl<S: JournalRecords> RecordServer for StoppableRecords<S> {
    ghost steps = { λ old seen said new. S.steps old.server seen said new.server };

    fn answer(
        &mut self,
        alloc: Global,
        seen: Option<&[u8]>,
        said: &mut Vec<u8>,
    ) -> Result<(), AllocError> {
        match self.server.answer(alloc, seen, said) {
            Ok(()) => Ok(()),
            Err(fault) => {
                self.is_broken = fault == StopFault::Journal;
                Err(AllocError)
            }
        }
    }
}

/// Answers all lines and cells of a reader. What a read of them ends is in the journal, and answered, before the next read.
pub fn serve_journal_records<S: JournalRecords + Drop, R: Read, W: Write>(
    alloc: Global,
    server: S,
    reader: &mut R,
    writer: &mut W,
) -> Result<(), ServeFault>
    ensures end { OnOk result (IsAtEnd (R.remaining reader.new)) }
    ensures ok { OnOk result ((last : S) × ServesRecords S.steps server last
        (R.remaining reader.old) (W.contents writer.old) (W.contents writer.new)) }
    ensures err { OnErr result (ServesSome S.steps server
        (R.remaining reader.old) (W.contents writer.old) (W.contents writer.new)) }
{
    let mut records = StoppableRecords {
        server,
        is_broken: false,
    };
    match serve_records(alloc, &mut records, reader, writer) {
        Ok(()) => Ok(()),
        Err(_) if records.is_broken => Err(ServeFault::Journal),
        Err(fault) => Err(ServeFault::Lines(fault)),
    }
}
