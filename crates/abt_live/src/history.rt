//! A source's journal, read before more is written behind it.
ghost use Rattle.std.specs.Prelude.{◌≡◌, IfOk, IfSome, length};
ghost use Rattle.abt_live.specs.History.{Recounts, by_tail, history_after, mending_by, mending_of, no_history, with_past};

use crate::past::Past;
use abt_lines::{LineServer, LinesFault, serve_lines};
use std::alloc::{AllocError, Global};
use std::io;
use std::io::Read;

/// A source's journal that was read.
#[derive(Clone, Copy, Debug, PartialEq, Eq)]
pub struct History {
    /// The number of the connection.
    pub conn: u16,
    /// What it says of the source's past.
    pub past: Past,
    // The octets of the lines that say it, with a line feed each.
    pub(crate) octets: u64,
    pub(crate) tail: Tail,
}

// What stands behind them.
#[derive(Clone, Copy, Debug, PartialEq, Eq)]
pub(crate) enum Tail {
    // Nothing.
    Whole,
    // So many octets that say nothing.
    Cut(u64),
    // What is no journal of the source.
    Foreign,
}

/// What the file of a journal needs before more is written behind it.
#[derive(Clone, Copy, Debug, PartialEq, Eq)]
pub enum Mending {
    /// Nothing.
    Nothing,
    /// A line feed behind its last line.
    LineFeed,
    /// To end with so many octets, since the line behind them is cut.
    End(u64),
}

impl History {
    // A journal without a line.
    fn new(conn: u16) -> History
        ensures { result ≡ no_history conn }
    {
        History {
            conn,
            past: Past::NONE,
            octets: 0,
            tail: Tail::Whole,
        }
    }

    /// What its file needs, which has so many octets, or `None` if it is no journal of the source.
    pub fn mending(&self, size: u64) -> Option<Mending>
        ensures { result ≡ mending_of self.now size }
    {
        match self.tail {
            Tail::Whole if self.octets == size => Some(Mending::Nothing),
            Tail::Whole if Some(self.octets) == size.checked_add(1) => Some(Mending::LineFeed),
            Tail::Cut(more) if self.octets.checked_add(more) == Some(size) => {
                Some(Mending::End(self.octets))
            }
            _ => None,
        }
    }

    // A line of so many octets follows, and the past with it, if there is one.
    fn after(self, size: u64, past: Option<Past>) -> History
        ensures { result ≡ history_after self size past }
    {
        match self.tail {
            Tail::Whole => self.with_past(size, past),
            Tail::Cut(_) => self.foreign(),
            Tail::Foreign => self,
        }
    }

    fn with_past(self, size: u64, past: Option<Past>) -> History
        ensures { result ≡ with_past self size past }
    {
        let Some(past) = past else {
            return History {
                tail: Tail::Cut(size),
                ..self
            };
        };
        match self
            .octets
            .checked_add(size)
            .and_then(|octets| octets.checked_add(1))
        {
            Some(octets) => History {
                past,
                octets,
                ..self
            },
            None => self.foreign(),
        }
    }

    fn foreign(self) -> History
        ensures { result ≡ record self { tail = Tail.Foreign } }
    {
        History {
            tail: Tail::Foreign,
            ..self
        }
    }
}

impl LineServer for History {
    ghost use Rattle.abt_live.specs.History.{NotesLine};
    ghost use Rattle.abt_live.specs.Serving.{EndsSilent};

    ghost steps = { NotesLine };

    ghost ends = { EndsSilent };

    fn answer(
        &mut self,
        alloc: Global,
        _number: u64,
        line: Option<&[u8]>,
        _text: &mut String,
    ) -> Result<(), AllocError> {
        let Some(octets) = line else {
            *self = self.foreign();
            return Ok(());
        };
        match self.past.with_line(alloc, self.conn, octets) {
            Ok(past) => {
                *self = self.after(octets.len() as u64, past);
                Ok(())
            }
            Err(error) => Err(error),
        }
    }

    fn end(&self, _alloc: Global, _number: u64, _text: &mut String) -> Result<(), AllocError> {
        Ok(())
    }
}

/// Reads the journal of the source of a connection to its end, in memory that doesn't grow with it.
pub fn read_history<R: Read>(
    alloc: Global,
    conn: u16,
    reader: &mut R,
) -> Result<History, LinesFault>
    ensures { IfOk result (λ history. IfSome (R.remaining reader.old)
        (λ text. Recounts conn text history)) }
{
    let mut history = History::new(conn);
    serve_lines(alloc, &mut history, reader, &mut io::sink())?;
    Ok(history)
}
