//! What a source did in processes before.
ghost use Rattle.std.specs.Prelude.{◌≡◌, IfOk};
ghost use Rattle.abt_live.specs.Past.{Follows, deed_after, emitted_past, past_after, settled, started_past};

use crate::noted::{Noted, noted_on};
use abt_model::{Event, Outcome, SourceEntry};
use abt_rate::Rate;
use std::alloc::{AllocError, Global};

/// What a source did in processes before, as its journal says (docs/LIVE.md, "A source that starts again").
#[derive(Clone, Copy, Debug, PartialEq, Eq)]
pub struct Past {
    /// How many cells it emitted.
    pub cells: u64,
    /// The last moment of a start or an emission, in picoseconds.
    pub clock: u64,
    /// Whether it was up.
    pub is_up: bool,
    /// The rate of the ask that was about to write last, if nothing is said of what came of it.
    pub about: Option<Rate>,
}

impl Past {
    /// Before anything happened.
    pub const NONE: Past = Past {
        cells: 0,
        clock: 0,
        is_up: false,
        about: None,
    };

    // What the past is once the next line of the journal of the source of a connection is this, or `None` if that can't come there.
    pub(crate) fn with_line(
        self,
        alloc: Global,
        conn: u16,
        line: &[u8],
    ) -> Result<Option<Past>, AllocError>
        ensures { IfOk result (Follows conn self line.now) }
    {
        match noted_on(alloc, conn, line) {
            Ok(noted) => Ok(self.after(&noted)),
            Err(error) => Err(error),
        }
    }

    // What the past is once a line says this, or `None` if it can't come there.
    fn after(self, noted: &Noted) -> Option<Past>
        ensures { result ≡ past_after self noted.now }
    {
        match noted {
            Noted::About(rate) => Some(Past {
                about: Some(*rate),
                ..self
            }),
            Noted::Entry(SourceEntry::Did(event, outcome)) => {
                self.settled().after_deed(event, outcome)
            }
            Noted::Entry(_) => Some(self.settled()),
            Noted::Nothing => None,
        }
    }

    // Nothing is about to be written any more.
    fn settled(self) -> Past
        ensures { result ≡ settled self }
    {
        Past {
            about: None,
            ..self
        }
    }

    fn after_deed(self, event: &Event, outcome: &Outcome) -> Option<Past>
        ensures { result ≡ deed_after self event.now outcome.now }
    {
        match (event, outcome) {
            (Event::Start { now, .. }, Outcome::Started) => self.started(*now),
            (Event::Emit { now, .. }, Outcome::Emitted { cell, .. }) => self.emitted(*cell, *now),
            (Event::Crash { .. }, Outcome::Crashed) => Some(Past {
                is_up: false,
                ..self
            }),
            _ => Some(self),
        }
    }

    fn started(self, now: u64) -> Option<Past>
        ensures { result ≡ started_past self now }
    {
        if now < self.clock {
            return None;
        }
        Some(Past {
            clock: now,
            is_up: true,
            ..self
        })
    }

    fn emitted(self, cell: u64, now: u64) -> Option<Past>
        ensures { result ≡ emitted_past self cell now }
    {
        let cells = cell.checked_add(1)?;
        if cell != self.cells || now < self.clock {
            return None;
        }
        Some(Past {
            cells,
            clock: now,
            ..self
        })
    }
}
