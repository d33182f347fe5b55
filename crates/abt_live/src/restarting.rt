//! What the journal of a source says where it begins again.
ghost use Rattle.std.specs.Prelude.{◌≡◌, IfOk};
ghost use Rattle.abt_live.specs.History.{crash_text, open_text, restart_text};

use crate::failed_line::failed_line;
use crate::past::Past;
use crate::source_journal::deed_line;
use abt_model::{Event, Outcome};
use abt_rate::Rate;
use std::alloc::{AllocError, Global};

/// What a process of a source writes of the one before: an ask that was about to write may have been stored, and a source that was up
/// crashed.
pub fn restart_text(alloc: Global, conn: u16, past: &Past) -> Result<Vec<u8>, AllocError>
    ensures { IfOk result (λ text. text.items ≡ restart_text conn past.now) }
{
    let mut text = open_text(alloc, conn, past.about)?;
    text.extend_from_slice(crash_text(alloc, conn, past)?.as_slice())?;
    Ok(text)
}

// An ask that was about to write.
fn open_text(alloc: Global, conn: u16, about: Option<Rate>) -> Result<Vec<u8>, AllocError>
    ensures { IfOk result (λ text. text.items ≡ open_text conn about) }
{
    match about {
        Some(rate) => failed_line(alloc, conn, rate),
        None => Ok(Vec::new(alloc)),
    }
}

// A source that was up.
fn crash_text(alloc: Global, conn: u16, past: &Past) -> Result<Vec<u8>, AllocError>
    ensures { IfOk result (λ text. text.items ≡ crash_text conn past.now) }
{
    if !past.is_up {
        return Ok(Vec::new(alloc));
    }
    deed_line(alloc, conn, Event::Crash { conn }, &Outcome::Crashed)
}
