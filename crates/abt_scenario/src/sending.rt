//! Scenarios, written to writers and to files.
ghost use Rattle.std.specs.Prelude.{◌≡◌, ◌⊎◌, IfErr, OnOk};
ghost use Rattle.abt_scenario.specs.Sent.{IsSaved, IsSent, IsUnsaved, IsUnsent, unmade};
ghost use Rattle.abt_scenario.specs.declared.text_fault.EventsFault.TheVariants.{Memory, Open};

use crate::sample::sample_text;
use crate::text_fault::EventsFault;
use abt_model::Event;
use abt_net::Net;
use abt_text::put;
use std::alloc::{AllocGlobal, Global};
use std::fs::File;
use std::io::{ErrorKind, Write};
use std::rt::Files;

/// Writes a net and events as the text of a scenario, [`sample_text`]. Nothing is written before the whole text is made and read back.
///
/// # Errors
/// The errors of [`sample_text`], with which nothing went out; [`EventsFault::Write`] if the writer failed behind a part of the text.
pub fn write_events<W: Write>(
    alloc: Global,
    net: &Net,
    events: &[Event],
    writer: &mut W,
) -> Result<(), EventsFault>
    ensures ok { OnOk result (IsSent net.now events.now (W.contents writer.old) (W.contents writer.new)) }
    ensures err { IfErr result
        (λ fault. IsUnsent net.now events.now fault (W.contents writer.old) (W.contents writer.new)) }
{
    let text = sample_text(alloc, net, events)?;
    match put(writer, text.as_bytes()) {
        Ok(()) => Ok(()),
        Err(_) => Err(EventsFault::Write),
    }
}

#[tactic(auto, using(crate::proofs::Unsaved::unsampled_unsaved))]
/// Writes a net and events as the text of a scenario, [`sample_text`], straight to a file, for callers in Rust: `abt` has `abt_files`. The
/// file is made, or the one of that name emptied, once there is such a text. A fault is told by [`EventsFault::line`].
///
/// # Errors
/// The errors of [`sample_text`], with which the file is left as it was; [`EventsFault::Open`] if the file can't be made, or
/// [`EventsFault::Memory`] if memory for that is refused; [`EventsFault::Write`] if writing failed behind a part of the text.
pub fn save_events<T: Files + AllocGlobal>(
    rt: &T,
    name: &str,
    net: &Net,
    events: &[Event],
) -> Result<(), EventsFault>
    ensures ok { OnOk result (IsSaved net.now events.now) }
    ensures err { IfErr result (IsUnsaved net.now events.now) }
{
    let text = sample_text(rt.alloc(), net, events)?;
    let mut file = match File::create(rt, name) {
        Ok(file) => file,
        Err(error) => return Err(fault_unmade(error.kind())),
    };
    match put(&mut file, text.as_bytes()) {
        Ok(()) => Ok(()),
        Err(_) => Err(EventsFault::Write),
    }
}

// Why a file can't be made.
fn fault_unmade(kind: ErrorKind) -> EventsFault
    ensures value { result ≡ unmade kind }
    ensures either { (result ≡ Open) ⊎ (result ≡ Memory) }
{
    match kind {
        ErrorKind::OutOfMemory => EventsFault::Memory,
        _ => EventsFault::Open,
    }
}
