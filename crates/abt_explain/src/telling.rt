//! The whole telling of events that were woven.
ghost use Rattle.std.specs.Prelude.{IfOk, string_bytes};
ghost use Rattle.abt_explain.specs.Told.{IsTold, TellsEvents};

use crate::answers::{Answers, answers_of};
use abt_model::Event;
use abt_net::Net;
use abt_perform::{Fault, tell_fault, tell_text};
use abt_reason::explanation_of;
use std::alloc::{AllocError, Global};
use std::io::Write;

/// The text that tells events that were woven of journals, of a net to which nothing happened before (docs/EXPLAIN.md): how many there are,
/// each of them as [`explanation_of`] tells it, and who was granted what.
///
/// # Errors
/// If memory is refused.
pub fn told_text(alloc: Global, net: &Net, events: &[Event]) -> Result<String, AllocError>
    ensures { IfOk result (λ text. IsTold net.now events.now (string_bytes text)) }
{
    let answers = answers_of(alloc, net, events)?;
    let explanation = explanation_of(alloc, net, events, &[])?;
    let Answers {
        lines,
        granted,
        refused,
    } = answers;
    let count = events.len();
    let text = format!(in alloc;
        "events: {count}, granted: {granted}, refused: {refused}\n{explanation}{lines}"
    )?;
    Ok(text)
}

/// Writes that text as far as the writer takes it; or, if memory for it is refused, the line that tells so.
pub fn tell_events<E: Write>(alloc: Global, net: &Net, events: &[Event], errors: &mut E)
    ensures { TellsEvents net.now events.now (E.contents errors.old) (E.contents errors.new) }
{
    match told_text(alloc, net, events) {
        Ok(text) => tell_text(errors, text.as_str()),
        Err(_) => tell_fault(Fault::Memory, errors),
    }
}
