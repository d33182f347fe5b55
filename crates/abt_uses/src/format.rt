//! Texts of events.
ghost use Rattle.std.specs.Prelude.{◌≡◌, None, IfOk, IsSomeAnd, MatchOption, string_bytes};
ghost use Rattle.abt_format.specs.EventText.{event_text};
ghost use Rattle.abt_format.specs.EventTexts as texts;

use abt_format::{event_of, push_event};
use std::alloc::{AllocError, Global};

/// The text of an event in its canonical form; `None` for a text that says no event.
pub fn canonical(alloc: Global, text: &str) -> Result<Option<String>, AllocError>
    ensures { IfOk result (λ written. MatchOption (texts.event_of text.now)
        (written ≡ None) (λ event. IsSomeAnd written (λ line. string_bytes line ≡ event_text event))) }
{
    let Some(event) = event_of(text) else {
        return Ok(None);
    };
    let mut line = String::new(alloc);
    push_event(&mut line, &event)?;
    Ok(Some(line))
}
