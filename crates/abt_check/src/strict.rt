//! Whether each event of a scenario is enabled.
ghost use Rattle.std.specs.Prelude.{IfOk, string_bytes};
ghost use Rattle.std.specs.Option.{option_map};
ghost use Rattle.abt_check.specs.Strict.{IsFirstUnable};

use crate::unable::{Look, unable_in};
use abt_scenario::{ScenarioFault, read};
use std::alloc::{AllocError, Global};

/// What is said of the first event of a scenario's text that isn't enabled: its number, its outcome and the reason. Nothing if each is
/// enabled, or the text is no scenario.
///
/// # Errors
/// If memory is refused.
pub fn first_unable(alloc: Global, octets: &[u8]) -> Result<Option<String>, AllocError>
    ensures { IfOk result (λ first. IsFirstUnable octets.now (option_map string_bytes first)) }
{
    let Ok(text) = std::str::from_utf8(octets) else {
        return Ok(None);
    };
    match read(alloc, text) {
        Ok(scenario) => {
            let events = scenario.events.as_slice();
            let found = unable_in(alloc, &scenario.net, events, Look::Strict, 1)?;
            match found.into_iter().next() {
                Some(unable) => Ok(Some(unable.text)),
                None => Ok(None),
            }
        }
        Err(ScenarioFault::Memory) => Err(AllocError),
        Err(_) => Ok(None),
    }
}
