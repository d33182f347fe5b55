//! Scenarios that are read back before they are handed out.
ghost use Rattle.std.specs.Prelude.{IfOk, IfErr, string_bytes};
ghost use Rattle.abt_scenario.specs.Faults.{IsWhyNone};
ghost use Rattle.abt_scenario.specs.Samples.{IsSample};

use crate::comparing::is_of;
use crate::text_fault::EventsFault;
use crate::writing::scenario_text;
use crate::{ScenarioFault, each_text_has_one_reading, read};
use abt_model::Event;
use abt_net::Net;
use abt_text::TEXT_MAX;
use std::alloc::Global;

/// The text of a scenario that has this net and these events, as [`scenario_text`] writes it. Before it is handed out it is read back, as
/// `abt run` reads it.
///
/// # Errors
/// [`EventsFault::TooLong`] if no scenario may be so long; [`EventsFault::Unsaid`] if the text isn't read as this net and these events,
/// so if a number of an event has more than 19 digits; [`EventsFault::Memory`] wherever memory is refused.
pub fn sample_text(alloc: Global, net: &Net, events: &[Event]) -> Result<String, EventsFault>
    ensures ok { IfOk result (λ text. IsSample net.now events.now (string_bytes text)) }
    ensures err { IfErr result (IsWhyNone net.now events.now) }
{
    let text = scenario_text(alloc, net, events)?;
    if text.len() > TEXT_MAX {
        return Err(EventsFault::TooLong);
    }
    each_text_has_one_reading();
    match read(alloc, text.as_str()) {
        Ok(scenario) if is_of(&scenario, net, events) => Ok(text),
        Ok(_) => Err(EventsFault::Unsaid),
        Err(ScenarioFault::Memory) => Err(EventsFault::Memory),
        Err(_) => Err(EventsFault::Unsaid),
    }
}
