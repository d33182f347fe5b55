//! A scenario's text, read and run.
ghost use Rattle.std.specs.Prelude.{◌≡◌, ◌⊎◌, true, Err, IfOk, IfErr};
ghost use Rattle.abt_scenario.specs.Scenarios.{Reads};

use abt_scenario::{ScenarioFault, read};
use abt_world::run;
use std::alloc::Global;

/// Whether the net of a scenario's text is safe after the scenario's events. It is; a text that is no scenario has its first fault.
pub fn is_safe_scenario(alloc: Global, text: &str) -> Result<bool, ScenarioFault>
    ensures ok { IfOk result (λ safe. safe ≡ true) }
    ensures err { IfErr result (λ fault. (fault ≡ ScenarioFault.Memory) ⊎ Reads text.now (Err fault)) }
{
    let scenario = read(alloc, text)?;
    let trace = run(alloc, &scenario.net, scenario.events.as_slice())?;
    Ok(trace.safe)
}
