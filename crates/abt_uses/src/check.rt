//! A text, looked at for faults.
ghost use Rattle.std.specs.Prelude.{◌↔◌, IfOk, IsTrue};
ghost use Rattle.abt_check.specs.Check.{SaysScenario};

use abt_check::check;
use abt_scenario::each_text_has_one_reading;
use std::alloc::{AllocError, Global};

/// Whether a text is a scenario.
pub fn is_scenario(alloc: Global, text: &str) -> Result<bool, AllocError>
    ensures { IfOk result (λ says. IsTrue says ↔ SaysScenario text.now) }
{
    each_text_has_one_reading();
    let checked = check(alloc, text)?;
    Ok(checked.faults.is_empty())
}
