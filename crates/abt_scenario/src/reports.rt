//! Reports of scenarios.
ghost use Rattle.std.specs.Prelude.{◌≡◌, IfOk, string_bytes};
ghost use Rattle.abt_format.specs.Report.{report_of};

use crate::scenario::Scenario;
use abt_format::report_text;
use abt_model::Trace;
use std::alloc::{AllocError, Global};

/// The report of a run of a scenario (docs/FORMATS.md, "Report"). The trace says all that is in it.
pub fn report(alloc: Global, _scenario: &Scenario, trace: &Trace) -> Result<String, AllocError>
    ensures { IfOk result (λ text. string_bytes text ≡ report_of trace.now) }
{
    report_text(alloc, trace)
}
