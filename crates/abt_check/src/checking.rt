//! The check of a text.
ghost use Rattle.std.specs.Prelude.{◌≡◌, IfOk};
ghost use Rattle.abt_check.specs.Check.{IsCheckOf, BeginsWith};

use crate::finding::{Checked, Findings, Found};
use abt_places::layout_of;
use abt_scenario::{Scenario, ScenarioFault, read};
use std::alloc::{AllocError, Global};
use toml::de::Error;

/// What is wrong and what is doubtful in a scenario's text (docs/FORMATS.md, "Checks"). The first fault is the one
/// for which [`read`](abt_scenario::read) refuses the text, and there is none if it reads a scenario.
///
/// # Errors
/// If memory is refused.
pub fn check(alloc: Global, text: &str) -> Result<Checked, AllocError>
    ensures { IfOk result (λ checked. IsCheckOf text.now checked) }
{
    match read(alloc, text) {
        Ok(scenario) => {
            let Checked {
                faults: _,
                warnings,
            } = look(alloc, text, Some(&scenario))?;
            Ok(Checked {
                faults: Vec::new(alloc),
                warnings,
            })
        }
        Err(ScenarioFault::Memory) => Err(AllocError),
        Err(fault) => {
            let Checked { faults, warnings } = look(alloc, text, None)?;
            let faults = with_first(alloc, fault, faults)?;
            Ok(Checked { faults, warnings })
        }
    }
}

// All that is found in a text along its keys.
fn look(alloc: Global, text: &str, scenario: Option<&Scenario>) -> Result<Checked, AllocError> {
    let table = match toml::table_from_str(alloc, text) {
        Ok(table) => table,
        Err(error) => return no_toml(alloc, &error),
    };
    let layout = layout_of(alloc, text, "connection")?;
    let found = Checked {
        faults: Vec::new(alloc),
        warnings: Vec::new(alloc),
    };
    let mut findings = Findings {
        alloc,
        layout: &layout,
        found,
    };
    findings.keys(&table)?;
    if findings.is_clean() {
        findings.net(&table)?;
    }
    findings.texts(&table)?;
    findings.unread()?;
    if let Some(scenario) = scenario {
        findings.runs(scenario)?;
        findings.events(scenario)?;
    }
    Ok(findings.found)
}

// What is told of a text that isn't TOML: the reader's own message, at its place.
fn no_toml(alloc: Global, error: &Error) -> Result<Checked, AllocError> {
    let Some(span) = error.span() else {
        return Err(AllocError);
    };
    let mut faults = Vec::new(alloc);
    faults.push(Found {
        fault: ScenarioFault::Toml,
        at: Some(span.start),
        text: String::from_str(alloc, error.message())?,
    })?;
    Ok(Checked {
        faults,
        warnings: Vec::new(alloc),
    })
}

// The faults that were found, if the first one is this; else this one alone.
fn with_first(
    alloc: Global,
    fault: ScenarioFault,
    faults: Vec<Found>,
) -> Result<Vec<Found>, AllocError>
    ensures { IfOk result (λ faults. BeginsWith fault faults.items) }
{
    if let Some(found) = faults.first()
        && found.fault == fault
    {
        return Ok(faults);
    }
    let text = format!(in alloc; "{fault}")?;
    Ok(vec![in alloc;
        Found {
            fault,
            at: None,
            text
        },
    ]?)
}
