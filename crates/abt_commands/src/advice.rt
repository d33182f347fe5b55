//! What is advised behind a run.
ghost use Rattle.std.specs.Prelude.{◌≡◌, Some, string_bytes};
ghost use Rattle.std.specs.Option.{option_map};
ghost use Rattle.abt_commands.specs.Advice.{TellsAdvice, TellsOfNothing, advice_of, check_pieces, has_command, has_script};
ghost use Rattle.abt_commands.specs.Opening.{TellsEach};

use crate::opening::tell_shown;
use abt_model::Script;
use abt_perform::tell_text;
use abt_scenario::{EngineFault, Scenario, read_from};
use std::alloc::Global;
use std::io::Write;

const ONLY_SCRIPTS: &str = "this scenario has only scripts: use abt threads, or abt play\n";

const NOTHING: &str = "nothing runs: there are no events and no scripts\n";

const ONLY_EVENTS: &str = "this scenario has only events: use abt run\n";

// The part of a scenario that a command runs.
#[derive(Clone, Copy, Debug, PartialEq, Eq)]
pub(crate) enum Runs {
    // Its events.
    Events,
    // Its scripts, and the operator's list.
    Scripts,
}

// Tells of a text that has only what a command doesn't run which commands run it; and of one that is no scenario, who says why.
pub(crate) fn advise<E: Write>(
    alloc: Global,
    runs: Runs,
    file: &Option<String>,
    text: &[u8],
    errors: &mut E,
)
    ensures { TellsAdvice runs (option_map string_bytes file.now) text.now
        (E.contents errors.old) (E.contents errors.new) }
{
    let mut left = text;
    match read_from(alloc, &mut left) {
        Ok(scenario) => tell_text(errors, advice_of(NOTHING, runs, &scenario)),
        Err(EngineFault::Scenario(_)) => name_check(file, errors),
        Err(_) => {}
    }
}

// The same of a text whose faults a check tells, and that nothing runs.
pub(crate) fn advise_of_nothing<E: Write>(alloc: Global, runs: Runs, text: &[u8], errors: &mut E)
    ensures { TellsOfNothing runs text.now (E.contents errors.old) (E.contents errors.new) }
{
    let mut left = text;
    if let Ok(scenario) = read_from(alloc, &mut left) {
        tell_text(errors, advice_of("", runs, &scenario));
    }
}

// Which commands run a scenario that has only what a command doesn't run, or this of one that has neither events nor scripts.
fn advice_of(nothing: &'static str, runs: Runs, scenario: &Scenario) -> &'static str
    ensures { result.now ≡ advice_of nothing.now runs scenario.now }
{
    let has_events = !scenario.events.as_slice().is_empty();
    match (runs, has_events, has_script(scenario)) {
        (Runs::Events, true, _) | (Runs::Scripts, _, true) => "",
        (Runs::Events, false, true) => ONLY_SCRIPTS,
        (Runs::Scripts, true, false) => ONLY_EVENTS,
        (_, false, false) => nothing,
    }
}

// Whether a source or the operator has something to do.
fn has_script(scenario: &Scenario) -> bool
    ensures { result ≡ has_script scenario.now }
{
    has_command(scenario.scripts.as_slice()) || !scenario.operator.as_slice().is_empty()
}

// Whether one of these scripts has a command.
fn has_command(scripts: &[Script]) -> bool
    ensures { result ≡ has_command scripts.now }
{
    for script in scripts {
        if !script.as_slice().is_empty() {
            return true;
        }
    }
    false
}

// Tells who says what is wrong in a text.
fn name_check<E: Write>(file: &Option<String>, errors: &mut E)
    ensures { TellsEach (check_pieces (option_map string_bytes file.now))
        (E.contents errors.old) (E.contents errors.new) }
{
    match file {
        Some(name) => name_check_of(name.as_str(), errors),
        None => tell_text(errors, "abt check says why\n"),
    }
}

fn name_check_of<E: Write>(name: &str, errors: &mut E)
    ensures { TellsEach (check_pieces (Some name.now)) (E.contents errors.old) (E.contents errors.new) }
{
    tell_text(errors, "abt check ");
    tell_shown(errors, name);
    tell_text(errors, " says why\n");
}
