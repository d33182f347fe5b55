//! Tests of what a scenario expects of its events, as the Test Anything Protocol has them.
ghost use Rattle.std.specs.Prelude.{◌≡◌, ◌++◌, IfOk, Ok, OnOk, length, map, string_bytes, true};
ghost use Rattle.abt_format.specs.OutcomeText.{outcome_text};
ghost use Rattle.abt_model.specs.Run.{outcomes_of};
ghost use Rattle.abt_scenario.specs.Scenarios.{Reads};
ghost use Rattle.abt_check.specs.Tests as spec;
ghost use Rattle.abt_check.specs.Tests.{AreDoubts, IsDiagnosis};

use crate::checking::check;
use crate::expectations::{EXPECT, ExpectFault, document_of, expect_in, expectations_of};
use crate::finding::at_item;
use crate::located::{located, push_fault_lines, push_warnings};
use crate::telling::has_some;
use abt_files::shown_letter;
use abt_format::push_outcome;
use abt_model::Outcome;
use abt_places::layout_of;
use abt_scenario::{Scenario, read, trace_of};
use std::alloc::{AllocError, Global};

/// What is found in a scenario: the lines of what isn't as it is to be; or that nothing is expected, and the lines of what is doubtful.
#[derive(Drop)]
pub(crate) struct Diagnosis {
    pub(crate) text: String,
    pub(crate) is_skipped: bool,
}

/// The text of the test of a number among so many: whether the file of a name is as it expects.
pub(crate) fn test_text(
    alloc: Global,
    count: u64,
    number: u64,
    name: &str,
    diagnosis: &Diagnosis,
) -> Result<String, AllocError>
    ensures { IfOk result (λ text. string_bytes text ≡ spec.test_text count number name.now
        diagnosis.now.is_skipped (string_bytes diagnosis.now.text)) }
{
    let plan = plan(alloc, count, number)?;
    let title = title_of(alloc, name)?;
    let said = diagnosis.text.as_str();
    let verdict = verdict(diagnosis.is_skipped, said);
    let directive = directive(diagnosis.is_skipped);
    format!(in alloc; "{plan}{verdict}{number} - {title}{directive}\n{said}")
}

// The plan of all tests, which stands before the first one.
fn plan(alloc: Global, count: u64, number: u64) -> Result<String, AllocError>
    ensures { IfOk result (λ text. string_bytes text ≡ spec.plan count number) }
{
    if number == 1 {
        format!(in alloc; "TAP version 13\n1..{count}\n")
    } else {
        Ok(String::new(alloc))
    }
}

fn verdict(is_skipped: bool, diagnosis: &str) -> &'static str
    ensures { result.now ≡ spec.verdict is_skipped diagnosis.now }
{
    if is_skipped || diagnosis.is_empty() {
        "ok "
    } else {
        "not ok "
    }
}

fn directive(is_skipped: bool) -> &'static str
    ensures { result.now ≡ spec.directive is_skipped }
{
    if is_skipped {
        " # SKIP it has no `expect`"
    } else {
        ""
    }
}

/// What stands at the front of each line of a file's diagnosis.
pub(crate) fn mark_of(alloc: Global, name: &str) -> Result<String, AllocError>
    ensures { IfOk result (λ mark. string_bytes mark ≡ spec.mark_of name.now) }
{
    let title = title_of(alloc, name)?;
    format!(in alloc; "# {title}")
}

// The name of a test: that of its file as it is shown.
fn title_of(alloc: Global, name: &str) -> Result<String, AllocError>
    ensures { IfOk result (λ title. string_bytes title ≡ spec.title_of name.now) }
{
    name.chars()
        .map(|letter| title_letter(letter))
        .collect(alloc)
}

fn title_letter(letter: char) -> char
    ensures { result ≡ spec.title_letter letter }
{
    if letter == '#' {
        '?'
    } else {
        shown_letter(letter)
    }
}

/// What is found in the text of the file of a name.
pub(crate) fn diagnosis_of(alloc: Global, name: &str, source: &str) -> Result<Diagnosis, AllocError>
    ensures { IfOk result (λ found. IsDiagnosis (spec.mark_of name.now) source.now
        found.is_skipped (string_bytes found.text)) }
{
    let mark = mark_of(alloc, name)?;
    let text = match read(alloc, source) {
        Ok(scenario) => return tested(alloc, mark.as_str(), source, scenario),
        Err(_) => faults_of(alloc, mark.as_str(), source)?,
    };
    Ok(Diagnosis {
        text,
        is_skipped: false,
    })
}

// The faults of a text that is no scenario. Of another one it is said that there is no memory.
fn faults_of(alloc: Global, mark: &str, source: &str) -> Result<String, AllocError>
    ensures { IfOk result (λ text. spec.IsNoScenario mark.now source.now (string_bytes text)) }
{
    let checked = check(alloc, source)?;
    let faults = checked.faults.as_slice();
    if !has_some(faults) {
        return Err(AllocError);
    }
    let mut text = String::new(alloc);
    push_fault_lines(alloc, &mut text, mark, source, faults)?;
    Ok(text)
}

// What is found in a scenario.
fn tested(
    alloc: Global,
    mark: &str,
    source: &str,
    scenario: Scenario,
) -> Result<Diagnosis, AllocError>
    requires { Reads source.now (Ok scenario) }
    ensures { IfOk result (λ found. IsDiagnosis mark.now source.now found.is_skipped
        (string_bytes found.text)) }
{
    let document = document_of(alloc, source)?;
    let Some(value) = expect_in(&document) else {
        return skipped(alloc, mark, source);
    };
    let text = match expectations_of(alloc, scenario.events.len(), value) {
        Ok(texts) => differences_of(alloc, scenario, texts.as_slice())?,
        Err(ExpectFault::Memory) => return Err(AllocError),
        Err(fault) => misfit_of(alloc, mark, source, fault)?,
    };
    Ok(Diagnosis {
        text,
        is_skipped: false,
    })
}

// What is doubtful in a scenario that expects nothing: its key `expect` may be misspelt, or stand where nothing reads it.
fn skipped(alloc: Global, mark: &str, source: &str) -> Result<Diagnosis, AllocError>
    ensures { IfOk result (λ found. (found.is_skipped ≡ true)
        × AreDoubts mark.now source.now (string_bytes found.text)) }
{
    let checked = check(alloc, source)?;
    let mut text = String::new(alloc);
    push_warnings(alloc, &mut text, mark, source, checked.warnings.as_slice())?;
    Ok(Diagnosis {
        text,
        is_skipped: true,
    })
}

// The line of a fault of what is expected, at its place.
fn misfit_of(
    alloc: Global,
    mark: &str,
    source: &str,
    fault: ExpectFault,
) -> Result<String, AllocError>
    ensures { IfOk result (λ text. spec.IsFaultLine mark.now source.now fault (string_bytes text)) }
{
    let layout = layout_of(alloc, source, "connection")?;
    let at = at_item(layout.entry(EXPECT), item_of(fault));
    let place = located(alloc, mark, source, at)?;
    let words = fault_words(alloc, fault)?;
    format!(in alloc; "{place}fault: {words}\n")
}

// The item of the array at which a fault stands: none so great if it is the array's own.
fn item_of(fault: ExpectFault) -> usize {
    match fault {
        ExpectFault::NoText { number } | ExpectFault::NoOutcome { number } => {
            number.saturating_sub(1) as usize
        }
        _ => usize::MAX,
    }
}

fn fault_words(alloc: Global, fault: ExpectFault) -> Result<String, AllocError>
    ensures { IfOk result (λ text. string_bytes text ≡ spec.fault_words fault) }
{
    match fault {
        ExpectFault::NoArray => {
            String::from_str(alloc, "WrongType expect: an array of texts is wanted")
        }
        ExpectFault::NoText { number } => {
            format!(in alloc; "ExpectText {number}: a text is wanted")
        }
        ExpectFault::NoOutcome { number } => {
            format!(in alloc; "ExpectText {number}: no outcome is written so")
        }
        ExpectFault::Count { events, texts } => {
            format!(in alloc; "ExpectCount: {texts} texts stand there for {events} events")
        }
        ExpectFault::Memory => String::from_str(alloc, "memory"),
    }
}

// The lines of the events of a scenario whose outcomes aren't the expected ones.
fn differences_of(alloc: Global, scenario: Scenario, texts: &[String]) -> Result<String, AllocError>
    requires { length texts.now ≡ length scenario.events }
    ensures { IfOk result (λ text. string_bytes text ≡ spec.difference_lines 1
        (outcomes_of scenario.net scenario.events) (map string_bytes texts.now)) }
{
    let trace = trace_of(alloc, scenario)?;
    let mut text = String::new(alloc);
    push_differences(alloc, &mut text, trace.outcomes.as_slice(), texts)?;
    Ok(text)
}

fn push_differences(
    alloc: Global,
    text: &mut String,
    outcomes: &[Outcome],
    texts: &[String],
) -> Result<(), AllocError>
    requires { length texts.now ≡ length outcomes.now }
    ensures { OnOk result (string_bytes text.new ≡ string_bytes text.old ++
        spec.difference_lines 1 outcomes.now (map string_bytes texts.now)) }
{
    for (index, outcome) in outcomes.iter().enumerate() {
        let expected = texts[index].as_str();
        push_difference(alloc, text, index as u64 + 1, outcome, expected)?;
    }
    Ok(())
}

fn push_difference(
    alloc: Global,
    text: &mut String,
    number: u64,
    outcome: &Outcome,
    expected: &str,
) -> Result<(), AllocError>
    ensures { OnOk result (string_bytes text.new ≡ string_bytes text.old ++
        spec.difference_line number expected.now (outcome_text outcome.now)) }
{
    let mut answered = String::new(alloc);
    push_outcome(&mut answered, outcome)?;
    push_other(text, number, expected, answered.as_str())
}

// Adds the line of an event whose outcome isn't as expected.
fn push_other(
    text: &mut String,
    number: u64,
    expected: &str,
    answered: &str,
) -> Result<(), AllocError>
    ensures { OnOk result (string_bytes text.new ≡ string_bytes text.old ++
        spec.difference_line number expected.now answered.now) }
{
    if is_expected(expected, answered) {
        Ok(())
    } else {
        write!(
            text,
            "# event {number}: expected {expected}, got {answered}\n"
        )
    }
}

// Whether an outcome is as expected; an empty text expects any.
fn is_expected(expected: &str, answered: &str) -> bool
    ensures { result ≡ spec.is_expected expected.now answered.now }
{
    expected.is_empty() || expected == answered
}
