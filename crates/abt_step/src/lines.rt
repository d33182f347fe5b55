//! Answers in words.
ghost use Rattle.std.specs.Prelude.{◌≡◌, List, OnOk, string_bytes};
ghost use Rattle.abt_text.specs.Text.{◌⋅◌};
ghost use Rattle.abt_format.specs.Report.{outcome_line};
ghost use Rattle.abt_model.specs.declared.event.Event.{Event};
ghost use Rattle.abt_net.specs.Topology.{Topology};
ghost use Rattle.abt_step.specs.Stepped.{shown_after};
ghost use Rattle.abt_step.specs.Steps.{WorksAt};
ghost use Rattle.abt_step.specs.AnswerLines as spec;

use crate::asked::AskedFault;
use crate::net_at_work::NetAtWork;
use crate::net_state::NetState;
use crate::possible::Possible;
use crate::possible_words::push_possible_line;
use crate::state_words::{push_number, push_state_line};
use abt_format::push_outcome;
use abt_model::Outcome;
use abt_plans::AnswerForm;
use std::alloc::{AllocError, Global};

// Adds the line of the outcome of the event of a number.
pub(crate) fn push_outcome_line(
    text: &mut String,
    number: u64,
    outcome: &Outcome,
) -> Result<(), AllocError>
    ensures { OnOk result
        (string_bytes text.new ≡ string_bytes text.old ⋅ outcome_line number outcome.now) }
{
    push_number(text, number)?;
    text.push(' ')?;
    push_outcome(text, outcome)?;
    text.push('\n')
}

// Adds the lines that a form shows behind an answer.
pub(crate) fn push_shown_lines(
    alloc: Global,
    work: &NetAtWork<'_>,
    form: AnswerForm,
    text: &mut String,
) -> Result<(), AllocError>
    ensures { (net : Topology) (events : List Event) → WorksAt net events work.now → OnOk result
        (string_bytes text.new
        ≡ string_bytes text.old ⋅ spec.shown_lines (shown_after form net events)) }
{
    if !form.state && !form.possible {
        return Ok(());
    }
    let shown = work.shown(alloc, form)?;
    push_state_shown(text, &shown.state)?;
    push_possible_shown(text, &shown.possible)
}

fn push_state_shown(text: &mut String, state: &Option<NetState>) -> Result<(), AllocError>
    ensures { OnOk result
        (string_bytes text.new ≡ string_bytes text.old ⋅ spec.state_shown state.now) }
{
    match state {
        Some(state) => push_state_line(text, state),
        None => Ok(()),
    }
}

fn push_possible_shown(text: &mut String, possible: &Option<Possible>) -> Result<(), AllocError>
    ensures { OnOk result
        (string_bytes text.new ≡ string_bytes text.old ⋅ spec.possible_shown possible.now) }
{
    match possible {
        Some(possible) => push_possible_line(text, possible),
        None => Ok(()),
    }
}

// Adds the line that answers a line with a fault.
pub(crate) fn push_fault_line(text: &mut String, fault: AskedFault) -> Result<(), AllocError>
    ensures { OnOk result (string_bytes text.new ≡ string_bytes text.old ⋅ spec.fault_line fault) }
{
    text.push_str("fault ")?;
    text.push_str(fault.name())?;
    text.push_str("\n")
}
