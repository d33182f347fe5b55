//! Events that happen to a net at work, and their answers.
ghost use Rattle.std.specs.Prelude.{◌≡◌, ◌+◌, ◌∷◌, ◌++◌, [], List, OnOk, length, string_bytes};
ghost use Rattle.abt_text.specs.Text.{◌⋅◌};
ghost use Rattle.abt_net.specs.Topology.{Topology};
ghost use Rattle.abt_model.specs.declared.event.Event.{Event as EventSpec};
ghost use Rattle.abt_step.specs.Stepped.{lines_to, object_to};
ghost use Rattle.abt_step.specs.Steps.{WorksAt};
ghost use Rattle.abt_step.specs.declared.asked.Asked.TheVariants.{Happen as Happens, Reset as Begins};

use crate::lines::{push_outcome_line, push_shown_lines};
use crate::net_at_work::NetAtWork;
use crate::objects::{push_event_object, push_reset_object};
use abt_model::Event;
use abt_node::Onward;
use abt_plans::AnswerForm;
use std::alloc::{AllocError, Global};

// Lets the event of a number happen, and adds its answer in words.
pub(crate) fn happen_in_words(
    alloc: Global,
    work: &mut NetAtWork<'_>,
    form: AnswerForm,
    number: u64,
    event: &Event,
    text: &mut String,
) -> Result<(), AllocError>
    ensures says { (net : Topology) (opening events : List EventSpec) → WorksAt net events work.old →
        number ≡ length events + 1 → OnOk result (string_bytes text.new
        ≡ string_bytes text.old ⋅ lines_to form net opening events (Happens event.now)) }
    ensures stands { (net : Topology) (events : List EventSpec) → WorksAt net events work.old →
        OnOk result (WorksAt net (events ++ event.now ∷ []) work.new) }
{
    // Names a type within an outcome, without which the checker can't follow one.
    let _ = Onward::Pass;
    let outcome = work.step(event)?;
    push_outcome_line(text, number, &outcome)?;
    if form.state || form.possible {
        return push_shown_lines(alloc, work, form, text);
    }
    Ok(())
}

// The same with its answer as an object.
pub(crate) fn happen_as_object(
    alloc: Global,
    work: &mut NetAtWork<'_>,
    form: AnswerForm,
    number: u64,
    event: &Event,
    text: &mut String,
) -> Result<(), AllocError>
    ensures says { (net : Topology) (opening events : List EventSpec) → WorksAt net events work.old →
        number ≡ length events + 1 → OnOk result (string_bytes text.new
        ≡ string_bytes text.old ⋅ object_to form net opening events (Happens event.now)) }
    ensures stands { (net : Topology) (events : List EventSpec) → WorksAt net events work.old →
        OnOk result (WorksAt net (events ++ event.now ∷ []) work.new) }
{
    // Names a type within an outcome, without which the checker can't follow one.
    let _ = Onward::Pass;
    let grounds = work.grounds(event);
    let reply = work.step(event)?;
    let shown = work.shown(alloc, form)?;
    push_event_object(alloc, text, number, event, &grounds, &reply, &shown)
}

// Adds the line of a new beginning, and what is shown behind it.
pub(crate) fn begin_in_words(
    alloc: Global,
    work: &NetAtWork<'_>,
    form: AnswerForm,
    text: &mut String,
) -> Result<(), AllocError>
    ensures { (net : Topology) (opening events : List EventSpec) → WorksAt net opening work.now →
        OnOk result (string_bytes text.new
        ≡ string_bytes text.old ⋅ lines_to form net opening events Begins) }
{
    text.push_str("reset\n")?;
    push_shown_lines(alloc, work, form, text)
}

// The same as an object.
pub(crate) fn begin_as_object(
    alloc: Global,
    work: &NetAtWork<'_>,
    form: AnswerForm,
    text: &mut String,
) -> Result<(), AllocError>
    ensures { (net : Topology) (opening events : List EventSpec) → WorksAt net opening work.now →
        OnOk result (string_bytes text.new
        ≡ string_bytes text.old ⋅ object_to form net opening events Begins) }
{
    let shown = work.shown(alloc, form)?;
    push_reset_object(alloc, text, &shown)
}
