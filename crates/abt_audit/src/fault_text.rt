//! What is told of journals that aren't woven.
ghost use Rattle.std.specs.Prelude.{◌≡◌, length, IfOk};
ghost use Rattle.abt_audit.specs.FaultTexts.{IsFaultText, IsMismatchText};
ghost use Rattle.abt_audit.specs.Parts.{IsSizedRun};

use crate::entry_object::{begin_entry, end_entry, push_why, said_at};
use crate::form::Form;
use crate::protocol::{add_protocol, protocol_answer};
use crate::reason_lines::why_text;
use crate::stuck::add_stuck;
use crate::unordered::waiting_text;
use crate::why::why_of;
use abt_journal_text::Run;
use abt_weave::{Stuck, WeaveFault};
use std::alloc::{AllocError, Global};

// An entry that mismatches, the protocol's answer, and why it is that.
pub(crate) fn mismatch_text(
    alloc: Global,
    form: Form,
    names: &[String],
    run: &Run,
    stuck: Stuck,
) -> Result<Vec<u8>, AllocError>
    requires { length run.now.journals ≡ length run.now.net.capacities }
    ensures { IfOk result (λ text. IsMismatchText form names.now run.now stuck.actor stuck.place text.items) }
{
    match form {
        Form::Words => mismatch_lines(alloc, names, run, stuck),
        Form::Json => mismatch_object(alloc, names, run, stuck),
    }
}

// Its line, and the lines of the answer and the reason.
fn mismatch_lines(
    alloc: Global,
    names: &[String],
    run: &Run,
    stuck: Stuck,
) -> Result<Vec<u8>, AllocError>
    requires { length run.now.journals ≡ length run.now.net.capacities }
    ensures { IfOk result
        (λ text. IsMismatchText Form.Words names.now run.now stuck.actor stuck.place text.items) }
{
    let mut text = Vec::new(alloc);
    let answer = protocol_answer(alloc, run, stuck)?;
    let why = why_of(alloc, run, stuck)?;
    let reason = why_text(alloc, names, &why)?;
    add_stuck(alloc, &mut text, names, run, stuck)?;
    add_protocol(&mut text, &answer)?;
    text.extend_from_slice(reason.as_slice())?;
    Ok(text)
}

// The object that has all of that.
fn mismatch_object(
    alloc: Global,
    names: &[String],
    run: &Run,
    stuck: Stuck,
) -> Result<Vec<u8>, AllocError>
    requires { length run.now.journals ≡ length run.now.net.capacities }
    ensures { IfOk result
        (λ text. IsMismatchText Form.Json names.now run.now stuck.actor stuck.place text.items) }
{
    let mut text = Vec::new(alloc);
    let answer = protocol_answer(alloc, run, stuck)?;
    let why = why_of(alloc, run, stuck)?;
    let Some(said) = said_at(alloc, run, stuck)? else {
        return Ok(text);
    };
    let mut object = begin_entry(alloc, &mut text, "mismatch", names, said.spot, stuck)?;
    push_why(&mut object, names, why.reason.as_str(), why.since)?;
    end_entry(object, &mut text, said.entry.as_slice(), &answer)?;
    Ok(text)
}

// The entries that a fault names, and what else is told of them.
pub(crate) fn lines_of_fault(
    alloc: Global,
    form: Form,
    names: &[String],
    run: &Run,
    fault: &WeaveFault,
) -> Result<Vec<u8>, AllocError>
    requires { IsSizedRun run.now }
    ensures { IfOk result (λ text. IsFaultText form names.now run.now fault.now text.items) }
{
    match fault {
        WeaveFault::Mismatch { actor, place } => {
            let stuck = Stuck {
                actor: *actor,
                place: *place,
            };
            mismatch_text(alloc, form, names, run, stuck)
        }
        WeaveFault::NoOrder(all) => waiting_text(alloc, form, names, run, all.as_slice()),
        WeaveFault::Memory => Ok(Vec::new(alloc)),
    }
}
