//! Lines of any reader, answered by the net of any scenario.
ghost use Rattle.std.specs.Prelude.{◌≡◌, ◌+◌, ◌⊎◌, IfErr, OnOk, OnErr};
ghost use Rattle.std.specs.Io.KnownBytes.{IsAtEnd, Keeps};
ghost use Rattle.abt_text.specs.Streams.{ConsumesAtMost, text_max};
ghost use Rattle.abt_lines.specs.Served.{IsServed, IsServedPart};
ghost use Rattle.abt_step.specs.Answered.{IsAnswered, IsAnsweredAs, IsRefused, IsRefusedAs, answers_of, fault_of_lines, words_alone};

use crate::stepped::SteppedLines;
use abt_lines::{LinesFault, serve_lines};
use abt_perform::{Fault, tell_fault};
use abt_plans::AnswerForm;
use abt_scenario::{Scenario, read_from};
use std::alloc::Global;
use std::io::{Read, Write};

/// Reads a scenario, lets its events happen to its net, answers all lines of a reader by that net in words, and returns the status: 0 if
/// all answers went out to `writer`, and 1 if a line on `errors` tells why not. A line that can't be written there changes no status.
///
/// What a read of the lines ends is answered, and the answers written, before the next read.
pub fn perform_step<N: Read, R: Read, W: Write, E: Write>(
    alloc: Global,
    net: &mut N,
    reader: &mut R,
    writer: &mut W,
    errors: &mut E,
) -> u8
    ensures status { (result ≡ 0) ⊎ (result ≡ 1) }
    ensures stops { ConsumesAtMost (N.remaining net.old) (N.remaining net.new) (text_max + 1) }
    ensures end { result ≡ 0 → IsAtEnd (R.remaining reader.new) }
    ensures ok { result ≡ 0 →
        IsAnswered (N.remaining net.old) (R.remaining reader.old) (W.contents writer.old)
        (W.contents writer.new) }
    ensures quiet { result ≡ 0 → Keeps (E.contents errors.old) (E.contents errors.new) }
    ensures err { result ≡ 1 →
        IsRefused (N.remaining net.old) (R.remaining reader.old) (R.remaining reader.new)
        (W.contents writer.old) (W.contents writer.new) (E.contents errors.old) (E.contents errors.new) }
{
    perform_step_as(alloc, in_words(), net, reader, writer, errors)
}

// The form of answers in words, and of nothing else.
fn in_words() -> AnswerForm
    ensures { result ≡ words_alone }
{
    AnswerForm {
        json: false,
        state: false,
        possible: false,
    }
}

/// As [`perform_step`], with answers of any form.
pub fn perform_step_as<N: Read, R: Read, W: Write, E: Write>(
    alloc: Global,
    form: AnswerForm,
    net: &mut N,
    reader: &mut R,
    writer: &mut W,
    errors: &mut E,
) -> u8
    ensures status { (result ≡ 0) ⊎ (result ≡ 1) }
    ensures stops { ConsumesAtMost (N.remaining net.old) (N.remaining net.new) (text_max + 1) }
    ensures end { result ≡ 0 → IsAtEnd (R.remaining reader.new) }
    ensures ok { result ≡ 0 →
        IsAnsweredAs form (N.remaining net.old) (R.remaining reader.old) (W.contents writer.old)
        (W.contents writer.new) }
    ensures quiet { result ≡ 0 → Keeps (E.contents errors.old) (E.contents errors.new) }
    ensures err { result ≡ 1 →
        IsRefusedAs form (N.remaining net.old) (R.remaining reader.old) (R.remaining reader.new)
        (W.contents writer.old) (W.contents writer.new) (E.contents errors.old) (E.contents errors.new) }
{
    let scenario = match read_from(alloc, net) {
        Ok(scenario) => scenario,
        Err(fault) => {
            tell_fault(Fault::from(fault), errors);
            return 1;
        }
    };
    match answer_lines(alloc, form, &scenario, reader, writer) {
        Ok(()) => 0,
        Err(fault) => {
            tell_fault(fault_of_lines(fault), errors);
            1
        }
    }
}

// Answers all lines of a reader by the net of a scenario, to which its events happened.
#[tactic(auto, using(crate::proofs::Unserved::unserved))]
fn answer_lines<R: Read, W: Write>(
    alloc: Global,
    form: AnswerForm,
    scenario: &Scenario,
    reader: &mut R,
    writer: &mut W,
) -> Result<(), LinesFault>
    ensures end { OnOk result (IsAtEnd (R.remaining reader.new)) }
    ensures ok { OnOk result (IsServed (answers_of form scenario.now) (R.remaining reader.old)
        (W.contents writer.old) (W.contents writer.new)) }
    ensures err { OnErr result (IsServedPart (answers_of form scenario.now) (R.remaining reader.old)
        (W.contents writer.old) (W.contents writer.new)) }
{
    let mut lines = SteppedLines::open(alloc, form, &scenario.net, scenario.events.as_slice())?;
    serve_lines(alloc, &mut lines, reader, writer)
}

// The program's fault for one of the lines.
fn fault_of_lines(fault: LinesFault) -> Fault
    ensures { result ≡ fault_of_lines fault }
{
    match fault {
        LinesFault::Read => Fault::Read,
        LinesFault::TooLong => Fault::TooLong,
        LinesFault::Write => Fault::Write,
        LinesFault::Memory => Fault::Memory,
    }
}
