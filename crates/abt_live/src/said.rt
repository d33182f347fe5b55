//! What a switch says once a port replied.
ghost use Rattle.std.specs.Prelude.{◌≡◌, OnOk, codes, string_bytes};
ghost use Rattle.abt_text.specs.Text.{Text, ◌⋅◌, decimal, newline};
ghost use Rattle.abt_perform.specs.CellText.{message_hex};
ghost use Rattle.abt_live.specs.Said.{IsNext, IsSaid, next_text, judged_text, capped_text};
ghost use Rattle.abt_live.specs.SwitchRecords.{answer_text};

use crate::switch_answer::SwitchAnswer;
use abt_cell::Rm;
use abt_gcra::Verdict;
use abt_journal::{Next, PortInput, PortReply, follow};
use abt_net::Net;
use abt_perform::message_hex;
use itoa::Buffer;
use std::alloc::{AllocError, Global};

// What is answered once a port replied to an input.
pub(crate) fn answer_of(net: &Net, port: u16, input: &PortInput, reply: &PortReply) -> SwitchAnswer
    ensures { IsSaid net.now port input.now reply.now (answer_text result) }
{
    match input {
        PortInput::Request(request) => next_of(net, port, &Rm::Request(*request), reply),
        PortInput::Answer(answer) => next_of(net, port, &Rm::Answer(*answer), reply),
        PortInput::Arrive { vc: _, at: _ } => judged(reply),
        PortInput::Capacity(_) => capped(reply),
    }
}

// What becomes of a message once a port replied to it.
fn next_of(net: &Net, port: u16, rm: &Rm, reply: &PortReply) -> SwitchAnswer
    ensures { IsNext net.now port rm.now reply.now (answer_text result) }
{
    SwitchAnswer::Goes(follow(net, port, rm, reply))
}

// Adds where a message goes.
pub(crate) fn push_next_text(
    alloc: Global,
    text: &mut String,
    next: &Next,
) -> Result<(), AllocError>
    ensures { OnOk result (string_bytes text.new ≡ string_bytes text.old ⋅ next_text next.now) }
{
    match next {
        Next::Send { port, rm } => push_message(alloc, text, "send ", *port, rm),
        Next::Tell { conn, answer } => {
            push_message(alloc, text, "tell ", *conn, &Rm::Answer(*answer))
        }
        Next::Nothing => text.push_str("nothing\n"),
    }
}

// Adds a word, a number, and the cell that is written for a message.
fn push_message(
    alloc: Global,
    text: &mut String,
    word: &str,
    number: u16,
    rm: &Rm,
) -> Result<(), AllocError>
    ensures { OnOk result (string_bytes text.new ≡ string_bytes text.old
        ⋅ word.now ⋅ decimal number ⋅ codes " " ⋅ message_hex rm.now ⋅ newline) }
{
    let hex = message_hex(alloc, rm)?;
    let mut digits = Buffer::new();
    text.push_str(word)?;
    text.push_str(digits.format(number))?;
    text.push_str(" ")?;
    text.push_str(hex.as_str())?;
    text.push_str("\n")
}

// The answer to a data cell.
fn judged(reply: &PortReply) -> SwitchAnswer
    ensures { answer_text result ≡ judged_text reply.now }
{
    match reply {
        PortReply::Arrived(Ok(Verdict::Conforming)) => SwitchAnswer::Conforming,
        _ => SwitchAnswer::Rejected,
    }
}

// The answer to a new capacity.
fn capped(reply: &PortReply) -> SwitchAnswer
    ensures { answer_text result ≡ capped_text reply.now }
{
    match reply {
        PortReply::Capped(Ok(())) => SwitchAnswer::Goes(Next::Nothing),
        _ => SwitchAnswer::Rejected,
    }
}
