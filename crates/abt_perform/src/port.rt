//! The text of `abt port`.
ghost use Rattle.std.specs.Prelude.{◌≡◌, ◌≤◌, ◌++◌, IfOk, OnOk, string_bytes};
ghost use Rattle.abt_rate.specs.Limits.{capacity_max};
ghost use Rattle.abt_perform.specs.Plans.{texts_of};
ghost use Rattle.abt_perform.specs.PortText.{port_text, line_of, table_past, served_text, table_served, table_knowing, decision_text, table_decided, onward_text, back_text, drop_text, fault_text};
ghost use Rattle.abt_cell.specs.Codec.{request_of};
ghost use Rattle.abt_perform.specs.CellText.{message_hex, message_of};

use crate::cell::{message_hex, message_of};
use crate::fault::Fault;
use abt_cell::Rm;
use abt_node::{AddFault, Back, DropCause, Onward, Port};
use itoa::Buffer;
use std::alloc::{AllocError, Global};

/// The lines of some cells, which a new port serves in turn, and the line of the total that it then holds.
///
/// A connection is added when its first readable cell comes.
pub fn port_text(alloc: Global, capacity: u64, cells: &[String]) -> Result<String, AllocError>
    requires { capacity ≤ capacity_max }
    ensures { IfOk result (λ text. string_bytes text ≡ port_text capacity (texts_of cells.now)) }
{
    let mut port = Port::new(alloc, 0, capacity)?;
    let mut text = String::new(alloc);
    for (index, cell) in cells.iter().enumerate() {
        push_line(alloc, &mut text, &mut port, index as u64 + 1, cell.as_str())?;
    }
    let total = port.total();
    let last = format!(in alloc; "total {total}\n")?;
    text.push_str(last.as_str())?;
    Ok(text)
}

// Adds the line of one cell to the text at once, as there may be many lines.
fn push_line(
    alloc: Global,
    text: &mut String,
    port: &mut Port,
    number: u64,
    hex: &str,
) -> Result<(), AllocError>
    ensures line { OnOk result
        (string_bytes text.new ≡ string_bytes text.old ++ line_of port.old number hex.now) }
    ensures table { OnOk result (port.new ≡ table_past port.old (message_of hex.now)) }
{
    let mut digits = Buffer::new();
    text.push_str(digits.format(number))?;
    text.push_str(" ")?;
    match message_of(alloc, hex.as_bytes()) {
        Ok(rm) => push_served(alloc, text, port, &rm)?,
        Err(Fault::Memory) => return Err(AllocError),
        Err(fault) => push_fault(text, fault)?,
    }
    text.push_str("\n")
}

/// Adds what a port does with a message, whose connection it adds if it is new.
///
/// # Errors
/// Memory was refused for the connection, or for the text. The port may have served the message by then.
pub fn push_served(
    alloc: Global,
    text: &mut String,
    port: &mut Port,
    rm: &Rm,
) -> Result<(), AllocError>
    ensures text { OnOk result (string_bytes text.new
        ≡ string_bytes text.old ++ served_text (table_knowing port.old (request_of rm.now).vc) rm.now) }
    ensures table { OnOk result (port.new
        ≡ table_served port.old (table_knowing port.old (request_of rm.now).vc) rm.now) }
{
    match port.add(rm.request().vc(), None) {
        Ok(()) | Err(AddFault::Known) => push_decision(alloc, text, port, rm),
        Err(AddFault::Full) => push_fault(text, Fault::Full),
        Err(AddFault::Memory) => Err(AllocError),
    }
}

// Adds what the port does with a message of a connection that it knows.
fn push_decision(
    alloc: Global,
    text: &mut String,
    port: &mut Port,
    rm: &Rm,
) -> Result<(), AllocError>
    ensures text { OnOk result
        (string_bytes text.new ≡ string_bytes text.old ++ decision_text port.old rm.now) }
    ensures table { port.new ≡ table_decided port.old rm.now }
{
    match rm {
        Rm::Request(request) => push_onward(alloc, text, rm, port.request(request)),
        Rm::Answer(answer) => push_back(alloc, text, rm, port.answer(answer)),
    }
}

fn push_onward(alloc: Global, text: &mut String, rm: &Rm, reply: Onward) -> Result<(), AllocError>
    ensures { OnOk result (string_bytes text.new ≡ string_bytes text.old ++ onward_text rm.now reply) }
{
    match reply {
        Onward::Pass => push_message(alloc, text, "pass ", rm),
        Onward::Refuse(answer) => push_message(alloc, text, "refuse ", &Rm::Answer(answer)),
        Onward::Drop(cause) => push_drop(text, cause),
    }
}

fn push_back(alloc: Global, text: &mut String, rm: &Rm, reply: Back) -> Result<(), AllocError>
    ensures { OnOk result (string_bytes text.new ≡ string_bytes text.old ++ back_text rm.now reply) }
{
    match reply {
        Back::Pass => push_message(alloc, text, "pass ", rm),
        Back::Drop(cause) => push_drop(text, cause),
    }
}

// Adds a word, and then the cell that is written for a message.
fn push_message(alloc: Global, text: &mut String, word: &str, rm: &Rm) -> Result<(), AllocError>
    ensures { OnOk result
        (string_bytes text.new ≡ string_bytes text.old ++ (word.now ++ message_hex rm.now)) }
{
    let hex = message_hex(alloc, rm)?;
    text.push_str(word)?;
    text.push_str(hex.as_str())
}

fn push_drop(text: &mut String, cause: DropCause) -> Result<(), AllocError>
    ensures { OnOk result (string_bytes text.new ≡ string_bytes text.old ++ drop_text cause) }
{
    text.push_str("drop ")?;
    text.push_str(cause.name())
}

fn push_fault(text: &mut String, fault: Fault) -> Result<(), AllocError>
    ensures { OnOk result (string_bytes text.new ≡ string_bytes text.old ++ fault_text fault) }
{
    write!(text, "fault {fault}")
}
