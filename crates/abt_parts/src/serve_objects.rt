//! A port that is handed cells line by line, and answers by objects.
ghost use Rattle.std.specs.Prelude.{◌≡◌, OnOk, string_bytes};
ghost use Rattle.std.specs.Option.{option_map};
ghost use Rattle.abt_cell.specs.Codec.{request_of};
ghost use Rattle.abt_perform.specs.PortText.{table_decided, table_knowing, table_served};
ghost use Rattle.abt_text.specs.Text.{◌⋅◌};
ghost use Rattle.abt_entry.specs.ObjectMembers.{text_member};
ghost use Rattle.abt_parts.specs.Cells.{message_on, served_past};
ghost use Rattle.abt_parts.specs.LineObjects.{line_object};
ghost use Rattle.abt_parts.specs.PartObjects.{back_object, decision_object, drop_object, known_object, onward_object, sent_object, served_object, total_object};

use crate::cells::message_on;
use crate::line_object::begin_line;
use crate::read_objects::push_cell_fault;
use abt_cell::Rm;
use abt_entry::{push_number, push_text};
use abt_json::{begin_kind, end_line};
use abt_lines::LineServer;
use abt_node::{AddFault, Back, DropCause, Onward, Port};
use abt_perform::{Fault, message_hex};
use std::alloc::{AllocError, Global};

/// A port as [`ServedLines`](crate::ServedLines) is, which answers by objects (docs/FORMATS.md, "Parts by hand").
#[derive(Debug, Drop)]
pub struct ServedObjects {
    /// The port as it is behind the lines so far.
    pub port: Port,
}

impl LineServer for ServedObjects {
    ghost use Rattle.abt_parts.specs.PartObjects.{EndsByTotal, ServesObject};

    ghost steps = { ServesObject };

    ghost ends = { EndsByTotal };

    fn answer(
        &mut self,
        alloc: Global,
        number: u64,
        line: Option<&[u8]>,
        text: &mut String,
    ) -> Result<(), AllocError> {
        push_line(alloc, text, number, &mut self.port, line)
    }

    fn end(&self, alloc: Global, _number: u64, text: &mut String) -> Result<(), AllocError> {
        push_total(alloc, text, &self.port)
    }
}

// Adds the total that a port holds.
pub(crate) fn push_total(alloc: Global, text: &mut String, port: &Port) -> Result<(), AllocError>
    ensures { OnOk result (string_bytes text.new ≡ string_bytes text.old ⋅ total_object port.now) }
{
    let total = port.total();
    let mut object = begin_kind(alloc, "total")?;
    push_number(&mut object, "total", total)?;
    end_line(object, text)
}

// Adds the answer to a line: what the port does with the cell that it spells, or the cell's fault.
pub(crate) fn push_line(
    alloc: Global,
    text: &mut String,
    number: u64,
    port: &mut Port,
    line: Option<&[u8]>,
) -> Result<(), AllocError>
    ensures answer { OnOk result (string_bytes text.new ≡ string_bytes text.old
        ⋅ served_object number port.old (option_map (λ line. line.now) line.entry)) }
    ensures table { OnOk result (port.new ≡ served_past port.old (option_map (λ line. line.now) line.entry)) }
{
    match message_on(alloc, line) {
        Ok(rm) => push_served(alloc, text, number, port, &rm),
        Err(Fault::Memory) => Err(AllocError),
        Err(fault) => push_cell_fault(alloc, text, number, fault),
    }
}

// Adds what a port does with a message, whose connection it adds if it is new.
fn push_served(
    alloc: Global,
    text: &mut String,
    number: u64,
    port: &mut Port,
    rm: &Rm,
) -> Result<(), AllocError>
    ensures text { OnOk result (string_bytes text.new ≡ string_bytes text.old
        ⋅ known_object number (table_knowing port.old (request_of rm.now).vc) rm.now) }
    ensures table { OnOk result (port.new
        ≡ table_served port.old (table_knowing port.old (request_of rm.now).vc) rm.now) }
{
    match port.add(rm.request().vc(), None) {
        Ok(()) | Err(AddFault::Known) => push_decision(alloc, text, number, port, rm),
        Err(AddFault::Full) => push_cell_fault(alloc, text, number, Fault::Full),
        Err(AddFault::Memory) => Err(AllocError),
    }
}

// Adds what the port does with a message of a connection that it knows.
fn push_decision(
    alloc: Global,
    text: &mut String,
    number: u64,
    port: &mut Port,
    rm: &Rm,
) -> Result<(), AllocError>
    ensures text { OnOk result (string_bytes text.new ≡ string_bytes text.old
        ⋅ decision_object number port.old rm.now) }
    ensures table { port.new ≡ table_decided port.old rm.now }
{
    match rm {
        Rm::Request(request) => push_onward(alloc, text, number, rm, port.request(request)),
        Rm::Answer(answer) => push_back(alloc, text, number, rm, port.answer(answer)),
    }
}

fn push_onward(
    alloc: Global,
    text: &mut String,
    number: u64,
    rm: &Rm,
    reply: Onward,
) -> Result<(), AllocError>
    ensures { OnOk result
        (string_bytes text.new ≡ string_bytes text.old ⋅ onward_object number rm.now reply) }
{
    match reply {
        Onward::Pass => push_sent(alloc, text, number, "pass", rm),
        Onward::Refuse(answer) => push_sent(alloc, text, number, "refuse", &Rm::Answer(answer)),
        Onward::Drop(cause) => push_drop(alloc, text, number, cause),
    }
}

fn push_back(
    alloc: Global,
    text: &mut String,
    number: u64,
    rm: &Rm,
    reply: Back,
) -> Result<(), AllocError>
    ensures { OnOk result
        (string_bytes text.new ≡ string_bytes text.old ⋅ back_object number rm.now reply) }
{
    match reply {
        Back::Pass => push_sent(alloc, text, number, "pass", rm),
        Back::Drop(cause) => push_drop(alloc, text, number, cause),
    }
}

// Adds the object of a kind that answers a line, with one text.
fn push_with_text(
    alloc: Global,
    text: &mut String,
    number: u64,
    kind: &str,
    name: &str,
    value: &str,
) -> Result<(), AllocError>
    ensures { OnOk result (string_bytes text.new ≡
        string_bytes text.old ⋅ line_object kind.now number (text_member name.now value.now)) }
{
    let mut object = begin_line(alloc, kind, number)?;
    push_text(&mut object, name, value)?;
    end_line(object, text)
}

// Adds the object of a kind with the cell that is written for a message.
fn push_sent(
    alloc: Global,
    text: &mut String,
    number: u64,
    kind: &str,
    rm: &Rm,
) -> Result<(), AllocError>
    ensures { OnOk result
        (string_bytes text.new ≡ string_bytes text.old ⋅ sent_object number kind.now rm.now) }
{
    let hex = message_hex(alloc, rm)?;
    push_with_text(alloc, text, number, kind, "cell", hex.as_str())
}

fn push_drop(
    alloc: Global,
    text: &mut String,
    number: u64,
    cause: DropCause,
) -> Result<(), AllocError>
    ensures { OnOk result
        (string_bytes text.new ≡ string_bytes text.old ⋅ drop_object number cause) }
{
    push_with_text(alloc, text, number, "drop", "cause", cause.name())
}
