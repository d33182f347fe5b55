//! What a switch answers.
ghost use Rattle.std.specs.Prelude.{◌≡◌, OnOk, string_bytes};
ghost use Rattle.abt_text.specs.Text.{◌⋅◌};
ghost use Rattle.abt_journal.specs.declared.next_message.Next.TheVariants.{Send};
ghost use Rattle.abt_live.specs.SwitchRecords.{answer_record, answer_text, next_record};

use crate::fault::LiveFault;
use crate::marks::{SOURCE_MARK, mark_of, push_cell};
use crate::said::push_next_text;
use abt_cell::Rm;
use abt_journal::Next;
use std::alloc::{AllocError, Global};

/// What a switch answers to a line or a cell.
#[derive(Clone, Copy, Debug, PartialEq, Eq)]
pub enum SwitchAnswer {
    /// It isn't served.
    Faulty(LiveFault),
    /// This becomes of a message. Of a capacity that is set nothing becomes.
    Goes(Next),
    /// A data cell conforms.
    Conforming,
    /// A data cell doesn't conform, or a capacity isn't set.
    Rejected,
}

impl SwitchAnswer {
    // Adds it to a text, as a line.
    pub(crate) fn push_to(&self, alloc: Global, text: &mut String) -> Result<(), AllocError>
        ensures { OnOk result (string_bytes text.new ≡ string_bytes text.old ⋅ answer_text self.now) }
    {
        match self {
            SwitchAnswer::Faulty(fault) => fault.push_to(text),
            SwitchAnswer::Goes(next) => push_next_text(alloc, text, next),
            SwitchAnswer::Conforming => text.push_str("conforming\n"),
            SwitchAnswer::Rejected => text.push_str("rejected\n"),
        }
    }

    // Adds it to some octets, as a line.
    fn add_line(&self, alloc: Global, octets: &mut Vec<u8>) -> Result<(), AllocError>
        ensures { OnOk result (octets.new.items ≡ octets.old.items ⋅ answer_text self.now) }
    {
        let mut text = String::new(alloc);
        self.push_to(alloc, &mut text)?;
        octets.extend_from_slice(text.as_bytes())
    }

    // Adds it to some octets, as a record: a message that is sent as a cell.
    pub(crate) fn add_to(&self, alloc: Global, octets: &mut Vec<u8>) -> Result<(), AllocError>
        ensures { OnOk result (octets.new.items ≡ octets.old.items ⋅ answer_record self.now) }
    {
        match self {
            SwitchAnswer::Goes(Next::Send { port, rm }) => add_sent(alloc, octets, *port, rm),
            SwitchAnswer::Goes(Next::Tell { conn: _, answer }) => {
                push_cell(octets, SOURCE_MARK, &Rm::Answer(*answer))
            }
            SwitchAnswer::Goes(Next::Nothing)
            | SwitchAnswer::Faulty(_)
            | SwitchAnswer::Conforming
            | SwitchAnswer::Rejected => self.add_line(alloc, octets),
        }
    }
}

// Adds a message that goes to a port, as a cell if the port has an octet.
fn add_sent(alloc: Global, octets: &mut Vec<u8>, port: u16, rm: &Rm) -> Result<(), AllocError>
    ensures { OnOk result (octets.new.items ≡ octets.old.items ⋅ next_record (Send port rm.now)) }
{
    match mark_of(port) {
        Some(mark) => push_cell(octets, mark, rm),
        None => SwitchAnswer::Goes(Next::Send { port, rm: *rm }).add_line(alloc, octets),
    }
}
