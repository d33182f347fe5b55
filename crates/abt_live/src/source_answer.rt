//! What a source answers.
ghost use Rattle.std.specs.Prelude.{◌≡◌, OnOk, string_bytes};
ghost use Rattle.abt_text.specs.Text.{◌⋅◌};
ghost use Rattle.abt_live.specs.SourceRecords.{answer_record, answer_text, request_in, request_with};

use crate::fault::LiveFault;
use crate::marks::{mark_of, push_cell};
use crate::source_said::push_outcome;
use abt_cell::{Request, Rm};
use abt_model::Outcome;
use std::alloc::{AllocError, Global};

/// What a source answers to a line or a cell.
#[derive(Clone, Copy, Debug, PartialEq, Eq)]
pub enum SourceAnswer {
    /// It isn't served.
    Faulty(LiveFault),
    /// It was served, with this outcome, and this is the moment of the source's clock then.
    Did { clock: u64, outcome: Outcome },
}

impl SourceAnswer {
    // Adds it to a text, as a line.
    pub(crate) fn push_to(&self, alloc: Global, text: &mut String) -> Result<(), AllocError>
        ensures { OnOk result (string_bytes text.new ≡ string_bytes text.old ⋅ answer_text self.now) }
    {
        match self {
            SourceAnswer::Faulty(fault) => fault.push_to(text),
            SourceAnswer::Did { clock, outcome } => push_outcome(alloc, text, *clock, outcome),
        }
    }

    // Adds it to some octets, as a line.
    fn add_line(&self, alloc: Global, octets: &mut Vec<u8>) -> Result<(), AllocError>
        ensures { OnOk result (octets.new.items ≡ octets.old.items ⋅ answer_text self.now) }
    {
        let mut text = String::new(alloc);
        self.push_to(alloc, &mut text)?;
        octets.extend_from_slice(text.as_bytes())
    }

    // Adds it to some octets, as a record: a request as a cell, if the port that it goes to has an octet.
    pub(crate) fn add_to(
        &self,
        alloc: Global,
        first_port: u16,
        octets: &mut Vec<u8>,
    ) -> Result<(), AllocError>
        ensures { OnOk result
            (octets.new.items ≡ octets.old.items ⋅ answer_record first_port self.now) }
    {
        let Some(request) = self.request() else {
            return self.add_line(alloc, octets);
        };
        match mark_of(first_port) {
            Some(mark) => push_cell(octets, mark, &Rm::Request(request)),
            None => self.add_line(alloc, octets),
        }
    }

    // The request that goes out, if one does.
    fn request(&self) -> Option<Request>
        ensures { result ≡ request_in self.now }
    {
        match self {
            SourceAnswer::Did { clock: _, outcome } => request_with(outcome),
            SourceAnswer::Faulty(_) => None,
        }
    }
}

// The request of an outcome, if one goes out.
fn request_with(outcome: &Outcome) -> Option<Request>
    ensures { result ≡ request_with outcome.now }
{
    match outcome {
        Outcome::Asked(request) | Outcome::Repeated(request) => Some(*request),
        _ => None,
    }
}
