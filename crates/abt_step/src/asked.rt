//! What the lines of a dialogue ask for.
ghost use Rattle.std.specs.Prelude.{◌≡◌};
ghost use Rattle.std.specs.Option.{option_map};
ghost use Rattle.abt_format.specs.EventTexts.{event_of};
ghost use Rattle.abt_step.specs.Asked.{asked_by, asked_in, asked_on, begins_with, event_or_fault, fault_name, query_by};

use abt_format::event_of;
use abt_model::Event;

/// What a line of a dialogue asks for (docs/FORMATS.md, "Events line by line").
#[derive(Clone, Copy, Debug, PartialEq, Eq)]
pub enum Asked {
    /// Nothing: the line is a comment.
    Nothing,
    /// That an event happens.
    Happen(Event),
    /// That all begins anew.
    Reset,
    /// That something is told, and nothing happens.
    Tell(Query),
    /// Nothing that can be done.
    Wrong(AskedFault),
}

/// What is to be told of the net behind the events so far.
#[derive(Clone, Copy, Debug, PartialEq, Eq)]
pub enum Query {
    /// The rates, what is held, the totals and the capacities.
    State,
    /// The last lines of a report of the events so far.
    Report,
    /// What can happen next of what was sent.
    Possible,
}

/// Why nothing can be done for a line. It shows itself by the name that the answer to the line has.
#[derive(Clone, Copy, Debug, PartialEq, Eq)]
pub enum AskedFault {
    /// The line is too long.
    TooLong,
    /// The line says no event, and is none of the other words.
    Event,
}

impl AskedFault {
    /// The name of the fault.
    pub fn name(self) -> &'static str
        ensures { result.now ≡ fault_name self }
    {
        match self {
            AskedFault::TooLong => "TooLong",
            AskedFault::Event => "event",
        }
    }
}

// What a line asks for, which is too long if there is `None`.
pub(crate) fn asked_on(line: Option<&[u8]>) -> Asked
    ensures { result ≡ asked_on (option_map (λ line. line.now) line.entry) }
{
    match line {
        Some(octets) => asked_in(octets),
        None => Asked::Wrong(AskedFault::TooLong),
    }
}

// What octets ask for, which is nothing that can be done if they are no text.
fn asked_in(octets: &[u8]) -> Asked
    ensures { result ≡ asked_in octets.now }
{
    match std::str::from_utf8(octets) {
        Ok(text) => asked_by(text),
        Err(_) => Asked::Wrong(AskedFault::Event),
    }
}

// What a text asks for.
fn asked_by(text: &str) -> Asked
    ensures { result ≡ asked_by text.now }
{
    match text {
        _ if begins_with(text, b'#') => Asked::Nothing,
        _ if begins_with(text, b'?') => query_asked(text),
        "reset" => Asked::Reset,
        _ => event_asked(text),
    }
}

// What a text asks to be told.
fn query_asked(text: &str) -> Asked
    ensures { result ≡ query_by text.now }
{
    match text {
        "? state" => Asked::Tell(Query::State),
        "? report" => Asked::Tell(Query::Report),
        "? possible" => Asked::Tell(Query::Possible),
        _ => Asked::Wrong(AskedFault::Event),
    }
}

// The event that a text asks for.
fn event_asked(text: &str) -> Asked
    ensures { result ≡ event_or_fault (event_of text.now) }
{
    match event_of(text) {
        Some(event) => Asked::Happen(event),
        None => Asked::Wrong(AskedFault::Event),
    }
}

// Whether a text begins with an octet.
#[tactic(auto, using(crate::proofs::Stepping::first_octet))]
fn begins_with(text: &str, octet: u8) -> bool
    ensures { result ≡ begins_with octet text.now }
{
    let octets = text.as_bytes();
    if octets.is_empty() {
        return false;
    }
    octets[0] == octet
}
