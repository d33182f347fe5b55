//! A port at work.
ghost use Rattle.std.specs.Prelude.{◌≡◌, IfNone, IfSome};
ghost use Rattle.abt_journal.specs.Replay.{reply_by, table_after};
ghost use Rattle.abt_live.specs.Ports.{entry_at, knows, past_step};

use abt_journal::{Entry, PortInput, PortReply};
use abt_node::Port;

/// A port of a switch at work: what it keeps, and how many steps it has done.
#[derive(Debug, Drop)]
pub struct LivePort {
    /// Its number in the net.
    pub id: u16,
    /// The port.
    pub port: Port,
    /// How many steps it has done.
    pub steps: u64,
}

impl LivePort {
    // Whether it has the connection of an input, if that has one.
    pub(crate) fn knows(&self, input: &PortInput) -> bool
        ensures { result ≡ knows self.now.port input.now }
    {
        let vc = match input {
            PortInput::Request(request) => request.vc(),
            PortInput::Answer(answer) => answer.vc(),
            PortInput::Arrive { vc, at: _ } => *vc,
            PortInput::Capacity(_) => return true,
        };
        self.port.held(vc).is_some()
    }

    // Does a step, unless it has done as many as can be counted, and gives its entry.
    pub(crate) fn step(&mut self, input: PortInput) -> Option<Entry>
        ensures some { IfSome result (λ entry. entry ≡ entry_at self.old input) }
        ensures past { IfSome result (λ _. self.new ≡ past_step self.old input) }
        ensures none { IfNone result (self.new ≡ self.old) }
    {
        let steps = self.steps.checked_add(1)?;
        let reply = serve(&mut self.port, &input);
        let entry = Entry {
            place: self.steps,
            caller: 0,
            input,
            reply,
        };
        self.steps = steps;
        Some(entry)
    }
}

// Hands an input to a port.
fn serve(port: &mut Port, input: &PortInput) -> PortReply
    ensures value { result ≡ reply_by port.old input.now }
    ensures table { port.new ≡ table_after port.old input.now }
{
    match input {
        PortInput::Request(request) => PortReply::Requested(port.request(request)),
        PortInput::Answer(answer) => PortReply::Answered(port.answer(answer)),
        PortInput::Arrive { vc, at } => PortReply::Arrived(port.arrive(*vc, *at)),
        PortInput::Capacity(capacity) => PortReply::Capped(port.set_capacity(*capacity)),
    }
}
