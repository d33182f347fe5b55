//! The events that commands are.
ghost use Rattle.std.specs.Prelude.{◌≡◌};
ghost use Rattle.abt_play.specs.Commands as spec;

use abt_model::{Command, Event};

// The event that a command to the source of a connection is; none for one to listen.
pub(crate) fn event_of(conn: u16, command: &Command) -> Option<Event>
    ensures { result ≡ spec.event_of conn command.now }
{
    match *command {
        Command::Start { now } => Some(Event::Start { conn, now }),
        Command::Ask { rate, plan } => Some(Event::Ask { conn, rate, plan }),
        Command::Again => Some(Event::Again { conn }),
        Command::Crash => Some(Event::Crash { conn }),
        Command::Emit { now, .. } => Some(Event::Emit { conn, now }),
        Command::Listen { .. } => None,
    }
}
