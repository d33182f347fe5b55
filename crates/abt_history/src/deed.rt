//! What stands in the history of a run.
use abt_journal::PortInput;
use abt_model::Event;

/// An event, or a mark of a port or a source.
#[derive(Clone, Copy, Debug, PartialEq, Eq)]
pub enum Deed {
    /// An event happens.
    Happens(Event),
    /// The source of a connection goes to its first port, with a request or a cell.
    Goes { conn: u16 },
    /// Nothing more comes to a port.
    EndsPort { port: u16 },
    /// A source does nothing more.
    EndsSource { conn: u16 },
    /// An event brings this to a port. This is asked for and stands in no history: the event does.
    Comes { port: u16, input: PortInput },
}
