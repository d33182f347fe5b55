//! What a run's events told.
ghost use Rattle.std.specs.Prelude.{◌≡◌};
ghost use Rattle.abt_chart.specs.Tellings as spec;

use crate::message::{Message, brought_by, sent_by};
use abt_model::{Event, Outcome};
use abt_net::Net;

/// An event of a run, its outcome, and the messages that it sent and brought.
#[derive(Clone, Copy, Debug)]
pub struct Told {
    /// The event.
    pub event: Event,
    /// Its outcome.
    pub outcome: Outcome,
    /// The message that it sent, if it sent one.
    pub sent: Option<Message>,
    /// The message that it brought to where it happened, if it brought one.
    pub brought: Option<Message>,
}

/// An event that answered so, with the messages that it sent and brought.
pub fn told_of(net: &Net, event: &Event, outcome: &Outcome) -> Told
    ensures { result ≡ spec.told_of net.now event.now outcome.now }
{
    let hops = hops_of(net, event.conn());
    Told {
        event: *event,
        outcome: *outcome,
        sent: sent_by(hops, event, outcome),
        brought: brought_by(event, outcome),
    }
}

// How many hops the path of a connection has; 0 if the net has no such connection.
fn hops_of(net: &Net, conn: Option<u16>) -> u16
    ensures { result ≡ spec.hops_of net.now conn }
{
    let Some(conn) = conn else {
        return 0;
    };
    match net.conns().get(usize::from(conn)) {
        Some(conn) => conn.path.len() as u16,
        None => 0,
    }
}
