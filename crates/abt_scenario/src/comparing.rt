//! Whether a scenario has this net and these events.
ghost use Rattle.std.specs.Prelude.{◌≡◌, ◌↔◌, IsTrue};
ghost use Rattle.abt_scenario.specs.Samples.{IsOf};

use crate::Scenario;
use abt_model::Event;
use abt_net::{Conn, Net};

// Whether a scenario has this net and these events.
pub(crate) fn is_of(scenario: &Scenario, net: &Net, events: &[Event]) -> bool
    ensures { IsTrue result ↔ IsOf net.now events.now scenario.now }
{
    is_net(&scenario.net, net) && are_events(scenario.events.as_slice(), events)
}

// Whether the events are the same, in the same order.
fn are_events(some: &[Event], others: &[Event]) -> bool
    ensures { IsTrue result ↔ (some.now ≡ others.now) }
{
    if some.len() != others.len() {
        return false;
    }
    for (index, event) in some.iter().enumerate() {
        if !is_event(event, &others[index]) {
            return false;
        }
    }
    true
}

fn is_event(one: &Event, other: &Event) -> bool
    ensures { IsTrue result ↔ (one.now ≡ other.now) }
{
    *one == *other
}

fn is_net(one: &Net, other: &Net) -> bool
    ensures { IsTrue result ↔ (one.now ≡ other.now) }
{
    are_capacities(one.capacities(), other.capacities()) && are_conns(one.conns(), other.conns())
}

fn are_capacities(some: &[u64], others: &[u64]) -> bool
    ensures { IsTrue result ↔ (some.now ≡ others.now) }
{
    *some == *others
}

// Whether the connections are the same, in the same order.
fn are_conns(some: &[Conn], others: &[Conn]) -> bool
    ensures { IsTrue result ↔ (some.now ≡ others.now) }
{
    let Some((one, some)) = some.split_first() else {
        return others.is_empty();
    };
    let Some((other, others)) = others.split_first() else {
        return false;
    };
    is_conn(one, other) && are_conns(some, others)
}

fn is_conn(one: &Conn, other: &Conn) -> bool
    ensures { IsTrue result ↔ (one.now ≡ other.now) }
{
    one.vc == other.vc
        && *one.path.as_slice() == *other.path.as_slice()
        && one.delay == other.delay
        && one.tau == other.tau
}
