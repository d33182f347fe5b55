//! Whether a state began as a port of a net.
ghost use Rattle.std.specs.Prelude.{◌≡◌, ◌<◌, ◌↔◌, ◌⊎◌, ◌==◌, [], ℕ, IsTrue, IfNone, IfSome, Option, None, Some, length};
ghost use Rattle.abt_model.specs.PortTable.{port_table};
ghost use Rattle.abt_net.specs.Topology.{IsWithinRules};
ghost use Rattle.abt_journal.specs.Foreign.{IsPortOf, AreOfNet, IsFirstForeign};

use crate::PortState;
use abt_net::Net;

// The lowest place where a state is missing, is one too many, or isn't the net's port.
pub(super) fn first_foreign(net: &Net, states: &[PortState]) -> Option<u16>
    ensures none { IfNone result (AreOfNet net.now states.now) }
    ensures some { IfSome result (IsFirstForeign net.now states.now) }
{
    let ports = net.capacities().len();
    for place in 0..ports.min(states.len()) {
        if !is_port(net, place as u16, &states[place]) {
            return Some(place as u16);
        }
    }
    if ports == states.len() {
        None
    } else {
        Some(ports.min(states.len()) as u16)
    }
}

// Whether the state began as this port of the net.
fn is_port(net: &Net, port: u16, state: &PortState) -> bool
    requires { port < length net.now.capacities }
    ensures { IsTrue result ↔ (state.now.opening ≡ port_table net.now [] port) }
{
    let capacity = net.capacities()[usize::from(port)];
    state.id() == port && state.opening_capacity() == capacity && has_connections(net, port, state)
}

// Whether the state began with the connections through this port of the net, and each with its policer.
fn has_connections(net: &Net, port: u16, state: &PortState) -> bool
    ensures { IsTrue result ↔ (state.now.opening.connections ≡ (port_table net.now [] port).connections) }
{
    let mut through = 0;
    for conn in net.conns() {
        let Some(tau) = conn.policer_at(port) else {
            continue;
        };
        if state.tau(conn.vc) != Some(tau) {
            return false;
        }
        through += 1;
    }
    through == state.count()
}
