//! The sources and ports of a net in one order.
ghost use Rattle.std.specs.Prelude.{◌≡◌, ◌+◌, ◌<◌, length};
ghost use Rattle.abt_net.specs.Topology.{IsWithinRules};
ghost use Rattle.abt_weave.specs.Actors as actors;

use crate::Actor;
use abt_net::Net;

// How many sources and ports a net has.
pub(crate) fn actor_count(net: &Net) -> u16
    ensures value { result ≡ actors.actor_count net.now }
    ensures rules { IsWithinRules net.now }
{
    (net.conns().len() + net.capacities().len()) as u16
}

// The source or port of a number. Sources come before ports.
pub(crate) fn actor_at(net: &Net, number: u16) -> Actor
    requires { number < actors.actor_count net.now }
    ensures value { result ≡ actors.actor_at net.now number }
    ensures known { actors.IsAmong (length net.now.conns) (length net.now.capacities) result }
{
    let conns = net.conns().len() as u16;
    if number < conns {
        Actor::Source(number)
    } else {
        Actor::Port(number - conns)
    }
}

// The number of a port, which comes after all sources.
pub(crate) fn port_number(net: &Net, port: u16) -> u16
    requires { port < length net.now.capacities }
    ensures { result ≡ length net.now.conns + port }
{
    net.conns().len() as u16 + port
}
