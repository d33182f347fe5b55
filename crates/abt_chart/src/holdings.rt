//! What is read off a world between two events.
ghost use Rattle.std.specs.Prelude.{◌≡◌, ◌≤◌, List, length, unwrap_or, IfOk, Some};
ghost use Rattle.abt_model.specs.declared.event.Event.{Event as EventSpec};
ghost use Rattle.abt_model.specs.Past.{facts_of};
ghost use Rattle.abt_model.specs.Reserved.{held_on};
ghost use Rattle.abt_model.specs.Run.{facts_after};
ghost use Rattle.abt_net.specs.declared.conn.Conn.{Conn};
ghost use Rattle.abt_net.specs.Topology.{Topology, IsWithinRules, conn_at};
ghost use Rattle.abt_model.specs.Traces.{rates_after, capacities_after};
ghost use Rattle.abt_world.specs.Standing.{StandsFor};
ghost use Rattle.abt_chart.specs.Frames as spec;

use abt_model::Sequence;
use abt_net::{Conn, Net};
use abt_rate::Rate;
use abt_world::World;
use std::alloc::{AllocError, Global};

// The units of a rate, 0 if there is none.
fn units_of(rate: Option<Rate>) -> u64
    ensures { result ≡ unwrap_or rate 0 }
{
    match rate {
        Some(rate) => rate.units(),
        None => 0,
    }
}

// A number that is read, 0 if there is none.
fn number_of(read: Option<u64>) -> u64
    ensures { result ≡ unwrap_or read 0 }
{
    match read {
        Some(number) => number,
        None => 0,
    }
}

// The rate at which each source shapes.
pub(crate) fn rates_of(
    alloc: Global,
    world: &World<'_>,
    net: &Net,
) -> Result<Sequence<u64>, AllocError>
    ensures { (events : List EventSpec) → StandsFor net.now events world.now →
        IfOk result (λ rates. rates ≡ rates_after net.now (facts_after net.now events)) }
{
    let conns = net.conns();
    let mut rates = Sequence::new(alloc);
    for place in 0..conns.len() {
        rates.push(units_of(world.rate(place as u16)))?;
    }
    Ok(rates)
}

// The least that a hop of its path holds for each connection.
pub(crate) fn leasts_of(
    alloc: Global,
    world: &World<'_>,
    net: &Net,
) -> Result<Sequence<u64>, AllocError>
    ensures value { (events : List EventSpec) → StandsFor net.now events world.now →
        IfOk result (λ leasts. leasts ≡ spec.leasts_after net.now (facts_after net.now events)) }
    ensures rules { IsWithinRules net.now }
{
    let conns = net.conns();
    let mut leasts = Sequence::new(alloc);
    for place in 0..conns.len() {
        let hops = conns[place].path.len() as u16;
        leasts.push(least_of(world, place as u16, hops))?;
    }
    Ok(leasts)
}

// The least that the first so many hops hold for a connection.
fn least_of(world: &World<'_>, place: u16, hops: u16) -> u64
    ensures { (net : Topology) (events : List EventSpec) (conn : Conn) → StandsFor net events world.now →
        conn_at net place ≡ Some conn → hops ≤ length conn.path →
        result ≡ spec.least_held (facts_of place (facts_after net events)) hops }
{
    if hops == 0 {
        return 0;
    }
    let mut least = units_of(world.held(place, 1));
    for before in 1..hops {
        least = least.min(units_of(world.held(place, before + 1)));
    }
    least
}

// What each connection holds on each port.
pub(crate) fn stacks_of(
    alloc: Global,
    world: &World<'_>,
    net: &Net,
) -> Result<Sequence<Sequence<u64>>, AllocError>
    ensures { (events : List EventSpec) → StandsFor net.now events world.now →
        IfOk result (λ stacks. stacks ≡ spec.stacks_after net.now (facts_after net.now events)) }
{
    let ports = net.capacities();
    let mut stacks = Sequence::new(alloc);
    for port in 0..ports.len() {
        let stack = stack_of(alloc, world, net, port as u16)?;
        stacks.push(stack)?;
    }
    Ok(stacks)
}

// What each connection holds on a port.
fn stack_of(
    alloc: Global,
    world: &World<'_>,
    net: &Net,
    port: u16,
) -> Result<Sequence<u64>, AllocError>
    ensures { (events : List EventSpec) → StandsFor net.now events world.now →
        IfOk result (λ stack. stack ≡ spec.stack_after net.now (facts_after net.now events) port) }
{
    let conns = net.conns();
    let mut stack = Sequence::new(alloc);
    for place in 0..conns.len() {
        stack.push(held_at(world, place as u16, &conns[place], port))?;
    }
    Ok(stack)
}

// What a connection holds on a port: nothing if its path doesn't go through it.
fn held_at(world: &World<'_>, place: u16, conn: &Conn, port: u16) -> u64
    requires { length conn.now.path ≤ u16.MAX }
    ensures { (net : Topology) (events : List EventSpec) → StandsFor net events world.now →
        conn_at net place ≡ Some conn.now →
        result ≡ held_on (facts_of place (facts_after net events)) conn.now.path port }
{
    match conn.path.hop_of(port) {
        Some(hop) => units_of(world.held(place, hop as u16)),
        None => 0,
    }
}

// The capacity of each port.
pub(crate) fn capacities_of(
    alloc: Global,
    world: &World<'_>,
    net: &Net,
) -> Result<Sequence<u64>, AllocError>
    ensures { (events : List EventSpec) → StandsFor net.now events world.now →
        IfOk result (λ capacities. capacities ≡ capacities_after net.now (facts_after net.now events)) }
{
    let ports = net.capacities();
    let mut capacities = Sequence::new(alloc);
    for port in 0..ports.len() {
        capacities.push(number_of(world.capacity(port as u16)))?;
    }
    Ok(capacities)
}
