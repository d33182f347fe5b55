//! The state of a net.
ghost use Rattle.std.specs.Prelude.{◌≡◌, ◌≤◌, List, IfOk, Some, length};
ghost use Rattle.abt_model.specs.Past.{facts_of};
ghost use Rattle.abt_model.specs.Run.{facts_after};
ghost use Rattle.abt_model.specs.Traces.{capacities_after, held_along, held_after, rates_after, totals_after};
ghost use Rattle.abt_model.specs.declared.event.Event.{Event as EventSpec};
ghost use Rattle.abt_net.specs.Topology.{Topology, conn_at};
ghost use Rattle.abt_world.specs.Standing.{StandsFor};
ghost use Rattle.abt_step.specs.NetStates.{state_after};

use abt_model::Sequence;
use abt_net::{Conn, Net};
use abt_rate::Rate;
use abt_world::World;
use std::alloc::{AllocError, Global};

/// The state of a net behind some events. Rates and capacities are units of 1/512 cell/s.
#[derive(Debug, Drop)]
pub struct NetState {
    /// The rate at which each connection's source shapes.
    pub rates: Sequence<Rate>,
    /// For each connection, what each hop of its path holds for it, the first hop's first.
    pub held: Sequence<Sequence<Rate>>,
    /// The sum of what each port holds.
    pub totals: Sequence<u64>,
    /// The capacity of each port.
    pub capacities: Sequence<u64>,
}

// The state of a net at work.
pub(crate) fn state_of(alloc: Global, net: &Net, world: &World<'_>) -> Result<NetState, AllocError>
    ensures { (events : List EventSpec) → StandsFor net.now events world.now →
        IfOk result (λ state. state ≡ state_after net.now (facts_after net.now events)) }
{
    Ok(NetState {
        rates: rates_of(alloc, net, world)?,
        held: held_of(alloc, net, world)?,
        totals: totals_of(alloc, net, world)?,
        capacities: capacities_of(alloc, net, world)?,
    })
}

// The rate of each source.
fn rates_of(alloc: Global, net: &Net, world: &World<'_>) -> Result<Sequence<Rate>, AllocError>
    ensures { (events : List EventSpec) → StandsFor net.now events world.now →
        IfOk result (λ rates. rates ≡ rates_after net.now (facts_after net.now events)) }
{
    let conns = net.conns();
    let mut rates = Sequence::new(alloc);
    for conn in 0..conns.len() {
        rates.push(world.rate(conn as u16).unwrap_or(Rate::ZERO))?;
    }
    Ok(rates)
}

// What the hops of each path hold.
fn held_of(
    alloc: Global,
    net: &Net,
    world: &World<'_>,
) -> Result<Sequence<Sequence<Rate>>, AllocError>
    ensures { (events : List EventSpec) → StandsFor net.now events world.now →
        IfOk result (λ held. held ≡ held_after net.now (facts_after net.now events)) }
{
    let conns = net.conns();
    let mut held = Sequence::new(alloc);
    for conn in 0..conns.len() {
        held.push(held_along(alloc, conn as u16, &conns[conn], world)?)?;
    }
    Ok(held)
}

// What the hops of the path of a connection hold.
fn held_along(
    alloc: Global,
    place: u16,
    conn: &Conn,
    world: &World<'_>,
) -> Result<Sequence<Rate>, AllocError>
    requires { length conn.now.path ≤ u16.MAX }
    ensures { (net : Topology) (events : List EventSpec) → StandsFor net events world.now →
        conn_at net place ≡ Some conn.now →
        IfOk result (λ held. held ≡ held_along (facts_of place (facts_after net events)) conn.now.path) }
{
    let path = conn.path.as_slice();
    let mut held = Sequence::new(alloc);
    for before in 0..path.len() {
        held.push(world.held(place, before as u16 + 1).unwrap_or(Rate::ZERO))?;
    }
    Ok(held)
}

// The sum of each port.
fn totals_of(alloc: Global, net: &Net, world: &World<'_>) -> Result<Sequence<u64>, AllocError>
    ensures { (events : List EventSpec) → StandsFor net.now events world.now →
        IfOk result (λ totals. totals ≡ totals_after net.now (facts_after net.now events)) }
{
    let ports = net.capacities();
    let mut totals = Sequence::new(alloc);
    for port in 0..ports.len() {
        totals.push(world.total(port as u16).unwrap_or(0))?;
    }
    Ok(totals)
}

// The capacity of each port.
fn capacities_of(alloc: Global, net: &Net, world: &World<'_>) -> Result<Sequence<u64>, AllocError>
    ensures { (events : List EventSpec) → StandsFor net.now events world.now →
        IfOk result (λ capacities. capacities ≡ capacities_after net.now (facts_after net.now events)) }
{
    let ports = net.capacities();
    let mut capacities = Sequence::new(alloc);
    for port in 0..ports.len() {
        capacities.push(world.capacity(port as u16).unwrap_or(0))?;
    }
    Ok(capacities)
}
