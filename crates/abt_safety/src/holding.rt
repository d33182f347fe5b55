//! The rates that ports hold for a channel.
ghost use Rattle.std.specs.Prelude.{◌≡◌, ◌+◌, ◌≤◌, if◌then◌else◌, is_some, min, IfOk, List, length, map};
ghost use Rattle.abt_node.specs.Table.{Table};
ghost use Rattle.abt_safety.specs.Holding.{held_by_port, is_held_along, is_held_at as is_held_there, looked_at, looked_after, ChangesOne};

use abt_cell::Vc;
use abt_index::Lookups;
use abt_model::Sequence;
use abt_node::Port;
use abt_rate::Rate;
use std::alloc::{AllocError, Global};

// The rate that a port holds for a channel, nothing if it doesn't know it.
fn held_by_port(vc: Vc, ports: &[Port], port: u16) -> Rate
    ensures { result ≡ held_by_port vc ports.now port }
{
    match ports.get(usize::from(port)) {
        Some(port) => port.held(vc).unwrap_or(Rate::ZERO),
        None => Rate::ZERO,
    }
}

/// The rate that each port of a path holds for a channel, the first hop's first, and nothing if a port isn't there or
/// doesn't know the channel. A path has the numbers of its ports.
pub fn held_along(
    alloc: Global,
    vc: Vc,
    path: &[u16],
    ports: &[Port],
) -> Result<Sequence<Rate>, AllocError>
    ensures { IfOk result (λ held. held ≡ map (held_by_port vc ports.now) path.now) }
{
    let mut held = Sequence::new(alloc);
    for port in path {
        held.push(held_by_port(vc, ports, *port))?;
    }
    Ok(held)
}

/// Whether a rate is at most what each port of a path holds for a channel.
pub fn is_held(rate: Rate, vc: Vc, path: &[u16], ports: &[Port], looks: &mut Lookups) -> bool
    ensures value { result ≡ is_held_along rate vc ports.now path.now }
    ensures looks { looks.new ≤ looks.old + length path.now }
    ensures counted { let looked = looked_at rate vc ports.now path.now in
        looks.old + looked ≤ u64.MAX → looks.new ≡ looks.old + looked }
{
    let Some((first, rest)) = path.split_first() else {
        return true;
    };
    rate <= held_by_port(vc, ports, looks.counting(*first)) && is_held(rate, vc, rest, ports, looks)
}

/// Whether a rate is at most what the port of a number holds for a channel; yes, if there is no port.
pub fn is_held_at(
    rate: Rate,
    vc: Vc,
    port: Option<u16>,
    ports: &[Port],
    looks: &mut Lookups,
) -> bool
    ensures value { result ≡ is_held_there rate vc ports.now port }
    ensures looks { looks.new ≤ looks.old + 1 }
    ensures counted { looks.new ≡ (if is_some port then min (looks.old + 1) u64.MAX else looks.old) }
{
    let Some(port) = port else {
        return true;
    };
    rate <= held_by_port(vc, ports, looks.counting(port))
}

/// A rate of a source, and whether it was at most what each port of the source's path held.
#[derive(Clone, Copy, Debug, PartialEq, Eq)]
pub struct Shaped {
    /// The rate.
    pub rate: Rate,
    /// Whether it was.
    pub is_held: bool,
}

/// Whether a rate is at most what each port of a path holds for a channel, after only what one of them holds may have changed: that
/// of a number, or none. If an earlier rate was held, and this one isn't above it, that port alone is asked.
pub fn is_held_after(
    before: Shaped,
    rate: Rate,
    vc: Vc,
    path: &[u16],
    port: Option<u16>,
    ports: &[Port],
    looks: &mut Lookups,
) -> bool
    ensures value { (tables : List Table) → ChangesOne port vc path.now tables ports.now →
        before.is_held ≡ is_held_along before.rate vc tables path.now →
        result ≡ is_held_along rate vc ports.now path.now }
    ensures looks { looks.new ≤ looks.old + length path.now + 1 }
    ensures counted { let looked = looked_after before rate vc ports.now path.now port in
        looks.old + looked ≤ u64.MAX → looks.new ≡ looks.old + looked }
{
    if before.is_held && rate <= before.rate {
        is_held_at(rate, vc, port, ports, looks)
    } else {
        is_held(rate, vc, path, ports, looks)
    }
}
