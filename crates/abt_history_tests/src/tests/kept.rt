//! Runs that keep their history.
ghost use Rattle.std.specs.Prelude.{◌≡◌, ◌+◌, ◌<◌, IfSome, Some, length};
ghost use Rattle.abt_net.specs.declared.conn.Conn.{Conn};
ghost use Rattle.abt_net.specs.Topology.{conn_at};
ghost use Rattle.abt_history.specs.Ended.{CanBeWoven};

use super::ends::{Left, ended};
use super::link::Ports;
use super::opening::opened;
use super::threads::{Plan, run};
use abt_cell::Vc;
use abt_history::{Book, Naming, Opened, Place, Site, Station};
use abt_net::Net;
use std::alloc::Global;
use std::marker::Brand;
use std::sync::{Mutex, Wait};
use std::thread::Threads;

// The next port of a book, before the first event.
fn station<N: Place, J: Naming>(
    alloc: Global,
    net: &Net,
    book: &mut Book<N, J>,
    port: u16,
) -> Option<Station<N, J>>
    requires net { N.net ≡ net.now }
    requires next { book.old ≡ port }
    ensures next { IfSome result (λ station. book.new ≡ book.old + 1) }
{
    if usize::from(port) >= net.capacities().len() {
        return None;
    }
    Some(book.station(opened(alloc, net, port).ok()?))
}

// The channel of the first connection.
fn channel(net: &Net) -> Option<Vc>
    ensures known { IfSome result (λ vc. (line : Conn) → conn_at net.now 0 ≡ Some line → vc ≡ line.vc) }
    ensures low { IfSome result (λ vc. 0 < length net.now.conns) }
{
    let line = net.conns().first()?;
    Some(line.vc)
}

/// What a run of a net with two ports and one connection leaves. Its journals can be woven.
pub(super) fn kept<R: Threads + Wait + Sync>(
    rt: &R,
    alloc: Global,
    net: &Net,
    plan: Plan,
) -> Option<Left>
    ensures { IfSome result (λ r. CanBeWoven net.now r.0 r.1) }
{
    over::<Brand, R>(rt, alloc, net, plan)
}

fn over<N: Place + Send + Sync, R: Threads + Wait + Sync>(
    rt: &R,
    alloc: Global,
    net: &Net,
    plan: Plan,
) -> Option<Left>
    requires net { N.net ≡ net.now }
    ensures { IfSome result (λ r. CanBeWoven N.net r.0 r.1) }
{
    let opened = Opened::<N>::new(net);
    named::<N, Brand, R>(rt, alloc, net, plan, opened)
}

fn named<N: Place + Send + Sync, J: Naming + Send + Sync, R: Threads + Wait + Sync>(
    rt: &R,
    alloc: Global,
    net: &Net,
    plan: Plan,
    opened: Opened<N>,
) -> Option<Left>
    requires net { N.net ≡ net.now }
    requires book { opened ≡ J.book }
    ensures { IfSome result (λ r. CanBeWoven N.net r.0 r.1) }
{
    if net.capacities().len() != 2 {
        return None;
    }
    let mut book = opened.named::<J>(net);
    let front = book.front();
    let zero = Mutex::new(station(alloc, net, &mut book, 0)?);
    let one = Mutex::new(station(alloc, net, &mut book, 1)?);
    let mut site: Site<N, J> = book.site(alloc, 0, channel(net)?);
    let ports = Ports {
        zero: &zero,
        one: &one,
    };
    run(rt, alloc, net, ports, &mut site, plan)?;
    let ports = (zero.into_inner(), one.into_inner());
    ended(rt, alloc, front, ports, site)
}
