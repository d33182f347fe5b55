//! What a source brings to its first port.
ghost use Rattle.std.specs.Prelude.{◌≡◌, ◌≤◌, ◌+◌, max, IfSome, IsTrue, Some, slice_index};
ghost use Rattle.abt_net.specs.declared.conn.Conn.{Conn};
ghost use Rattle.abt_net.specs.Topology.{conn_at};
ghost use Rattle.abt_history.specs.Modes.{When};
ghost use Rattle.abt_history.specs.Sites.{IsAsked};

use super::messages::{Parcel, Report, sent};
use abt_actor::{Outcome, SourceCommand};
use abt_cell::{Request, Rm};
use abt_history::{Brought, Keeping, SiteOf, StationOf, left_after};
use abt_journal::Seat;
use abt_net::Net;
use crossbeam_channel::{Receiver, Sender};
use std::sync::{Mutex, Wait};

/// The first port of a path, the way to the link worker, and what comes back.
#[derive(Drop)]
pub(super) struct Access<'run, K: Keeping> {
    pub(super) port: &'run Mutex<StationOf<K>>,
    pub(super) to: Sender<Parcel<K>>,
    pub(super) from: Receiver<Report<K>>,
}

// Whether this is the first port of a connection's path.
fn is_first(net: &Net, conn: u16, port: u16) -> bool
    ensures { IsTrue result → (line : Conn) → conn_at net.now conn ≡ Some line → port ≡
        slice_index line.path 0 }
{
    match net.conns().get(usize::from(conn)) {
        Some(line) => line.path.as_slice()[0] == port,
        None => false,
    }
}

// When a cell that left comes to the first port, if its jitter is within the tolerance of the connection.
fn arrival(net: &Net, conn: u16, now: u64, jitter: u64, last: u64) -> Option<u64>
    ensures { IfSome result (λ at. (line : Conn) × (conn_at net.now conn ≡ Some line) ×
        (jitter ≤ line.tau) × (at ≡ max (now + line.delay + jitter) last)) }
{
    let line = net.conns().get(usize::from(conn))?;
    if jitter > line.tau {
        return None;
    }
    let at = now.checked_add(line.delay)?.checked_add(jitter)?;
    Some(at.max(last))
}

/// Brings a request that went out to the first port, and gives what is known of it, if its way has ended.
pub(super) fn brings<K: Keeping, R: Wait>(
    rt: &R,
    net: &Net,
    site: &mut SiteOf<K>,
    seat: &mut Seat,
    access: &Access<K>,
    request: Request,
) -> Option<Option<Report<K>>>
    requires net { When K.kept (K.net ≡ net.now) }
    requires asked { When K.kept (IsAsked K.net site.old.conn site.old.vc site.old.front request) }
{
    let mut station = access.port.lock(rt);
    let port = station.port();
    if !is_first(net, site.conn(), port) {
        return None;
    }
    let (_, reply) = site
        .bring(rt, &mut station, seat, &Brought::Request(request))
        .ok()?;
    let front = station.front();
    let left = left_after(net, port, &Rm::Request(request), &reply, front);
    Some(sent(rt, left, &access.to))
}

/// Has a cell leave and come to the first port. Gives the moment at which the next one may leave.
pub(super) fn emits<K: Keeping, R: Wait>(
    rt: &R,
    net: &Net,
    site: &mut SiteOf<K>,
    seat: &mut Seat,
    access: &Access<K>,
    now: u64,
    jitter: u64,
) -> Option<u64>
    requires net { When K.kept (K.net ≡ net.now) }
{
    let seen = site.front();
    let outcome = site
        .carry_out(rt, &seen, &SourceCommand::Emit { now })
        .ok()?;
    let Outcome::Emitted { cell, next } = outcome else {
        return None;
    };
    let at = arrival(net, site.conn(), now, jitter, site.arrived())?;
    let mut station = access.port.lock(rt);
    if !is_first(net, site.conn(), station.port()) {
        return None;
    }
    site.bring(rt, &mut station, seat, &Brought::Cell { cell, at })
        .ok()?;
    Some(next)
}
