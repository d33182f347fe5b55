//! The source of a connection of a net, over its store and its journal.
ghost use Rattle.std.specs.Prelude.{◌≡◌, ◌⊎◌, IfErr, OnOk, slice_get};
ghost use Rattle.std.specs.Io.KnownBytes.{IsAtEnd, Keeps};
ghost use Rattle.abt_net.specs.Topology.{channel_at};
ghost use Rattle.abt_live_files.specs.Served.{IsSourceServed, IsSourceUnserved, StopsSource, first_hop};

use crate::answering::serve_source;
use crate::fault::LiveStop;
use crate::opening::{Begun, open_source};
use crate::stores::Stores;
use crate::telling::tell_stop;
use abt_cell::Vc;
use abt_live::SourceLines;
use abt_net::Net;
use abt_plans::SourcePlan;
use abt_scenario::read_from;
use std::alloc::AllocGlobal;
use std::io::{Read, Write};
use std::rt::{Clock, Files};

/// Reads the scenario that has a net, opens the store and the journal, or makes them, answers all lines of a reader by the source of the
/// connection that a plan names, and gives the exit status: 0 if all answers went out to `writer`, and 1 if what is told on `errors` says
/// why not. What can't be written there changes no status.
///
/// What a read of the lines ends is in the journal, and answered, before the next read.
pub fn perform_source<T, N: Read, R: Read, W: Write, E: Write>(
    rt: &T,
    net: &mut N,
    plan: &SourcePlan,
    reader: &mut R,
    writer: &mut W,
    errors: &mut E,
) -> u8
where
    T: Files + AllocGlobal + Clock + Stores,
    ensures status { (result ≡ 0) ⊎ (result ≡ 1) }
    ensures end { result ≡ 0 → IsAtEnd (R.remaining reader.new) }
    ensures ok { result ≡ 0 → IsSourceServed T.Store.content T.File.contents (N.remaining net.old) plan.now
        (R.remaining reader.old) (W.contents writer.old) (W.contents writer.new) }
    ensures quiet { result ≡ 0 → Keeps (E.contents errors.old) (E.contents errors.new) }
    ensures err { result ≡ 1 → IsSourceUnserved T.Store.content T.File.contents (N.remaining net.old) plan.now
        (R.remaining reader.old) (W.contents writer.old) (W.contents writer.new)
        (E.contents errors.old) (E.contents errors.new) }
{
    match source(rt, net, plan, reader, writer) {
        Ok(()) => 0,
        Err(stop) => {
            tell_stop(stop, plan.store.as_str(), plan.journal.as_str(), errors);
            1
        }
    }
}

// Answers all lines of a reader by a source of the net of the scenario that another has left.
fn source<T: Files + AllocGlobal + Clock + Stores, N: Read, R: Read, W: Write>(
    rt: &T,
    net: &mut N,
    plan: &SourcePlan,
    reader: &mut R,
    writer: &mut W,
) -> Result<(), LiveStop>
    ensures end { OnOk result (IsAtEnd (R.remaining reader.new)) }
    ensures ok { OnOk result (IsSourceServed T.Store.content T.File.contents (N.remaining net.old) plan.now
        (R.remaining reader.old) (W.contents writer.old) (W.contents writer.new)) }
    ensures err { IfErr result (λ stop. StopsSource T.Store.content T.File.contents stop
        (N.remaining net.old) plan.now (R.remaining reader.old) (W.contents writer.old)
        (W.contents writer.new)) }
{
    let scenario = match read_from(rt.alloc(), net) {
        Ok(scenario) => scenario,
        Err(fault) => return Err(LiveStop::Scenario(fault)),
    };
    let conn = plan.conn;
    let Some(vc) = channel_of(&scenario.net, conn) else {
        return Err(LiveStop::Connection(conn));
    };
    let Begun {
        store,
        journal,
        past,
    } = match open_source(rt, plan) {
        Ok(begun) => begun,
        Err(stop) => return Err(stop),
    };
    let lines = SourceLines::new(conn, vc, past.cells, past.clock, store, journal);
    let first_port = first_port_of(&scenario.net, conn);
    match serve_source(rt, lines, first_port, plan, reader, writer) {
        Ok(()) => Ok(()),
        Err(fault) => Err(LiveStop::Serving(fault)),
    }
}

// The channel of a connection, if the net has it.
fn channel_of(net: &Net, conn: u16) -> Option<Vc>
    ensures { result ≡ channel_at net.now.conns conn }
{
    let conn = net.conns().get(usize::from(conn))?;
    Some(conn.vc)
}

// The port that the requests of a connection go to first. A path has a port.
fn first_port_of(net: &Net, conn: u16) -> u16
    ensures { result ≡ first_hop (slice_get net.now.conns conn) }
{
    let Some(conn) = net.conns().get(usize::from(conn)) else {
        return 0;
    };
    match conn.path.as_slice() {
        [first, ..] => *first,
        [] => 0,
    }
}
