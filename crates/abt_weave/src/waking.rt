//! The actors that waited for an event.
ghost use Rattle.std.specs.Prelude.{◌≡◌, ◌<◌, true, length, reverse, Some, OnOk};
ghost use Rattle.abt_net.specs.Topology.{IsWithinRules};
ghost use Rattle.abt_model.specs.PortTable.{hop_visited};
ghost use Rattle.abt_weave.specs.Projections.{Step};
ghost use Rattle.abt_weave.specs.Stuck.{next_step};
ghost use Rattle.abt_weave.specs.Actors.{actor_count};
ghost use Rattle.abt_weave.specs.Progress.{run_journals, IsProgressOf};
ghost use Rattle.abt_weave.specs.Candidates as candidates;
ghost use Rattle.abt_weave.specs.Queue.{IsQueue, Wakes};
ghost use Rattle.abt_weave.specs.Waking.{IsAbout, AreTouched, IsPortFor, AreOnPath, IsSourceFor, AreOfConn};

use crate::actors::port_number;
use crate::candidate::channel_of;
use crate::progress::Progress;
use crate::queue::Queue;
use crate::weave_input::WeaveInput;
use abt_cell::Vc;
use abt_model::{Event, HopEvent, Target};
use std::alloc::AllocError;

// Whether the next entry of a port is about this channel.
fn is_about(given: &WeaveInput, progress: &Progress, port: u16, vc: Vc) -> bool
    requires ports { length given.now.ports.now ≡ length given.now.net.now.capacities }
    requires port { port < length given.now.net.now.capacities }
    requires progress { IsProgressOf given.now progress.now }
    ensures { (step : Step) →
        next_step given.now.net.now (run_journals given.now)
        (reverse progress.now.events.items) port ≡ Some step →
        candidates.channel_of step.input ≡ Some vc → result ≡ true }
{
    let p = usize::from(port);
    let entries = given.ports[p].as_slice();
    let place = progress.port_places[p];
    if place >= entries.len() {
        return false;
    }
    match channel_of(&entries[place].input) {
        Some(about) => about == vc,
        None => false,
    }
}

// The hop that an event comes to, 0 if it comes to none.
fn hop_visited(event: &Event) -> u16
    ensures { result ≡ hop_visited event.now }
{
    match event.target() {
        Target::Hop { event, .. } => event.hop(),
        Target::Source { .. } | Target::End { .. } | Target::Port { .. } => 0,
    }
}

// Wakes a port, if an event came to it, or its next entry is about this channel.
fn wake_port(
    given: &WeaveInput,
    progress: &Progress,
    port: u16,
    came: bool,
    vc: Vc,
    queue: &mut Queue,
) -> Result<(), AllocError>
    requires ports { length given.now.ports.now ≡ length given.now.net.now.capacities }
    requires port { port < length given.now.net.now.capacities }
    requires progress { IsProgressOf given.now progress.now }
    requires queue { IsQueue (actor_count given.now.net.now) queue.old }
    ensures queue { OnOk result (IsQueue (actor_count given.now.net.now) queue.new) }
    ensures wakes { OnOk result (Wakes
        (IsPortFor given.now.net.now (run_journals given.now)
        (reverse progress.now.events.items) port came vc) queue.old queue.new) }
{
    if !came && !is_about(given, progress, port, vc) {
        return Ok(());
    }
    queue.wake(port_number(given.net, port))
}

// Wakes the port at a hop of the path of a connection to which an event came, and those beside it whose next entries are about
// the connection. A connection's message can be sent to a hop from no other.
fn wake_path(
    given: &WeaveInput,
    progress: &Progress,
    conn: u16,
    hop: u16,
    queue: &mut Queue,
) -> Result<(), AllocError>
    requires ports { length given.now.ports.now ≡ length given.now.net.now.capacities }
    requires conn { conn < length given.now.net.now.conns }
    requires progress { IsProgressOf given.now progress.now }
    requires queue { IsQueue (actor_count given.now.net.now) queue.old }
    ensures queue { OnOk result (IsQueue (actor_count given.now.net.now) queue.new) }
    ensures wakes { OnOk result (Wakes
        (AreOnPath given.now.net.now (run_journals given.now)
        (reverse progress.now.events.items) conn hop) queue.old queue.new) }
{
    let conn = &given.net.conns()[usize::from(conn)];
    let ports = conn.path.as_slice();
    let visited = usize::from(hop);
    let first = visited.saturating_sub(2);
    let past = ports.len().min(visited + 1);
    for place in first..past {
        let came = place + 1 == visited;
        wake_port(given, progress, ports[place], came, conn.vc, queue)?;
    }
    Ok(())
}

// Wakes a source, if an event happened there or came to the first hop.
fn wake_source(conn: u16, hop: u16, queue: &mut Queue) -> Result<(), AllocError>
    requires queue { IsQueue (length queue.old.woken.items) queue.old }
    requires low { conn < length queue.old.woken.items }
    ensures queue { OnOk result (IsQueue (length queue.old.woken.items) queue.new) }
    ensures wakes { OnOk result (Wakes (IsSourceFor conn hop) queue.old queue.new) }
{
    if hop > 1 {
        return Ok(());
    }
    queue.wake(conn)
}

// Wakes a source and ports on its path, if they can have waited for an event at this hop.
fn wake_connection(
    given: &WeaveInput,
    progress: &Progress,
    conn: u16,
    hop: u16,
    queue: &mut Queue,
) -> Result<(), AllocError>
    requires ports { length given.now.ports.now ≡ length given.now.net.now.capacities }
    requires progress { IsProgressOf given.now progress.now }
    requires queue { IsQueue (actor_count given.now.net.now) queue.old }
    ensures queue { OnOk result (IsQueue (actor_count given.now.net.now) queue.new) }
    ensures wakes { OnOk result (Wakes
        (AreOfConn given.now.net.now (run_journals given.now)
        (reverse progress.now.events.items) conn hop) queue.old queue.new) }
    ensures rules { IsWithinRules given.now.net.now }
{
    if usize::from(conn) >= given.net.conns().len() {
        return Ok(());
    }
    wake_source(conn, hop, queue)?;
    wake_path(given, progress, conn, hop, queue)
}

/// Wakes the actors that can have waited for the last event that was placed: the port that it came to, those beside
/// it on the path of its connection whose next entries are about this connection, and its source, if it happened
/// there or at the first hop.
pub(crate) fn wake_for(
    given: &WeaveInput,
    progress: &Progress,
    event: &Event,
    queue: &mut Queue,
) -> Result<(), AllocError>
    requires ports { length given.now.ports.now ≡ length given.now.net.now.capacities }
    requires progress { IsProgressOf given.now progress.now }
    requires queue { IsQueue (actor_count given.now.net.now) queue.old }
    ensures queue { OnOk result (IsQueue (actor_count given.now.net.now) queue.new) }
    ensures wakes { OnOk result (Wakes
        (AreTouched given.now.net.now (run_journals given.now)
        (reverse progress.now.events.items) event.now) queue.old queue.new) }
    ensures rules { IsWithinRules given.now.net.now }
{
    match event.target() {
        Target::Port { port, .. } => {
            if usize::from(port) < given.net.capacities().len() {
                queue.wake(port_number(given.net, port))?;
            }
            Ok(())
        }
        Target::Source { conn, .. } | Target::End { conn, .. } | Target::Hop { conn, .. } => {
            wake_connection(given, progress, conn, hop_visited(event), queue)
        }
    }
}
