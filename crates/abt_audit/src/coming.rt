//! The cell that an arrival misses.
ghost use Rattle.std.specs.Prelude.{◌≡◌, List};
ghost use Rattle.abt_model.specs.Run.{facts_after};
ghost use Rattle.abt_model.specs.declared.event.Event.{Event as EventSpec};
ghost use Rattle.abt_net.specs.Topology.{Topology};
ghost use Rattle.abt_world.specs.Readings.{moment_in, progress_in};
ghost use Rattle.abt_reason.specs.Grounds.{number};
ghost use Rattle.abt_audit.specs.Missing as spec;
ghost use Rattle.abt_audit.specs.Standing.{Stands};

use crate::missing::Missing;
use crate::standing::Standing;
use abt_net::Conn;

// So long after a moment, as far as moments go.
fn later(moment: u64, time: u64) -> u64
    ensures { result ≡ spec.later moment time }
{
    moment.saturating_add(time)
}

// The window in which a cell comes that left at this moment.
fn window(conn: &Conn, id: u16, cell: u64, moment: u64) -> Missing
    ensures { result ≡ spec.window conn.now id cell moment }
{
    let from = later(moment, conn.delay);
    Missing::Cell {
        conn: id,
        cell,
        from,
        to: later(from, conn.tau),
    }
}

// The moment at which a cell left.
fn moment_of(standing: &Standing<'_>, conn: u16, cell: u64) -> u64
    ensures { (net : Topology) (events : List EventSpec) →
        Stands net events standing.now.world standing.now.sightings →
        result ≡ number (moment_in net (facts_after net events) conn cell) }
{
    standing.world.moment(conn, cell).unwrap_or(0)
}

// The oldest cell that can still come: one that left, or the next that leaves.
fn cell_missing(standing: &Standing<'_>, conn: &Conn, id: u16) -> Missing
    ensures { (net : Topology) (events : List EventSpec) →
        Stands net events standing.now.world standing.now.sightings →
        result ≡ spec.cell_missing net (facts_after net events) conn.now id
        (progress_in net (facts_after net events) id) }
{
    let Some(progress) = standing.world.progress(id) else {
        return Missing::Nothing;
    };
    let cell = progress.fence;
    if cell < progress.emitted {
        let moment = moment_of(standing, id, cell);
        return window(conn, id, cell, moment);
    }
    Missing::NoCell { conn: id, cell }
}

// Cells come to the first hop alone.
pub(crate) fn arrival_missing(
    standing: &Standing<'_>,
    conn: &Conn,
    id: u16,
    hop: u16,
    port: u16,
) -> Missing
    ensures { (net : Topology) (events : List EventSpec) →
        Stands net events standing.now.world standing.now.sightings →
        result ≡ spec.arrival_missing net (facts_after net events) conn.now id hop port }
{
    if hop == 1 {
        return cell_missing(standing, conn, id);
    }
    Missing::NotFirst { conn: id, port }
}
