//! What the entries of ports and sources wait for, at which journals are stuck.
ghost use Rattle.std.specs.Prelude.{◌≡◌, List, option_map};
ghost use Rattle.abt_model.specs.Run.{facts_after};
ghost use Rattle.abt_model.specs.declared.event.Event.{Event as EventSpec};
ghost use Rattle.abt_journal.specs.declared.entry.Entry.{Entry as EntrySpec};
ghost use Rattle.abt_net.specs.Topology.{conn_at};
ghost use Rattle.abt_audit.specs.Missing as spec;
ghost use Rattle.abt_audit.specs.Standing.{Stands};
ghost use Rattle.abt_audit.specs.Stuck.{entry_at, item_at};

use crate::finding::{message_missing, step_missing};
use crate::missing::Missing;
use crate::standing::Standing;
use crate::stuck::{entry_at, item_at, spot_of};
use abt_journal_text::Run;
use abt_model::{Event, SourceEntry};
use abt_weave::{Actor, Stuck};

// The step of the first port of a path that an entry of its source goes with, and where that stands.
fn beside_missing(run: &Run, conn: u16, place: u64) -> Missing
    ensures { result ≡ spec.beside_at run.now place (conn_at run.now.net conn) }
{
    let Some(conn) = run.net.conns().get(usize::from(conn)) else {
        return Missing::Nothing;
    };
    match conn.path.as_slice().first() {
        Some(port) => Missing::Step {
            port: *port,
            place,
            spot: spot_of(run, *port, place),
        },
        None => Missing::Nothing,
    }
}

// What an entry of a source misses.
fn entry_missing(
    run: &Run,
    standing: &Standing<'_>,
    conn: u16,
    entry: Option<&SourceEntry>,
) -> Missing
    ensures { (events : List EventSpec) →
        Stands run.now.net events standing.now.world standing.now.sightings →
        result ≡ spec.entry_missing run.now (facts_after run.now.net events) conn
        (option_map (λ own. own.now) entry.entry) }
{
    match entry {
        Some(SourceEntry::Did(Event::Told { conn, seq, granted }, _)) => message_missing(
            standing,
            Event::Told {
                conn: *conn,
                seq: *seq,
                granted: *granted,
            },
        ),
        Some(SourceEntry::Sent { place }) | Some(SourceEntry::Arrived { place, .. }) => {
            beside_missing(run, conn, *place)
        }
        _ => Missing::Nothing,
    }
}

// What an entry of a port misses.
fn port_missing(run: &Run, standing: &Standing<'_>, port: u16, place: u64) -> Missing
    ensures { (events : List EventSpec) →
        Stands run.now.net events standing.now.world standing.now.sightings →
        result ≡ spec.step_missing run.now.net (facts_after run.now.net events) port place
        (option_map (λ (entry : EntrySpec). entry.input) (item_at run.now.journals port place)) }
{
    match item_at(run.journals.ports.as_slice(), port, place) {
        Some(entry) => step_missing(&run.net, standing, port, place, &entry.input),
        None => Missing::Nothing,
    }
}

// What the entry of an actor misses at which its journal is stuck.
pub(crate) fn missing_of(run: &Run, standing: &Standing<'_>, stuck: Stuck) -> Missing
    ensures { (events : List EventSpec) →
        Stands run.now.net events standing.now.world standing.now.sightings →
        result ≡ spec.missing_of run.now (facts_after run.now.net events) stuck.actor stuck.place }
{
    match stuck.actor {
        Actor::Port(port) => port_missing(run, standing, port, stuck.place),
        Actor::Source(source) => {
            let entry = entry_at(run.sources.as_slice(), source, stuck.place);
            entry_missing(run, standing, source, entry)
        }
    }
}
