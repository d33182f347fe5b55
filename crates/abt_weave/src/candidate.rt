//! The event that the next entry of a port can be.
ghost use Rattle.std.specs.Prelude.{◌≡◌, ◌==◌, ◌&&◌, ℕ, List, Some, IfSome, IsNone};
ghost use Rattle.abt_net.specs.Topology.{IsWithinRules};
ghost use Rattle.abt_weave.specs.Comes.{IsYes, IsTurnOf};
ghost use Rattle.abt_weave.specs.Candidates as candidates;
ghost use Rattle.abt_model.specs.declared.entry.SourceEntry.{SourceEntry as SourceEntrySpec};
ghost use Rattle.abt_weave.specs.Candidates.{AreTermsOf, event_by, is_sent_at, cell_arrived_at};
ghost use Rattle.abt_weave.specs.Stops.{IsStop};

use crate::asked::Rates;
use abt_cell::Vc;
use abt_journal::PortInput;
use abt_model::{Event, SourceEntry};
use abt_net::Net;
use abt_rate::Rate;

/// A port on the path of a connection.
#[derive(Clone, Copy)]
pub(crate) struct HopOnPath {
    pub conn: u16,
    pub hop: u16,
}

// The channel that an input is about, if it is about one.
pub(crate) fn channel_of(input: &PortInput) -> Option<Vc>
    ensures { result ≡ candidates.channel_of input.now }
{
    match input {
        PortInput::Request(request) => Some(request.vc()),
        PortInput::Answer(answer) => Some(answer.vc()),
        PortInput::Arrive { vc, .. } => Some(*vc),
        PortInput::Capacity(_) => None,
    }
}

// Where a port stands on the path of the connection that an input is about, if it is about one.
pub(crate) fn stop_of(net: &Net, input: &PortInput, port: u16) -> Option<HopOnPath>
    ensures some { IfSome result (λ stop. IsStop net.now input.now port stop.conn stop.hop) }
    ensures rules { IsWithinRules net.now }
    ensures only { (c hop : ℕ) → IsStop net.now input.now port c hop →
        result ≡ Some (record { conn = c; hop = hop }) }
{
    let conns = net.conns();
    let vc = channel_of(input)?;
    let conn = net.find(vc)?;
    let hop = conns[usize::from(conn)].path.hop_of(port)?;
    Some(HopOnPath {
        conn,
        hop: hop as u16,
    })
}

fn is_sent_at(next: Option<SourceEntry>, place: u64) -> bool
    ensures { result ≡ is_sent_at place next }
{
    match next {
        Some(SourceEntry::Sent { place: named }) => named == place,
        _ => false,
    }
}

// The number of the cell that arrived at this place.
fn cell_arrived_at(next: Option<SourceEntry>, place: u64) -> Option<u64>
    ensures { result ≡ cell_arrived_at place next }
{
    match next {
        Some(SourceEntry::Arrived { cell, place: named }) if named == place => Some(cell),
        _ => None,
    }
}

// Whether a message has these rates.
fn has_rates(rates: Rates, floor: Rate, ask: Rate) -> bool
    ensures { result ≡ (floor == rates.floor && ask == rates.ask) }
{
    floor == rates.floor && ask == rates.ask
}

// The event of a connection that brings this to a port, given the place of its step in the port's journal. The rates
// are those that were asked for under the number of a message.
pub(crate) fn event_of(
    stop: HopOnPath,
    place: u64,
    input: &PortInput,
    rates: Rates,
    next: Option<SourceEntry>,
) -> Option<Event>
    ensures { (placed : List SourceEntrySpec) → AreTermsOf input.now rates.floor rates.ask placed →
        result ≡ event_by stop.conn stop.hop place input.now placed next }
{
    let HopOnPath { conn, hop } = stop;
    match input {
        PortInput::Request(request) => {
            let seq = request.seq();
            if !has_rates(rates, request.floor(), request.ask()) {
                return None;
            }
            if hop == 1 && !is_sent_at(next, place) {
                return None;
            }
            Some(Event::Request { conn, hop, seq })
        }
        PortInput::Answer(answer) => {
            let seq = answer.seq();
            if !has_rates(rates, answer.floor(), answer.ask()) {
                return None;
            }
            let granted = answer.granted();
            Some(Event::Answer {
                conn,
                hop,
                seq,
                granted,
            })
        }
        PortInput::Arrive { at, .. } => {
            if hop != 1 {
                return None;
            }
            let cell = cell_arrived_at(next, place)?;
            Some(Event::Arrive {
                conn,
                cell,
                at: *at,
            })
        }
        PortInput::Capacity(_) => None,
    }
}

// The Turn that lets a yes come to the last hop, if the event is one.
pub(crate) fn own_turn(net: &Net, event: &Event) -> Option<Event>
    ensures some { IfSome result (λ turn. IsTurnOf net.now event.now turn) }
    ensures none { IsNone result → (c seq : ℕ) → IsYes net.now event.now c seq → ⊥ }
{
    let Event::Answer {
        conn,
        hop,
        seq,
        granted: true,
    } = *event
    else {
        return None;
    };
    let conns = net.conns();
    let c = usize::from(conn);
    if c >= conns.len() || usize::from(hop) != conns[c].path.len() {
        return None;
    }
    Some(Event::Turn { conn, seq })
}
