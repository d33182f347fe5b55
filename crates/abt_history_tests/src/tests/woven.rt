//! Runs whose journals are woven by a search too, and what the search says of them.
use super::bare::bare;
use super::ends::Left;
use super::fixture::{net, plan};
use super::kept::kept;
use abt_gcra::Verdict;
use abt_history::{NotKept, SiteOf, StationOf};
use abt_journal::{Entry, PortInput, PortReply, PortState};
use abt_model::{Event, Heard, Outcome, Sequence, SourceEntry};
use abt_net::Net;
use abt_weave::weave;
use std::alloc::Global;
use std::mem::size_of;
use std::test::*;

// The events of a run, as the search finds them.
fn events(alloc: Global, net: &Net, left: &Left) -> Result<Sequence<Event>, Fail> {
    let (journals, sources) = left;
    let sources = sources.as_slice();
    if journals.ports.len() != net.capacities().len() || sources.len() != net.conns().len() {
        return Err(Fail::from("other journals than those of the net"));
    }
    Ok(weave(alloc, net, journals, sources)?)
}

fn port(left: &Left, number: usize) -> &[Entry] {
    match left.0.ports.get(number) {
        Some(entries) => entries.as_slice(),
        None => &[],
    }
}

fn source(left: &Left) -> &[SourceEntry] {
    match left.1.as_slice().first() {
        Some(journal) => journal.entries.as_slice(),
        None => &[],
    }
}

// How many cells of the source conformed at the first port.
fn conforming(left: &Left) -> usize {
    port(left, 0)
        .iter()
        .filter(|entry| entry.reply == PortReply::Arrived(Ok(Verdict::Conforming)))
        .count()
}

// How often the last port took this capacity.
fn taken(left: &Left, capacity: u64) -> usize {
    port(left, 1)
        .iter()
        .filter(|entry| {
            entry.input == PortInput::Capacity(capacity) && entry.reply == PortReply::Capped(Ok(()))
        })
        .count()
}

// How often the source heard a yes that it waited for.
fn raised(left: &Left) -> usize {
    source(left)
        .iter()
        .filter(|entry| matches!(entry, SourceEntry::Did(_, Outcome::Told(Heard::Raised))))
        .count()
}

// How many entries a source has of requests that it sent.
fn sent(left: &Left) -> usize {
    source(left)
        .iter()
        .filter(|entry| matches!(entry, SourceEntry::Sent { place: _ }))
        .count()
}

// How many of the events are of the second hop.
fn at_hop_2(events: &Sequence<Event>) -> usize {
    events
        .as_slice()
        .iter()
        .filter(|event| {
            matches!(
                event,
                Event::Request {
                    conn: 0,
                    hop: 2,
                    seq: 1
                } | Event::Answer {
                    conn: 0,
                    hop: 2,
                    seq: 1,
                    granted: true
                }
            )
        })
        .count()
}

/// The source starts, asks, sends, hears, and then each cell leaves and arrives: 4 entries and 2 for each cell. The first port has the
/// request, the answer and the cells; the last one the request, the answer and two capacities. The woven events are Start, Ask, Request and
/// Answer at each hop, Turn, Told, and 2 for each cell and 1 for each capacity.
#[test]
fn a_run_without_losses_is_woven(rt: HostRuntime) -> Result<(), Fail> {
    let net = net(rt.alloc()).ok_or("no net")?;
    let left = kept(&rt, rt.alloc(), &net, plan(0, 0, &[512000, 1024000])).ok_or("no run")?;
    assert_eq!(rt; source(&left).len(), 44);
    assert_eq!(rt; port(&left, 0).len(), 22);
    assert_eq!(rt; port(&left, 1).len(), 4);
    assert_eq!(rt; conforming(&left), 20);
    assert_eq!(rt; (taken(&left, 512000), taken(&left, 1024000)), (1, 1));
    let events = events(rt.alloc(), &net, &left)?;
    assert_eq!(rt; events.as_slice().len(), 50);
    Ok(())
}

/// The third letter is the first answer to the first port, which is lost; so the source asks again. The fourth is that request at the last
/// port, which serves it twice.
#[test]
fn runs_with_losses_and_repeats_are_woven(rt: HostRuntime) -> Result<(), Fail> {
    let net = net(rt.alloc()).ok_or("no net")?;
    for (drop_every, repeat_every) in [(3, 4), (2, 3), (5, 2), (0, 1), (7, 1)] {
        let plan = plan(drop_every, repeat_every, &[512000, 1024000]);
        let left = kept(&rt, rt.alloc(), &net, plan).ok_or("no run")?;
        assert_eq!(rt; raised(&left), 1);
        assert_eq!(rt; conforming(&left), 20);
        let events = events(rt.alloc(), &net, &left)?;
        let served = port(&left, 1).len();
        assert_eq!(rt; at_hop_2(&events), served.saturating_sub(2));
    }
    Ok(())
}

/// The first letter is lost, the second one is that of the repeat, and so on: none of the three letters of a request comes through.
#[test]
fn a_run_in_which_all_letters_are_lost_ends(rt: HostRuntime) -> Result<(), Fail> {
    let net = net(rt.alloc()).ok_or("no net")?;
    let left = kept(&rt, rt.alloc(), &net, plan(1, 0, &[])).ok_or("no run")?;
    assert_eq!(rt; raised(&left), 0);
    assert_eq!(rt; sent(&left), 1001);
    assert_eq!(rt; port(&left, 1).len(), 0);
    let events = events(rt.alloc(), &net, &left)?;
    assert_eq!(rt; at_hop_2(&events), 0);
    Ok(())
}

#[test]
fn a_run_that_keeps_no_history_does_the_same(rt: HostRuntime) -> Result<(), Fail> {
    let net = net(rt.alloc()).ok_or("no net")?;
    let left = bare(&rt, rt.alloc(), &net, plan(0, 0, &[512000, 1024000])).ok_or("no run")?;
    assert_eq!(rt; source(&left).len(), 44);
    assert_eq!(rt; port(&left, 0).len(), 22);
    assert_eq!(rt; port(&left, 1).len(), 4);
    let events = events(rt.alloc(), &net, &left)?;
    assert_eq!(rt; events.as_slice().len(), 50);
    Ok(())
}

/// A port and a source that keep no history have no bytes for one.
#[test]
fn what_is_not_kept_has_no_bytes(rt: HostRuntime) -> Result<(), Fail> {
    assert_eq!(rt; size_of::<NotKept>(), 0);
    assert_eq!(rt; size_of::<StationOf<NotKept>>(), size_of::<PortState>());
    Ok(())
}
