//! A link worker with a channel of its own, in the net with one port.
use super::fixture::{faithful, first_request, lone_boxes, lone_cells, one_port};
use abt_cell::Rm;
use abt_journal::Seat;
use abt_links::{OpenGate, Parcel, ThreadPlan, link_worker};
use crossbeam_channel::unbounded;
use std::alloc::Global;
use std::sync::Wait;
use std::test::*;

// What the worker that goes by this plan keeps of these parcels.
fn carried<R: Wait>(
    rt: &R,
    alloc: Global,
    plan: ThreadPlan,
    parcels: &[Parcel],
) -> Result<Seat, Fail> {
    let net = one_port(alloc)?;
    let cells = lone_cells(alloc, &net).ok_or("no port")?;
    let boxes = lone_boxes(alloc, &net).ok_or("no box")?;
    let (to, from) = unbounded(alloc)?;
    for parcel in parcels {
        let _ = to.send(rt, *parcel);
    }
    Ok(link_worker(
        rt, alloc, &net, 1, plan, &cells, to, from, &boxes, &OpenGate,
    )?)
}

// The parcel that brings the first request of the connection to a port.
fn request_for(port: u16) -> Result<Parcel, Fail> {
    Ok(Parcel::of(port, &Rm::Request(first_request(100, 0x5258)?)))
}

/// The second parcel isn't one of a message, the third is for a port that isn't there, and the last one comes after the stop.
#[test]
fn a_worker_goes_on_after_parcels_that_are_lost(rt: HostRuntime) -> Result<(), Fail> {
    let octets = [0; 52];
    let parcels = [
        request_for(0)?,
        Parcel::Cell { port: 0, octets },
        request_for(1)?,
        request_for(0)?,
        Parcel::Stop,
        request_for(0)?,
    ];
    let seat = carried(&rt, rt.alloc(), faithful(1), &parcels)?;
    assert_eq!(rt; seat.receipts().len(), 2);
    Ok(())
}

/// The second and the fourth of five are lost, and the third is served twice.
#[test]
fn parcels_are_counted_also_where_they_are_lost(rt: HostRuntime) -> Result<(), Fail> {
    let plan = ThreadPlan {
        workers: 1,
        drop_every: 2,
        repeat_every: 3,
    };
    let parcel = request_for(0)?;
    let parcels = [parcel, parcel, parcel, parcel, parcel, Parcel::Stop];
    let seat = carried(&rt, rt.alloc(), plan, &parcels)?;
    assert_eq!(rt; seat.receipts().len(), 4);
    Ok(())
}

/// The first cell has no message. Of the three requests behind it, the first and the last are lost by their numbers, 2 and 4.
#[test]
fn a_cell_without_a_message_is_counted(rt: HostRuntime) -> Result<(), Fail> {
    let plan = ThreadPlan {
        workers: 1,
        drop_every: 2,
        repeat_every: 0,
    };
    let octets = [0; 52];
    let request = request_for(0)?;
    let parcels = [
        Parcel::Cell { port: 0, octets },
        request,
        request,
        request,
        Parcel::Stop,
    ];
    let seat = carried(&rt, rt.alloc(), plan, &parcels)?;
    assert_eq!(rt; seat.receipts().len(), 1);
    Ok(())
}
