//! Ports under locks, and what is gathered of them. If memory is refused, `None` is given, and the test asks again.
mod foreign;
mod served;

use super::fixture::same;
use abt_journal::{
    GatherFault, Journals, PortInput, PortReply, PortState, Seat, ServeFault, gather,
};
use abt_links::{Gate, OpenGate, PortCell};
use abt_net::Net;
use std::alloc::Global;
use std::process::Abort;
use std::sync::Wait;

/// One call. If memory is refused the seat is unchanged, and the same call is made again.
fn serve<R: Abort + Wait, G: Gate>(
    rt: &R,
    cell: &PortCell,
    seat: &mut Seat,
    gate: &G,
    input: &PortInput,
) -> Result<(u64, PortReply), ServeFault> {
    let receipts = seat.receipts().len();
    match cell.serve(rt, seat, gate, *input) {
        Err(ServeFault::Memory) => {}
        answer => return answer,
    }
    same(rt, &seat.receipts().len(), &receipts);
    cell.serve(rt, seat, gate, *input)
}

/// What is gathered of these states and seats, and `None` if memory was refused.
fn gathered<const S: usize, const T: usize>(
    alloc: Global,
    net: &Net,
    states: [PortState; S],
    seats: [Seat; T],
) -> Option<Result<Journals, GatherFault>> {
    let states = Vec::from_array(alloc, states).ok()?;
    let seats = Vec::from_array(alloc, seats).ok()?;
    match gather(alloc, net, states, seats) {
        Err(GatherFault::Memory) => None,
        answer => Some(answer),
    }
}

/// Demands what a call through an open gate answers.
fn serves<R: Abort + Wait>(
    rt: &R,
    cell: &PortCell,
    seat: &mut Seat,
    input: &PortInput,
    expected: Result<(u64, PortReply), ServeFault>,
) {
    assert_eq!(rt; serve(rt, cell, seat, &OpenGate, input), expected);
}

/// Demands what a seat has seen of port 0, and how many receipts it has.
fn saw(rt: &impl Abort, seat: &Seat, seen: u64, receipts: usize) {
    same(
        rt,
        &(seat.seen(0), seat.receipts().len()),
        &(seen, receipts),
    );
}
