//! The journal of a port, and a caller's receipts.
use super::fixture::{CAPACITY, TAU, port, request, same, says};
use abt_cell::{Answer, Vc};
use abt_gcra::Verdict;
use abt_journal::{Entry, PortInput, PortReply, PortState, Seat, ServeFault};
use abt_node::{ArriveFault, Back, CapacityFault, DropCause, Onward};
use std::alloc::Global;
use std::process::Abort;
use std::test::Fail;

// A port that is the ingress of the channel; if memory was refused, it is asked for again.
fn new_state(alloc: Global) -> Result<PortState, Fail> {
    let state = match port(alloc, 0, CAPACITY, &[100], TAU, &[]) {
        Some(state) => Some(state),
        None => port(alloc, 0, CAPACITY, &[100], TAU, &[]),
    };
    Ok(state.ok_or("refused twice")?)
}

// One step; if memory was refused, nothing has changed, and the same call then succeeds.
fn step(
    rt: &impl Abort,
    state: &mut PortState,
    caller: u16,
    input: &PortInput,
) -> Result<(u64, PortReply), Fail> {
    let before = state.entries().len();
    if let Ok(answer) = state.step(caller, *input) {
        return Ok(answer);
    }
    same(rt, &state.entries().len(), &before);
    Ok(state.step(caller, *input)?)
}

// One step of a seat; if memory was refused, nothing has changed, and the same call then succeeds.
fn seat_step(
    rt: &impl Abort,
    seat: &mut Seat,
    state: &mut PortState,
    input: &PortInput,
) -> Result<(u64, PortReply), ServeFault> {
    let (entries, receipts) = (state.entries().len(), seat.receipts().len());
    match seat.step(0, state, *input) {
        Err(ServeFault::Memory) => {}
        answer => return answer,
    }
    same(
        rt,
        &(state.entries().len(), seat.receipts().len()),
        &(entries, receipts),
    );
    seat.step(0, state, *input)
}

/// Who has a step done, what the port is given, and what it has to reply.
type Step = (u16, PortInput, PortReply);

// Demands what a port that did nothing replies to one step after the other.
fn all_step(rt: &impl Abort, state: &mut PortState, steps: &[Step]) -> Result<(), Fail> {
    for (place, (caller, input, reply)) in steps.iter().enumerate() {
        let answer = step(rt, state, *caller, input)?;
        same(rt, &answer, &(place as u64, *reply));
    }
    Ok(())
}

fn has_entries(rt: &impl Abort, state: &PortState, steps: &[Step]) {
    for (place, (caller, input, reply)) in steps.iter().enumerate() {
        let entry = Entry {
            place: place as u64,
            caller: *caller,
            input: *input,
            reply: *reply,
        };
        has_entry(rt, state, place, &entry);
    }
}

// By docs/RULES.md, "Node" and "GCRA": the first request fits and passes; another ask under its number conflicts; the yes
// to it passes; the first cell conforms at any moment, and one before it is refused.
#[test]
fn a_port_keeps_a_journal_of_all_that_it_replied(rt: HostRuntime) -> Result<(), Fail> {
    let (first, other) = (request(100, 1, 0x5258)?, request(100, 1, 0x5120)?);
    let vc = first.vc();
    let rows = [
        (
            7,
            PortInput::Request(first),
            PortReply::Requested(Onward::Pass),
        ),
        (
            8,
            PortInput::Request(other),
            PortReply::Requested(Onward::Drop(DropCause::Conflict)),
        ),
        (
            7,
            PortInput::Answer(Answer::of(&first, true)),
            PortReply::Answered(Back::Pass),
        ),
        (
            7,
            PortInput::Arrive { vc, at: 5 },
            PortReply::Arrived(Ok(Verdict::Conforming)),
        ),
        (
            8,
            PortInput::Arrive { vc, at: 4 },
            PortReply::Arrived(Err(ArriveFault::ClockBack)),
        ),
    ];
    let mut state = new_state(rt.alloc())?;
    all_step(&rt, &mut state, &rows)?;
    opened_as(&rt, &state, vc);
    has_entries(&rt, &state, &rows);
    same(&rt, &state.into_entries().len(), &5);
    Ok(())
}

// By docs/RULES.md, "Node": a capacity below the sum is refused, the sum itself is set, and then 1,000 cells per second don't fit, so that
// nothing is held; the greatest capacity is 2^60. What the journal began with stays.
#[test]
fn a_port_goes_by_its_new_capacity_and_keeps_that_of_its_opening(
    rt: HostRuntime,
) -> Result<(), Fail> {
    let (first, more) = (request(100, 1, 0x5258)?, request(100, 2, 0x53e8)?);
    let rows = [
        (
            9,
            PortInput::Request(first),
            PortReply::Requested(Onward::Pass),
        ),
        (
            9,
            PortInput::Capacity(307_199),
            PortReply::Capped(Err(CapacityFault::BelowSum)),
        ),
        (9, PortInput::Capacity(307_200), PortReply::Capped(Ok(()))),
        (
            9,
            PortInput::Request(more),
            PortReply::Requested(Onward::Refuse(Answer::of(&more, false))),
        ),
        (
            9,
            PortInput::Capacity(1_152_921_504_606_846_977),
            PortReply::Capped(Err(CapacityFault::AboveLimit)),
        ),
        (9, PortInput::Capacity(0), PortReply::Capped(Ok(()))),
    ];
    let mut state = new_state(rt.alloc())?;
    all_step(&rt, &mut state, &rows)?;
    opened_as(&rt, &state, first.vc());
    same(&rt, &state.into_entries().len(), &6);
    Ok(())
}

// Demands what a port was at its opening: its number, capacity, and one connection, of tau 200.
fn opened_as(rt: &impl Abort, state: &PortState, vc: Vc) {
    same(
        rt,
        &(state.id(), state.opening_capacity(), state.count()),
        &(0, CAPACITY, 1),
    );
    same(rt, &state.tau(vc), &Some(Some(200)));
}

// Demands that an entry stands at its place, and at no other.
fn has_entry(rt: &impl Abort, state: &PortState, place: usize, entry: &Entry) {
    same(rt, &state.entries().get(place), &Some(entry));
    assert!(rt; state.has(entry));
    let moved = Entry { place: 9, ..*entry };
    assert!(rt; !state.has(&moved));
}

#[test]
fn a_seat_keeps_receipts_and_knows_a_journal_that_is_too_short(
    rt: HostRuntime,
) -> Result<(), Fail> {
    let input = PortInput::Request(request(100, 1, 0x5258)?);
    let passed = PortReply::Requested(Onward::Pass);
    let mut state = new_state(rt.alloc())?;
    let mut other = new_state(rt.alloc())?;
    let mut seat = Seat::new(rt.alloc(), 3);
    same(&rt, &seat.caller(), &3);
    saw(&rt, &seat, (0, 0), 0);
    steps(&rt, &mut seat, &mut state, &input, Ok((0, passed)));
    same(&rt, &step(&rt, &mut state, 4, &input)?, &(1, passed));
    steps(&rt, &mut seat, &mut state, &input, Ok((2, passed)));
    saw(&rt, &seat, (3, 0), 2);
    has_receipts(&rt, &seat, [0, 2]);

    let wound = Err(ServeFault::Wound { seen: 3, found: 0 });
    steps(&rt, &mut seat, &mut other, &input, wound);
    same(&rt, &other.entries().len(), &0);
    saw(&rt, &seat, (3, 0), 2);
    Ok(())
}

// Demands what a seat's step answers.
fn steps(
    rt: &impl Abort,
    seat: &mut Seat,
    state: &mut PortState,
    input: &PortInput,
    expected: Result<(u64, PortReply), ServeFault>,
) {
    same(rt, &seat_step(rt, seat, state, input), &expected);
}

// Demands what a seat has seen of ports 0 and 1, and how many receipts it has.
fn saw(rt: &impl Abort, seat: &Seat, seen: (u64, u64), receipts: usize) {
    same(rt, &(seat.seen(0), seat.seen(1)), &seen);
    same(rt, &seat.receipts().len(), &receipts);
}

// Demands that the receipts of caller 3 are of port 0, at these places.
fn has_receipts(rt: &impl Abort, seat: &Seat, places: [u64; 2]) {
    for (receipt, place) in seat.receipts().iter().zip(places) {
        same(rt, &(receipt.port, receipt.entry.caller), &(0, 3));
        same(rt, &receipt.entry.place, &place);
    }
}

#[test]
fn faults_say_what_is_wrong(rt: HostRuntime) -> Result<(), Fail> {
    let rows = [
        (
            ServeFault::Wound { seen: 2, found: 0 },
            "the journal has 0 entries, and 2 were seen of it",
        ),
        (ServeFault::Memory, "out of memory"),
    ];
    for (fault, words) in rows {
        says(&rt, rt.alloc(), &fault, words)?;
    }
    Ok(())
}
