//! Ports of switches. What a call answers is compared in a helper, which says nothing to the prover, so that a story's proof
//! doesn't carry each answer on to the next call.
ghost use Rattle.std.specs.Prelude.{◌≡◌, ◌<◌, ◌≤◌, IfOk};
ghost use Rattle.std.specs.Option.{ForSome};

use super::{channel, same};
use abt_cell::{Answer, Request, Vc};
use abt_gcra::Verdict;
use abt_ledger::Ledger;
use abt_node::{
    AddFault, ArriveFault, Back, CapacityFault, Decided, DropCause, Grant, Onward, Port,
};
use abt_rate::{Rate, TAU_MAX};
use std::alloc::Global;
use std::process::Abort;
use std::test::Fail;

/// The capacity of a link of 1,000 cells per second, in units.
const CAPACITY: u64 = 512000;

/// The tolerance of an ingress, in picoseconds.
const TAU: u64 = 200;

// By docs/RULES.md, "Rates": codes 5120, 5258 and 53e8 are 400, 600 and 1,000 cells per second.
fn rates() -> (Rate, Rate, Rate) {
    (
        Rate::from_code(0x5120),
        Rate::from_code(0x5258),
        Rate::from_code(0x53e8),
    )
}

fn request(vc: Vc, seq: u32, floor: Rate, ask: Rate) -> Result<Request, Fail> {
    Ok(Request::new(vc, seq, floor, ask).ok_or("no such request")?)
}

// A port; if memory was refused, it is asked for again.
fn new_port(alloc: Global) -> Result<Port, Fail> {
    if let Ok(port) = Port::new(alloc, 7, CAPACITY) {
        return Ok(port);
    }
    Ok(Port::new(alloc, 7, CAPACITY)?)
}

// Adds a connection; if memory was refused, nothing has changed, and the same call then succeeds.
fn add(rt: &impl Abort, port: &mut Port, vc: Vc, tau: Option<u64>)
    requires { ForSome tau (λ t. t ≤ TAU_MAX) }
{
    let (count, total) = (port.count(), port.total());
    let mut added = port.add(vc, tau);
    if added == Err(AddFault::Memory) {
        stands(rt, port, count, total);
        holds(rt, port, vc, None);
        added = port.add(vc, tau);
    }
    // What is known of an added connection bounds the count.
    assert_eq!(rt; added, Ok(()));
    same(rt, &port.count(), &(count + 1));
}

// Demands how many connections there are, and what they hold in all.
fn stands(rt: &impl Abort, port: &Port, count: usize, total: u64) {
    same(rt, &(port.count(), port.total()), &(count, total));
}

fn holds(rt: &impl Abort, port: &Port, vc: Vc, held: Option<Rate>) {
    same(rt, &port.held(vc), &held);
}

fn newest_is(rt: &impl Abort, port: &Port, vc: Vc, newest: u32) {
    same(rt, &port.newest(vc), &Some(newest));
}

fn is_open(rt: &impl Abort, port: &Port, vc: Vc, expected: bool) {
    same(rt, &port.is_open(vc), &Some(expected));
}

fn tau_is(rt: &impl Abort, port: &Port, vc: Vc, expected: Option<Option<u64>>) {
    same(rt, &port.tau(vc), &expected);
}

fn is_made_of(rt: &impl Abort, port: &Port, id: u16, capacity: u64) {
    same(rt, &(port.id(), port.capacity()), &(id, capacity));
}

fn counts(rt: &impl Abort, port: &Port, count: usize) {
    same(rt, &port.count(), &count);
}

fn add_fails(rt: &impl Abort, port: &mut Port, vc: Vc, tau: Option<u64>, fault: AddFault)
    requires { ForSome tau (λ t. t ≤ TAU_MAX) }
{
    same(rt, &port.add(vc, tau), &Err(fault));
}

fn requested(rt: &impl Abort, port: &mut Port, request: &Request, expected: Onward) {
    same(rt, &port.request(request), &expected);
}

fn dropped(rt: &impl Abort, port: &mut Port, request: &Request, cause: DropCause) {
    requested(rt, port, request, Onward::Drop(cause));
}

fn refused(rt: &impl Abort, port: &mut Port, request: &Request) {
    requested(
        rt,
        port,
        request,
        Onward::Refuse(Answer::of(request, false)),
    );
}

fn answered(rt: &impl Abort, port: &mut Port, request: &Request, granted: bool, expected: Back) {
    same(rt, &port.answer(&Answer::of(request, granted)), &expected);
}

fn sized(rt: &impl Abort, port: &mut Port, capacity: u64, expected: Result<(), CapacityFault>) {
    same(rt, &port.set_capacity(capacity), &expected);
}

fn arrived(
    rt: &impl Abort,
    port: &mut Port,
    vc: Vc,
    at: u64,
    expected: Result<Verdict, ArriveFault>,
) {
    same(rt, &port.arrive(vc, at), &expected);
}

#[test]
fn an_ingress_answers_by_the_first_cause(rt: HostRuntime) -> Result<(), Fail> {
    let (ingress, transit) = (channel(100)?, channel(101)?);
    let mut port = new_port(rt.alloc())?;
    add(&rt, &mut port, ingress, Some(TAU));
    add(&rt, &mut port, transit, None);
    add_fails(&rt, &mut port, ingress, Some(TAU), AddFault::Known);
    add_fails(&rt, &mut port, ingress, None, AddFault::Known);
    ask_by_the_first_cause(&rt, &mut port, ingress)?;
    arrive_by_the_first_cause(&rt, &mut port, ingress, transit);
    call_for_a_stranger(&rt, &mut port, channel(102)?)
}

// Requests 1 and 2 of an ingress that has asked for nothing, and answers that it does not await.
fn ask_by_the_first_cause(rt: &impl Abort, port: &mut Port, ingress: Vc) -> Result<(), Fail> {
    let (rest, most, all) = rates();
    let first = request(ingress, 1, Rate::ZERO, most)?;
    requested(rt, port, &first, Onward::Pass);
    let other_ask = request(ingress, 1, Rate::ZERO, rest)?;
    dropped(rt, port, &other_ask, DropCause::Conflict);
    let other_floor = request(ingress, 1, rest, most)?;
    dropped(rt, port, &other_floor, DropCause::Conflict);
    let above = request(ingress, 2, all, all)?;
    dropped(rt, port, &above, DropCause::FloorAbove);
    newest_is(rt, port, ingress, 1);
    let nothing = request(ingress, 2, Rate::ZERO, Rate::ZERO)?;
    requested(rt, port, &nothing, Onward::Pass);
    dropped(rt, port, &first, DropCause::Stale);

    answered(rt, port, &first, false, Back::Drop(DropCause::Stale));
    let third = request(ingress, 3, Rate::ZERO, rest)?;
    answered(rt, port, &third, true, Back::Drop(DropCause::Conflict));
    Ok(())
}

// Cells of an ingress that holds nothing, and one of a connection that only passes through.
fn arrive_by_the_first_cause(rt: &impl Abort, port: &mut Port, ingress: Vc, transit: Vc) {
    arrived(rt, port, ingress, 5, Ok(Verdict::NoRate));
    arrived(rt, port, ingress, 4, Err(ArriveFault::ClockBack));
    // The greatest moment of an arrival is 2^62 (docs/RULES.md, "Limits").
    arrived(
        rt,
        port,
        ingress,
        4611686018427387905,
        Err(ArriveFault::TimeRange),
    );
    arrived(rt, port, ingress, 4611686018427387904, Ok(Verdict::NoRate));
    arrived(rt, port, transit, 5, Err(ArriveFault::NotIngress));
}

fn call_for_a_stranger(rt: &impl Abort, port: &mut Port, stranger: Vc) -> Result<(), Fail> {
    let unknown = request(stranger, 1, Rate::ZERO, Rate::from_code(0x5120))?;
    dropped(rt, port, &unknown, DropCause::UnknownVc);
    answered(rt, port, &unknown, true, Back::Drop(DropCause::UnknownVc));
    arrived(rt, port, stranger, 5, Err(ArriveFault::UnknownVc));
    Ok(())
}

#[test]
fn a_no_gives_back_what_is_held_above_the_floor(rt: HostRuntime) -> Result<(), Fail> {
    let (rest, most, all) = rates();
    let (raised, waiting) = (channel(100)?, channel(101)?);
    let mut port = new_port(rt.alloc())?;
    add(&rt, &mut port, raised, Some(TAU));
    add(&rt, &mut port, waiting, None);
    requested(
        &rt,
        &mut port,
        &request(raised, 1, Rate::ZERO, rest)?,
        Onward::Pass,
    );
    let rise = request(raised, 2, rest, all)?;
    requested(&rt, &mut port, &rise, Onward::Pass);
    stands(&rt, &port, 2, 512000);
    let asks = request(waiting, 1, Rate::ZERO, most)?;
    refused(&rt, &mut port, &asks);
    is_open(&rt, &port, waiting, false);
    holds(&rt, &port, waiting, Some(Rate::ZERO));

    answered(&rt, &mut port, &rise, false, Back::Pass);
    holds(&rt, &port, raised, Some(rest));
    stands(&rt, &port, 2, 204800);
    answered(&rt, &mut port, &rise, false, Back::Pass);
    answered(&rt, &mut port, &rise, true, Back::Drop(DropCause::Conflict));
    refused(&rt, &mut port, &rise);
    refused(&rt, &mut port, &asks);

    // Shut, it is policed by its floor: 400 cells per second are 2.5 ms apart.
    arrived(&rt, &mut port, raised, 0, Ok(Verdict::Conforming));
    arrived(&rt, &mut port, raised, 2499999799, Ok(Verdict::TooEarly));
    arrived(&rt, &mut port, raised, 2499999800, Ok(Verdict::Conforming));
    Ok(())
}

// A link is lowered to what is reserved on it and no further. It then refuses a rise, and can be lowered again once the source
// has given way.
#[test]
fn a_link_shrinks_to_what_is_reserved(rt: HostRuntime) -> Result<(), Fail> {
    let (_, most, all) = rates();
    let asker = channel(100)?;
    let mut port = new_port(rt.alloc())?;
    add(&rt, &mut port, asker, None);
    let first = request(asker, 1, Rate::ZERO, most)?;
    requested(&rt, &mut port, &first, Onward::Pass);
    sized(&rt, &mut port, 307199, Err(CapacityFault::BelowSum));
    is_made_of(&rt, &port, 7, 512000);
    sized(&rt, &mut port, 307200, Ok(()));
    is_made_of(&rt, &port, 7, 307200);
    stands(&rt, &port, 1, 307200);
    refused(&rt, &mut port, &request(asker, 2, Rate::ZERO, all)?);
    dropped(&rt, &mut port, &first, DropCause::Stale);
    sized(&rt, &mut port, 0, Ok(()));
    sized(
        &rt,
        &mut port,
        1152921504606846977,
        Err(CapacityFault::AboveLimit),
    );
    is_made_of(&rt, &port, 7, 0);
    stands(&rt, &port, 1, 0);
    Ok(())
}

#[test]
fn a_yes_leaves_the_port_as_it_is(rt: HostRuntime) -> Result<(), Fail> {
    let (rest, most, _) = rates();
    let (raised, stranger) = (channel(100)?, channel(101)?);
    let mut port = new_port(rt.alloc())?;
    add(&rt, &mut port, raised, None);
    let asks = request(raised, 1, Rate::ZERO, most)?;
    requested(&rt, &mut port, &asks, Onward::Pass);
    answered(&rt, &mut port, &asks, true, Back::Pass);
    let other = request(raised, 1, Rate::ZERO, rest)?;
    answered(
        &rt,
        &mut port,
        &other,
        false,
        Back::Drop(DropCause::Conflict),
    );
    is_made_of(&rt, &port, 7, 512000);
    stands(&rt, &port, 1, 307200);
    newest_is(&rt, &port, raised, 1);
    is_open(&rt, &port, raised, true);
    tau_is(&rt, &port, raised, Some(None));
    tau_is(&rt, &port, stranger, None);
    holds(&rt, &port, stranger, None);
    Ok(())
}

#[test]
fn a_full_port_serves_those_it_knows(rt: HostRuntime) -> Result<(), Fail> {
    let (rest, ..) = rates();
    let mut port = new_port(rt.alloc())?;
    for vci in 0..1024u16 {
        add(&rt, &mut port, channel(vci)?, Some(TAU));
    }
    let (last, beyond) = (channel(1023)?, channel(1024)?);
    add_fails(&rt, &mut port, beyond, None, AddFault::Full);
    add_fails(&rt, &mut port, last, None, AddFault::Known);
    counts(&rt, &port, 1024);
    tau_is(&rt, &port, last, Some(Some(200)));
    requested(
        &rt,
        &mut port,
        &request(last, 1, Rate::ZERO, rest)?,
        Onward::Pass,
    );
    holds(&rt, &port, last, Some(rest));
    Ok(())
}

#[test]
fn a_full_port_answers_each_connection_for_itself(rt: HostRuntime) -> Result<(), Fail> {
    let mut port = new_port(rt.alloc())?;
    for vci in 0..1024u16 {
        let tau = if vci == 512 { Some(TAU) } else { None };
        add(&rt, &mut port, channel(vci)?, tau);
    }
    let beyond = channel(1024)?;
    add_fails(&rt, &mut port, beyond, None, AddFault::Full);
    holds(&rt, &port, beyond, None);
    ask_on_a_full_port(&rt, &mut port, channel(0)?, channel(512)?, channel(1023)?)
}

fn ask_on_a_full_port(
    rt: &impl Abort,
    port: &mut Port,
    first: Vc,
    middle: Vc,
    last: Vc,
) -> Result<(), Fail> {
    // 400 and 600 of 1,000 cells per second: nothing is left for the last one.
    let (rest, most, _) = rates();
    let asks = request(first, 1, Rate::ZERO, rest)?;
    requested(rt, port, &asks, Onward::Pass);
    requested(
        rt,
        port,
        &request(middle, 7, Rate::ZERO, most)?,
        Onward::Pass,
    );
    refused(rt, port, &request(last, 3, Rate::ZERO, rest)?);
    newest_is(rt, port, first, 1);
    newest_is(rt, port, middle, 7);
    newest_is(rt, port, last, 3);
    for vci in [1, 511, 513, 1022] {
        newest_is(rt, port, channel(vci)?, 0);
    }
    arrived(rt, port, first, 5, Err(ArriveFault::NotIngress));
    arrived(rt, port, middle, 5, Ok(Verdict::Conforming));

    // A no to the first one makes room.
    answered(rt, port, &asks, false, Back::Pass);
    requested(rt, port, &request(last, 4, Rate::ZERO, rest)?, Onward::Pass);
    holds(rt, port, first, Some(Rate::ZERO));
    holds(rt, port, middle, Some(most));
    holds(rt, port, last, Some(rest));
    Ok(())
}

// A request that is decided by a grant that decided none yet.
fn first_request(vc: Vc, ask: Rate) -> Result<Request, Fail>
    ensures { IfOk result (λ q. (0 < q.seq) × (q.floor ≡ 0)) }
{
    Ok(Request::new(vc, 1, Rate::ZERO, ask).ok_or("no such request")?)
}

#[test]
fn a_grant_opens_and_shuts(rt: HostRuntime) -> Result<(), Fail> {
    let (_, most, all) = rates();
    let fits = first_request(channel(100)?, most)?;
    let is_too_much = first_request(channel(101)?, all)?;
    let mut ledger = Ledger::new(CAPACITY);
    let first = Grant::first(ledger.open());
    same(&rt, &(first.seq(), first.held()), &(0, Rate::ZERO));
    let open = match first.decide(&mut ledger, &fits) {
        Decided::Opened(open) => open,
        Decided::Refused(shut) => {
            shut.close(&mut ledger);
            panic!(rt; "600 of 1,000 cells per second don't fit")
        }
    };
    same(&rt, &(open.seq(), open.held()), &(1, most));
    match Grant::first(ledger.open()).decide(&mut ledger, &is_too_much) {
        Decided::Refused(shut) => {
            same(&rt, &(shut.ask(), shut.held()), &(all, Rate::ZERO));
            shut.close(&mut ledger);
        }
        Decided::Opened(other) => {
            other.close(&mut ledger);
            open.close(&mut ledger);
            panic!(rt; "1,600 of 1,000 cells per second fit")
        }
    }
    let shut = open.shut(&mut ledger);
    same(
        &rt,
        &(shut.floor(), shut.ask(), shut.held()),
        &(Rate::ZERO, most, Rate::ZERO),
    );
    shut.close(&mut ledger);
    same(&rt, &ledger.total(), &0);
    Ok(())
}
