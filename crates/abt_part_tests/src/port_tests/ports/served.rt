use super::super::fixture::{CAPACITY, TAU, net, port, request, same};
use super::{gathered, saw, serve, serves};
use abt_journal::{
    Entry, GatherFault, Journals, PortInput, PortReply, PortState, Seat, ServeFault,
};
use abt_links::{Gate, OpenGate, PortCell};
use abt_net::Net;
use abt_node::{DropCause, Onward};
use std::alloc::Global;
use std::process::Abort;
use std::sync::Wait;
use std::sync::atomic::{AtomicU64, Ordering};
use std::test::Fail;

// Two requests under one number, which ask for 600 and for 400 cells per second.
fn two_requests() -> Result<[PortInput; 2], Fail> {
    Ok([
        PortInput::Request(request(100, 1, 0x5258)?),
        PortInput::Request(request(100, 1, 0x5120)?),
    ])
}

fn cell(alloc: Global) -> Option<PortCell> {
    let state = port(alloc, 0, CAPACITY, &[100], TAU, &[])?;
    Some(PortCell::new(state))
}

// A port at which caller 0 had both requests served, and the caller's seat. Another port has a journal that is too short.
fn serve_two<R: Abort + Wait>(
    rt: &R,
    alloc: Global,
    inputs: &[PortInput; 2],
) -> Option<(PortState, Seat)> {
    let (first_port, other_port) = (cell(alloc)?, cell(alloc)?);
    let mut seat = Seat::new(alloc, 0);
    same(rt, &first_port.port(), &0);
    let passed = PortReply::Requested(Onward::Pass);
    serves(rt, &first_port, &mut seat, &inputs[0], Ok((0, passed)));
    let conflict = PortReply::Requested(Onward::Drop(DropCause::Conflict));
    serves(rt, &first_port, &mut seat, &inputs[1], Ok((1, conflict)));
    saw(rt, &seat, 2, 2);
    let wound = Err(ServeFault::Wound { seen: 2, found: 0 });
    serves(rt, &other_port, &mut seat, &inputs[0], wound);
    saw(rt, &seat, 2, 2);
    Some((first_port.into_state(), seat))
}

// What is gathered of them over a net of one port.
fn gather_two<R: Abort + Wait>(
    rt: &R,
    alloc: Global,
    inputs: &[PortInput; 2],
) -> Option<Result<Journals, GatherFault>> {
    let (state, seat) = serve_two(rt, alloc, inputs)?;
    let net = net(alloc, 1, &[(100, &[0])])?;
    gathered(alloc, &net, [state], [seat])
}

#[test]
fn the_receipts_of_one_caller_are_the_entries(rt: HostRuntime) -> Result<(), Fail> {
    let inputs = two_requests()?;
    let answer = match gather_two(&rt, rt.alloc(), &inputs) {
        Some(answer) => answer,
        None => gather_two(&rt, rt.alloc(), &inputs).ok_or("refused twice")?,
    };
    let journals = answer?;
    let replies = [
        PortReply::Requested(Onward::Pass),
        PortReply::Requested(Onward::Drop(DropCause::Conflict)),
    ];
    assert_eq!(rt; journals.ports.len(), 1);
    same(&rt, &journals.ports[0].len(), &2);
    for place in 0..2 {
        let entry = Entry {
            place: place as u64,
            caller: 0,
            input: inputs[place],
            reply: replies[place],
        };
        stands(&rt, &journals.ports[0], place, &entry);
    }
    Ok(())
}

fn stands(rt: &impl Abort, journal: &[Entry], place: usize, entry: &Entry) {
    same(rt, &journal.get(place), &Some(entry));
}

// What is gathered of the same state without the seat, and over a net without ports.
fn gather_strays<R: Abort + Wait>(
    rt: &R,
    alloc: Global,
    inputs: &[PortInput; 2],
) -> Option<[Option<GatherFault>; 2]> {
    let (state, _seat) = serve_two(rt, alloc, inputs)?;
    let one_port = net(alloc, 1, &[(100, &[0])])?;
    let unsigned = gathered(alloc, &one_port, [state], [])?.err();
    let (state, seat) = serve_two(rt, alloc, inputs)?;
    let no_port = net(alloc, 0, &[])?;
    let portless = gathered(alloc, &no_port, [state], [seat])?.err();
    Some([unsigned, portless])
}

#[test]
fn entries_without_receipts_and_ports_without_a_net_are_refused(
    rt: HostRuntime,
) -> Result<(), Fail> {
    let inputs = two_requests()?;
    let answers = match gather_strays(&rt, rt.alloc(), &inputs) {
        Some(answers) => answers,
        None => gather_strays(&rt, rt.alloc(), &inputs).ok_or("refused twice")?,
    };
    same(
        &rt,
        &answers,
        &[
            Some(GatherFault::Count),
            Some(GatherFault::Foreign { port: 0 }),
        ],
    );
    Ok(())
}

// What is gathered of one port with the seat of another, and of one port with two seats of one caller.
fn gather_others<R: Abort + Wait>(
    rt: &R,
    alloc: Global,
    inputs: &[PortInput; 2],
) -> Option<[Option<GatherFault>; 2]> {
    let net = net(alloc, 1, &[(100, &[0])])?;
    Some([
        gather_anothers(rt, alloc, &net, inputs)?,
        gather_twice(rt, alloc, &net, inputs)?,
    ])
}

fn gather_anothers<R: Abort + Wait>(
    rt: &R,
    alloc: Global,
    net: &Net,
    inputs: &[PortInput; 2],
) -> Option<Option<GatherFault>> {
    let (here, there) = (cell(alloc)?, cell(alloc)?);
    let (mut first, mut second) = (Seat::new(alloc, 0), Seat::new(alloc, 1));
    let passed = PortReply::Requested(Onward::Pass);
    serves(rt, &here, &mut first, &inputs[0], Ok((0, passed)));
    serves(rt, &there, &mut second, &inputs[1], Ok((0, passed)));
    Some(gathered(alloc, net, [here.into_state()], [second])?.err())
}

fn gather_twice<R: Abort + Wait>(
    rt: &R,
    alloc: Global,
    net: &Net,
    inputs: &[PortInput; 2],
) -> Option<Option<GatherFault>> {
    let passed = PortReply::Requested(Onward::Pass);
    let twice = cell(alloc)?;
    let (mut one, mut other) = (Seat::new(alloc, 5), Seat::new(alloc, 5));
    serves(rt, &twice, &mut one, &inputs[0], Ok((0, passed)));
    serves(rt, &twice, &mut other, &inputs[0], Ok((1, passed)));
    Some(gathered(alloc, net, [twice.into_state()], [one, other])?.err())
}

#[test]
fn receipts_of_another_port_and_two_seats_of_one_caller_are_refused(
    rt: HostRuntime,
) -> Result<(), Fail> {
    let inputs = two_requests()?;
    let answers = match gather_others(&rt, rt.alloc(), &inputs) {
        Some(answers) => answers,
        None => gather_others(&rt, rt.alloc(), &inputs).ok_or("refused twice")?,
    };
    same(
        &rt,
        &answers,
        &[
            Some(GatherFault::Missing { port: 0, place: 0 }),
            Some(GatherFault::Count),
        ],
    );
    Ok(())
}

// Three callers at one port, each with one step, and one more of the first: what is gathered, whichever seat comes first.
fn gather_callers<R: Abort + Wait>(
    rt: &R,
    alloc: Global,
    inputs: &[PortInput; 2],
) -> Option<Result<Journals, GatherFault>> {
    let net = net(alloc, 1, &[(100, &[0])])?;
    let cell = cell(alloc)?;
    let (mut a, mut b, mut c) = (
        Seat::new(alloc, 7),
        Seat::new(alloc, 0),
        Seat::new(alloc, 3),
    );
    is_served(rt, &cell, &mut a, &inputs[0]);
    is_served(rt, &cell, &mut b, &inputs[1]);
    is_served(rt, &cell, &mut c, &inputs[0]);
    is_served(rt, &cell, &mut a, &inputs[1]);
    gathered(alloc, &net, [cell.into_state()], [b, a, c])
}

fn is_served<R: Abort + Wait>(rt: &R, cell: &PortCell, seat: &mut Seat, input: &PortInput) {
    assert!(rt; serve(rt, cell, seat, &OpenGate, input).is_ok());
}

#[test]
fn each_entry_names_its_caller_in_the_order_of_the_calls(rt: HostRuntime) -> Result<(), Fail> {
    let inputs = two_requests()?;
    let answer = match gather_callers(&rt, rt.alloc(), &inputs) {
        Some(answer) => answer,
        None => gather_callers(&rt, rt.alloc(), &inputs).ok_or("refused twice")?,
    };
    let journals = answer?;
    let callers = [7, 0, 3, 7];
    assert_eq!(rt; journals.ports.len(), 1);
    same(&rt, &journals.ports[0].len(), &4);
    for (entry, caller) in journals.ports[0].iter().zip(callers) {
        same(&rt, &entry.caller, &caller);
    }
    Ok(())
}

/// A gate that counts the calls of caller 4 at port 0.
#[derive(Drop)]
struct CountingGate {
    before: AtomicU64,
    inside: AtomicU64,
}

impl Gate for CountingGate {
    fn before(&self, caller: u16, port: u16) {
        if caller == 4 && port == 0 {
            self.before.fetch_add(1, Ordering::SeqCst);
        }
    }

    fn inside(&self, caller: u16, port: u16) {
        if caller == 4 && port == 0 && self.before.load(Ordering::SeqCst) == 1 {
            self.inside.fetch_add(1, Ordering::SeqCst);
        }
    }
}

#[test]
fn a_gate_is_passed_before_the_lock_and_inside_it(rt: HostRuntime) -> Result<(), Fail> {
    let input = PortInput::Request(request(100, 1, 0x5258)?);
    let cell = match cell(rt.alloc()) {
        Some(cell) => cell,
        None => cell(rt.alloc()).ok_or("refused twice")?,
    };
    let gate = CountingGate {
        before: AtomicU64::new(0),
        inside: AtomicU64::new(0),
    };
    let mut seat = Seat::new(rt.alloc(), 4);
    let answer = cell.serve(&rt, &mut seat, &gate, input);
    assert!(rt; answer.is_ok() || answer == Err(ServeFault::Memory));
    same(&rt, &gate.before.load(Ordering::SeqCst), &1);
    same(&rt, &gate.inside.load(Ordering::SeqCst), &1);
    Ok(())
}
