use super::super::fixture::{CAPACITY, TAU, net, port, same, says};
use super::gathered;
use abt_journal::{GatherFault, PortState};
use abt_net::Net;
use std::alloc::Global;
use std::process::Abort;
use std::test::Fail;

/// How a port was made.
type Made<'a> = (u16, u64, &'a [u16], u64, &'a [u16]);

/// The ports of the net below: by number, capacity, connections that begin there, their tau, and the others.
const FIRST: Made<'static> = (0, CAPACITY, &[100, 102], TAU, &[101]);

const SECOND: Made<'static> = (1, CAPACITY, &[101], TAU, &[102]);

// Two ports: 100 visits the first, 101 the second and then the first, 102 the first and then the second.
fn two_ports(alloc: Global) -> Option<Net> {
    net(alloc, 2, &[(100, &[0]), (101, &[1, 0]), (102, &[0, 1])])
}

// A port that did nothing, made so.
fn port_made(alloc: Global, made: &Made) -> Option<PortState> {
    let (id, capacity, ingress, tau, transit) = *made;
    port(alloc, id, capacity, ingress, tau, transit)
}

// What is gathered of two such ports.
fn gather_made(alloc: Global, made: [Made; 2]) -> Option<Option<GatherFault>> {
    let [first, second] = made;
    let states = [port_made(alloc, &first)?, port_made(alloc, &second)?];
    fault_of(alloc, &two_ports(alloc)?, states)
}

fn fault_of<const S: usize>(
    alloc: Global,
    net: &Net,
    states: [PortState; S],
) -> Option<Option<GatherFault>> {
    Some(gathered(alloc, net, states, [])?.err())
}

#[test]
fn a_port_is_the_nets_by_number_capacity_and_connections_with_their_tau(
    rt: HostRuntime,
) -> Result<(), Fail> {
    let alloc = rt.alloc();
    is_taken_as(&rt, alloc, FIRST, None)?;
    is_taken_as(&rt, alloc, (0, CAPACITY, &[102, 100], TAU, &[101]), None)?;
    is_foreign(&rt, alloc, (1, CAPACITY, &[100, 102], TAU, &[101]))?;
    is_foreign(&rt, alloc, (0, CAPACITY + 1, &[100, 102], TAU, &[101]))?;
    is_foreign(&rt, alloc, (0, CAPACITY, &[100, 102], TAU + 1, &[101]))?;
    is_foreign(&rt, alloc, (0, CAPACITY, &[100, 102, 101], TAU, &[]))?;
    is_foreign(&rt, alloc, (0, CAPACITY, &[100], TAU, &[101, 102]))?;
    is_foreign(&rt, alloc, (0, CAPACITY, &[100, 102], TAU, &[]))?;
    is_foreign(&rt, alloc, (0, CAPACITY, &[100, 102], TAU, &[101, 103]))?;
    is_foreign(&rt, alloc, (0, CAPACITY, &[100, 103], TAU, &[101]))?;
    is_foreign(&rt, alloc, SECOND)
}

// Demands what is gathered where the first port is made so.
fn is_taken_as(
    rt: &impl Abort,
    alloc: Global,
    made: Made,
    expected: Option<GatherFault>,
) -> Result<(), Fail> {
    let answer = match gather_made(alloc, [made, SECOND]) {
        Some(answer) => answer,
        None => gather_made(alloc, [made, SECOND]).ok_or("refused twice")?,
    };
    same(rt, &answer, &expected);
    Ok(())
}

fn is_foreign(rt: &impl Abort, alloc: Global, made: Made) -> Result<(), Fail> {
    is_taken_as(rt, alloc, made, Some(GatherFault::Foreign { port: 0 }))
}

// What is gathered of the net's first port alone, of both with one more, and of both with a wrong second one.
fn gather_numbers(alloc: Global) -> Option<[Option<GatherFault>; 3]> {
    let net = two_ports(alloc)?;
    Some([
        gather_fewer(alloc, &net)?,
        gather_more(alloc, &net)?,
        gather_wrong(alloc, &net)?,
    ])
}

fn gather_fewer(alloc: Global, net: &Net) -> Option<Option<GatherFault>> {
    fault_of(alloc, net, [port_made(alloc, &FIRST)?])
}

fn gather_more(alloc: Global, net: &Net) -> Option<Option<GatherFault>> {
    let states = [
        port_made(alloc, &FIRST)?,
        port_made(alloc, &SECOND)?,
        port_made(alloc, &SECOND)?,
    ];
    fault_of(alloc, net, states)
}

fn gather_wrong(alloc: Global, net: &Net) -> Option<Option<GatherFault>> {
    let wrong = port(alloc, 1, CAPACITY, &[101], TAU, &[])?;
    fault_of(alloc, net, [port_made(alloc, &FIRST)?, wrong])
}

#[test]
fn the_lowest_place_without_its_port_is_named(rt: HostRuntime) -> Result<(), Fail> {
    let answers = match gather_numbers(rt.alloc()) {
        Some(answers) => answers,
        None => gather_numbers(rt.alloc()).ok_or("refused twice")?,
    };
    same(
        &rt,
        &answers,
        &[
            Some(GatherFault::Foreign { port: 1 }),
            Some(GatherFault::Foreign { port: 2 }),
            Some(GatherFault::Foreign { port: 1 }),
        ],
    );
    Ok(())
}

#[test]
fn faults_say_what_is_wrong(rt: HostRuntime) -> Result<(), Fail> {
    let rows = [
        (
            GatherFault::Foreign { port: 3 },
            "the state at 3 is missing, one too many, or not the port of the net",
        ),
        (
            GatherFault::Count,
            "receipts and entries differ in number, or two seats are of one caller",
        ),
        (
            GatherFault::Missing { port: 3, place: 7 },
            "the receipt for place 7 of port 3 is not its caller's next entry",
        ),
        (GatherFault::Memory, "out of memory"),
    ];
    for (fault, words) in rows {
        says(&rt, rt.alloc(), &fault, words)?;
    }
    Ok(())
}
