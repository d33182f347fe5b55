use super::{same, same_items, says};
use abt_cell::Vc;
use abt_net::{Conn, Net, NetFault, Path};
use std::alloc::{AllocError, Global};
use std::process::Abort;
use std::test::Fail;

// A connection of VPI 1, with the delay and tau that most rows have.
fn conn(alloc: Global, vci: u16, ports: &[u16]) -> Result<Conn, AllocError> {
    let vc = Vc::new(1, vci).unwrap();
    let path = Path::from(ports.to_vec(alloc)?);
    Ok(Conn {
        vc,
        path,
        delay: 1000,
        tau: 200,
    })
}

// Connections of these VCIs and paths.
fn listed(alloc: Global, given: &[(u16, &[u16])]) -> Result<Vec<Conn>, AllocError> {
    let mut conns = Vec::new(alloc);
    for (vci, ports) in given {
        conns.push(conn(alloc, *vci, ports)?)?;
    }
    Ok(conns)
}

// What is answered to connections over one port of 1000 cell/s.
fn fault_at_one_port(alloc: Global, conns: Vec<Conn>) -> Result<Option<NetFault>, AllocError> {
    let capacities = vec![in alloc; 512000]?;
    Ok(Net::build(alloc, capacities, conns).err())
}

// The fault of connections of these VCIs and paths over one port; if memory was refused, it is asked for again.
fn fault_of_paths(alloc: Global, given: &[(u16, &[u16])]) -> Result<Option<NetFault>, AllocError> {
    match fault_once(alloc, given) {
        Err(_) | Ok(Some(NetFault::Memory)) => fault_once(alloc, given),
        answer => answer,
    }
}

fn fault_once(alloc: Global, given: &[(u16, &[u16])]) -> Result<Option<NetFault>, AllocError> {
    fault_at_one_port(alloc, listed(alloc, given)?)
}

// Demands the fault of connections of these VCIs and paths.
fn is_refused(
    rt: &impl Abort,
    alloc: Global,
    given: &[(u16, &[u16])],
    expected: Option<NetFault>,
) -> Result<(), Fail> {
    same(rt, &fault_of_paths(alloc, given)?, &expected);
    Ok(())
}

// The expected fault of each row is the first rule of docs/RULES.md, "Limits", that it breaks.
#[test]
fn each_broken_rule_has_its_fault_and_the_earliest_is_named(rt: HostRuntime) -> Result<(), Fail> {
    let alloc = rt.alloc();
    let connection = 0;
    is_refused(&rt, alloc, &[(100, &[0])], None)?;
    is_refused(&rt, alloc, &[], None)?;
    let no_port = Some(NetFault::NoPort { connection });
    is_refused(&rt, alloc, &[(100, &[1])], no_port)?;
    let length = Some(NetFault::PathLength { connection });
    is_refused(&rt, alloc, &[(100, &[])], length)?;
    let repeat = Some(NetFault::PathRepeat { connection });
    is_refused(&rt, alloc, &[(100, &[0, 0])], repeat)?;
    let connection = 1;
    let channel = Some(NetFault::VcRepeat { connection });
    is_refused(&rt, alloc, &[(100, &[0]), (100, &[0])], channel)?;
    let no_port = Some(NetFault::NoPort { connection });
    is_refused(&rt, alloc, &[(100, &[]), (101, &[1])], no_port)?;
    let length = Some(NetFault::PathLength { connection });
    is_refused(&rt, alloc, &[(100, &[0, 0]), (101, &[])], length)?;
    let repeat = Some(NetFault::PathRepeat { connection });
    is_refused(&rt, alloc, &[(100, &[0]), (100, &[0, 0])], repeat)?;
    let given: [(u16, &[u16]); 4] = [(100, &[0]), (101, &[0]), (101, &[0]), (100, &[0])];
    let channel = Some(NetFault::VcRepeat { connection: 2 });
    is_refused(&rt, alloc, &given, channel)
}

// The sizes of a net: so many ports of one capacity, so many connections over the first `hops` of
// them, each of one tau and one delay.
#[derive(Clone, Copy)]
struct Sizes {
    ports: usize,
    conns: u16,
    hops: u16,
    tau: u64,
    delay: u64,
    capacity: u64,
}

const SMALL: Sizes = Sizes {
    ports: 17,
    conns: 1,
    hops: 1,
    tau: 200,
    delay: 1000,
    capacity: 512000,
};

// What is answered to a net of these sizes; if memory was refused, it is asked for again.
fn fault_at(alloc: Global, sizes: &Sizes) -> Result<Option<NetFault>, AllocError> {
    match fault_at_once(alloc, sizes) {
        Err(_) | Ok(Some(NetFault::Memory)) => fault_at_once(alloc, sizes),
        answer => answer,
    }
}

fn fault_at_once(alloc: Global, sizes: &Sizes) -> Result<Option<NetFault>, AllocError> {
    let capacities = vec![in alloc; sizes.capacity; sizes.ports]?;
    let mut conns = Vec::new(alloc);
    for vci in 0..sizes.conns {
        let ports: Vec<u16> = (0..sizes.hops).collect(alloc)?;
        conns.push(Conn {
            vc: Vc::new(0, vci).unwrap(),
            path: Path::from(ports),
            delay: sizes.delay,
            tau: sizes.tau,
        })?;
    }
    Ok(Net::build(alloc, capacities, conns).err())
}

// Demands what is answered to a net of these sizes.
fn is_answered(
    rt: &impl Abort,
    alloc: Global,
    row: &str,
    sizes: &Sizes,
    expected: Option<NetFault>,
) -> Result<(), Fail> {
    assert_eq!(rt; fault_at(alloc, sizes)?, expected, "{row}");
    Ok(())
}

// The limits are those of docs/RULES.md, "Limits", in digits.
#[test]
fn limits_hold_to_their_edge_and_not_one_past_it(rt: HostRuntime) -> Result<(), Fail> {
    let alloc = rt.alloc();
    let small = SMALL;
    let past = Some(NetFault::Limit);
    let length = Some(NetFault::PathLength { connection: 0 });
    let sizes = Sizes {
        ports: 256,
        ..small
    };
    is_answered(&rt, alloc, "256 ports", &sizes, None)?;
    let sizes = Sizes {
        ports: 257,
        ..small
    };
    is_answered(&rt, alloc, "257 ports", &sizes, past)?;
    let sizes = Sizes {
        conns: 1024,
        ..small
    };
    is_answered(&rt, alloc, "1,024 connections", &sizes, None)?;
    let sizes = Sizes {
        conns: 1025,
        ..small
    };
    is_answered(&rt, alloc, "1,025 connections", &sizes, past)?;
    let sizes = Sizes { hops: 0, ..small };
    is_answered(&rt, alloc, "no hop", &sizes, length)?;
    let sizes = Sizes { hops: 16, ..small };
    is_answered(&rt, alloc, "16 hops", &sizes, None)?;
    let sizes = Sizes { hops: 17, ..small };
    is_answered(&rt, alloc, "17 hops", &sizes, length)?;
    let sizes = Sizes {
        tau: 1000000000000,
        ..small
    };
    is_answered(&rt, alloc, "tau 1 s", &sizes, None)?;
    let sizes = Sizes {
        tau: 1000000000001,
        ..small
    };
    is_answered(&rt, alloc, "tau past 1 s", &sizes, past)?;
    let sizes = Sizes {
        delay: 10000000000000,
        ..small
    };
    is_answered(&rt, alloc, "delay 10 s", &sizes, None)?;
    let sizes = Sizes {
        delay: 10000000000001,
        ..small
    };
    is_answered(&rt, alloc, "delay past 10 s", &sizes, past)?;
    let sizes = Sizes {
        capacity: 0,
        ..small
    };
    is_answered(&rt, alloc, "capacity 0", &sizes, None)?;
    let sizes = Sizes {
        capacity: 1152921504606846976,
        ..small
    };
    is_answered(&rt, alloc, "capacity 2^60", &sizes, None)?;
    let sizes = Sizes {
        capacity: 1152921504606846977,
        ..small
    };
    is_answered(&rt, alloc, "capacity past 2^60", &sizes, past)
}

// A text may name far more connections than a net can have: each channel is looked up, not compared
// with all before it, so this ends at once.
#[test]
fn a_repeat_is_found_at_the_end_of_200_000_connections(rt: HostRuntime) -> Result<(), Fail> {
    let alloc = rt.alloc();
    for (last, expected) in [
        (199999, NetFault::Limit),
        (0, NetFault::VcRepeat { connection: 199999 }),
    ] {
        let fault = match fault_of_many(alloc, last) {
            Err(_) | Ok(Some(NetFault::Memory)) => fault_of_many(alloc, last)?,
            answer => answer?,
        };
        same(&rt, &fault, &Some(expected));
    }
    Ok(())
}

// The fault of a net of 200,000 connections, the last of them with this channel.
fn fault_of_many(alloc: Global, last: u32) -> Result<Option<NetFault>, AllocError> {
    let mut conns = Vec::new(alloc);
    for number in 0..199999u32 {
        conns.push(numbered(alloc, number)?)?;
    }
    conns.push(numbered(alloc, last)?)?;
    fault_at_one_port(alloc, conns)
}

// A connection whose channel has this number, counted through the VCIs of each VPI.
fn numbered(alloc: Global, number: u32) -> Result<Conn, AllocError> {
    let vc = Vc::new((number / 65536 % 4096) as u16, (number % 65536) as u16).unwrap();
    let path = Path::from(vec![in alloc; 0u16]?);
    Ok(Conn {
        vc,
        path,
        delay: 1000,
        tau: 200,
    })
}

#[test]
fn a_net_gives_back_its_lists_and_finds_each_channel(rt: HostRuntime) -> Result<(), Fail> {
    let paths: [(u16, &[u16]); 2] = [(100, &[1]), (101, &[0, 1])];
    let net = two_ports(rt.alloc(), &paths).ok_or("no net")?;
    gives_back(&rt, &net, &[512000, 307200], &paths);
    finds(&rt, &net, Vc::new(1, 101).unwrap(), Some(1));
    finds(&rt, &net, Vc::new(1, 100).unwrap(), Some(0));
    finds(&rt, &net, Vc::new(0, 100).unwrap(), None);
    Ok(())
}

// A net over two ports; if memory is refused, it is built again.
fn two_ports(alloc: Global, paths: &[(u16, &[u16])]) -> Option<Net> {
    match two_ports_once(alloc, paths) {
        Some(net) => Some(net),
        None => two_ports_once(alloc, paths),
    }
}

fn two_ports_once(alloc: Global, paths: &[(u16, &[u16])]) -> Option<Net> {
    let conns = listed(alloc, paths).ok()?;
    Net::build(alloc, vec![in alloc; 512000, 307200].ok()?, conns).ok()
}

fn gives_back(rt: &impl Abort, net: &Net, capacities: &[u64], paths: &[(u16, &[u16])]) {
    same_items(rt, net.capacities(), capacities);
    same(rt, &net.conns().len(), &paths.len());
    for (given, (vci, ports)) in net.conns().iter().zip(paths) {
        is_conn(rt, given, *vci, ports);
    }
}

fn is_conn(rt: &impl Abort, given: &Conn, vci: u16, ports: &[u16]) {
    same(rt, &given.vc.vci(), &vci);
    same_items(rt, given.path.as_slice(), ports);
    same(rt, &given.path.len(), &ports.len());
    same(rt, &(given.delay, given.tau), &(1000, 200));
}

fn finds(rt: &impl Abort, net: &Net, vc: Vc, conn: Option<u16>) {
    same(rt, &net.find(vc), &conn);
}

// To be run with each allocation refused in turn, set-up included: then a net is answered Memory and
// the next call builds it, and each other fault is answered all the same.
#[test]
fn want_of_memory_is_answered_last_and_the_next_call_succeeds(rt: HostRuntime) -> Result<(), Fail> {
    let alloc = rt.alloc();
    let rows = [
        (111, 200, None),
        (100, 200, Some(NetFault::VcRepeat { connection: 11 })),
        (111, 1000000000001, Some(NetFault::Limit)),
    ];
    for (last, tau, expected) in rows {
        let lists = match twelve(alloc, last, tau) {
            Ok(lists) => lists,
            Err(_) => twelve(alloc, last, tau)?,
        };
        let answer = fault_of(alloc, lists);
        if answer != expected {
            same(&rt, &(answer, expected), &(Some(NetFault::Memory), None));
            same(&rt, &fault_of(alloc, twelve(alloc, last, tau)?), &None);
        }
    }
    Ok(())
}

fn fault_of(alloc: Global, lists: (Vec<u64>, Vec<Conn>)) -> Option<NetFault> {
    let (capacities, conns) = lists;
    Net::build(alloc, capacities, conns).err()
}

// Twelve connections over one port, with VCIs from 100 on but for the last, which has that tau.
fn twelve(alloc: Global, last: u16, tau: u64) -> Result<(Vec<u64>, Vec<Conn>), AllocError> {
    let mut conns = Vec::new(alloc);
    for vci in 100..111 {
        conns.push(conn(alloc, vci, &[0])?)?;
    }
    conns.push(Conn {
        tau,
        ..conn(alloc, last, &[0])?
    })?;
    Ok((vec![in alloc; 512000]?, conns))
}

#[test]
fn faults_say_which_connection_breaks_which_rule(rt: HostRuntime) -> Result<(), Fail> {
    let connection = 3;
    let rows = [
        (
            NetFault::NoPort { connection },
            "connection 3 names a port that is not in the net",
        ),
        (
            NetFault::PathLength { connection },
            "the path of connection 3 does not have 1 to 16 hops",
        ),
        (
            NetFault::PathRepeat { connection },
            "connection 3 visits a port twice",
        ),
        (
            NetFault::VcRepeat { connection },
            "connection 3 has the channel of an earlier one",
        ),
        (NetFault::Limit, "the net is past its limits"),
        (NetFault::Memory, "out of memory"),
    ];
    for (fault, words) in rows {
        says(&rt, rt.alloc(), &fault, words)?;
    }
    Ok(())
}
