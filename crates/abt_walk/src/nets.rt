//! Small nets.
use abt_cell::Vc;
use abt_world::{Conn, Net, NetFault, Path};
use std::alloc::{AllocError, Global};

/// A connection of VPI 1, with its access line.
#[derive(Clone, Copy, Debug)]
pub struct Access<'path> {
    pub vci: u16,
    pub path: &'path [u16],
    pub delay: u64,
    pub tau: u64,
}

/// The access line that the small nets have.
pub fn line(vci: u16, path: &[u16]) -> Access<'_> {
    Access {
        vci,
        path,
        delay: 1000,
        tau: 200,
    }
}

fn conn(alloc: Global, line: &Access<'_>) -> Result<Option<Conn>, AllocError> {
    let path = Path::from(line.path.to_vec(alloc)?);
    let Some(vc) = Vc::new(1, line.vci) else {
        return Ok(None);
    };
    Ok(Some(Conn {
        vc,
        path,
        delay: line.delay,
        tau: line.tau,
    }))
}

fn conns(alloc: Global, lines: &[Access<'_>]) -> Result<Vec<Conn>, AllocError> {
    let mut conns = Vec::new(alloc);
    for line in lines {
        if let Some(conn) = conn(alloc, line)? {
            conns.push(conn)?;
        }
    }
    Ok(conns)
}

/// A net of ports with these capacities, and connections with these access lines.
pub fn build(alloc: Global, capacities: &[u64], lines: &[Access<'_>]) -> Result<Net, NetFault> {
    match (capacities.to_vec(alloc), conns(alloc, lines)) {
        (Ok(capacities), Ok(conns)) => Net::build(alloc, capacities, conns),
        _ => Err(NetFault::Memory),
    }
}

/// One connection over one port of 1,000 cells per second.
pub fn lone(alloc: Global) -> Result<Net, NetFault> {
    build(alloc, &[512000], &[line(100, &[0])])
}

/// Two connections that share the second of two ports of 1,000 cells per second.
pub fn shared(alloc: Global) -> Result<Net, NetFault> {
    let lines = [line(100, &[1]), line(101, &[0, 1])];
    build(alloc, &[512000, 512000], &lines)
}

/// One connection over the first of two ports of 1,000 cells per second; no path goes through the other.
pub fn spare(alloc: Global) -> Result<Net, NetFault> {
    build(alloc, &[512000, 512000], &[line(100, &[0])])
}

/// Three connections over two ports of 1,000 cells per second, two of them over both, one each way; the third has an access
/// line without delay or tolerance.
pub fn crossing(alloc: Global) -> Result<Net, NetFault> {
    let quick = Access {
        vci: 102,
        path: &[0],
        delay: 0,
        tau: 0,
    };
    let lines = [line(100, &[0, 1]), line(101, &[1, 0]), quick];
    build(alloc, &[512000, 512000], &lines)
}

/// Five connections over three ports, the third of the greatest rate, with the least and the greatest delays and tolerances.
pub fn meshed(alloc: Global) -> Result<Net, NetFault> {
    let with = |vci, path, delay, tau| Access {
        vci,
        path,
        delay,
        tau,
    };
    let lines = [
        with(100, [0, 1, 2].as_slice(), 0, 0),
        with(101, [2, 0].as_slice(), 5, 1_000_000_000_000),
        with(102, [1].as_slice(), 10_000_000_000_000, 1000),
        with(103, [2].as_slice(), 1000, 200),
        with(104, [1, 2].as_slice(), 0, 2_500_000_000),
    ];
    build(alloc, &[512000, 1_000_000, 2_196_875_771_904], &lines)
}
