//! Three sources over two ports, two of which go through both, one each way (scenarios/threads_crossing.toml).
use super::fixture::{START, ask, faithful, listen, net, ran_beside};
use abt_links::{Gathered, OpenGate, RunFault};
use abt_model::{Command, Operation};
use abt_net::Net;
use std::alloc::Global;
use std::sync::Wait;
use std::test::Fail;
use std::thread::Threads;

/// The net: ports of 1,000 cells per second, and a third connection whose access line has neither delay nor tolerance.
pub(super) fn crossing(alloc: Global) -> Result<Net, Fail> {
    let conns: [(&[u16], u64, u64); 3] = [(&[0, 1], 1000, 200), (&[1, 0], 1000, 200), (&[0], 0, 0)];
    Ok(net(alloc, 2, &conns).ok_or("no net")?)
}

fn emission(jitter: Option<u64>) -> Command {
    Command::Emit {
        now: 1_000_000_000_000,
        jitter,
    }
}

// Looks for an answer a million times at most.
fn waits() -> Command {
    listen(1_000_000)
}

fn later_start() -> Command {
    Command::Start {
        now: 1_000_000_000_001,
    }
}

/// A run of the sources with so many link workers, beside an operator with this list. Nothing is lost or repeated.
pub(super) fn crossed<R: Threads + Wait + Sync>(
    rt: &R,
    alloc: Global,
    net: &Net,
    operations: &[Operation],
    workers: u16,
) -> Result<Gathered, RunFault> {
    let scripts: [&[Command]; 3] = [
        &[
            START,
            ask(0x5120),
            waits(),
            emission(Some(0)),
            ask(0x5258),
            waits(),
        ],
        &[
            START,
            ask(0x5258),
            waits(),
            emission(Some(200)),
            Command::Crash,
            later_start(),
            ask(0x5120),
        ],
        &[START, ask(0x5120), Command::Again, waits(), emission(None)],
    ];
    let plan = faithful(workers);
    ran_beside(rt, alloc, net, &scripts, operations, plan, &OpenGate)
}
