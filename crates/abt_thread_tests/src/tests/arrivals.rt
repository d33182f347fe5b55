//! When cells come to the first port of their path. Expected values: by hand from docs/RULES.md, "Workers".
use super::fixture::{LONG, START, ask, faithful, listen, net, port, ran};
use abt_journal::{Entry, PortInput};
use abt_model::Command;
use std::alloc::Global;
use std::process::Abort;
use std::sync::Wait;
use std::test::*;
use std::thread::Threads;

/// When the first cell leaves, in picoseconds, and how far cells of code 5120 are apart.
const FIRST: u64 = 1_000_000_000_000;

const APART: u64 = 2_500_000_000;

/// A delay of 1,000 ps, and a tau above four spacings.
const DELAY: u64 = 1000;

const TAU: u64 = 10_000_000_000;

// The cell of this number, from 0, which is later than the delay by a jitter.
fn emission(number: u64, jitter: u64) -> Command {
    Command::Emit {
        now: FIRST.saturating_add(APART.saturating_mul(number)),
        jitter: Some(jitter),
    }
}

// The cell of this number, from 0, which is lost on its way.
fn lost(number: u64) -> Command {
    Command::Emit {
        now: FIRST.saturating_add(APART.saturating_mul(number)),
        jitter: None,
    }
}

// Demands that cells came to a port at these moments, in this order.
fn came_at(rt: &impl Abort, entries: &[Entry], expected: &[u64]) {
    let mut left = expected.iter();
    for entry in entries {
        if let PortInput::Arrive { vc: _, at } = entry.input {
            assert_eq!(rt; left.next().copied(), Some(at));
        }
    }
    assert_eq!(rt; left.next().copied(), None);
}

// Demands that, of cells which leave with these jitters, a spacing apart, those that come do so at these moments.
fn come_at<R: Threads + Wait + Sync + Abort>(
    rt: &R,
    alloc: Global,
    cells: &[Command; 4],
    expected: &[u64],
) -> Result<(), Fail> {
    let net = net(alloc, 1, &[(&[0], DELAY, TAU)]).ok_or("no net")?;
    let [first, second, third, fourth] = *cells;
    let script = [
        START,
        ask(0x5120),
        listen(LONG),
        first,
        second,
        third,
        fourth,
    ];
    let run = ran(rt, alloc, &net, &[&script], faithful(1))?;
    came_at(rt, port(&run, 0), expected);
    Ok(())
}

/// The second cell would come before the first one, and the third before both.
#[test]
fn no_cell_comes_before_the_one_ahead_of_it(rt: HostRuntime) -> Result<(), Fail> {
    let cells = [
        emission(0, 9_000_000_000),
        emission(1, 0),
        emission(2, 1_000_000_000),
        emission(3, 3_000_000_000),
    ];
    let expected = [
        1_009_000_001_000,
        1_009_000_001_000,
        1_009_000_001_000,
        1_010_500_001_000,
    ];
    come_at(&rt, rt.alloc(), &cells, &expected)
}

/// The third cell would come before the second one, which is not the latest by its jitter alone.
#[test]
fn each_cell_is_behind_the_last_one_that_came(rt: HostRuntime) -> Result<(), Fail> {
    let cells = [
        emission(0, 0),
        emission(1, 5_000_000_000),
        emission(2, 1_000_000_000),
        emission(3, 1_000_000_000),
    ];
    let expected = [
        1_000_000_001_000,
        1_007_500_001_000,
        1_007_500_001_000,
        1_008_500_001_000,
    ];
    come_at(&rt, rt.alloc(), &cells, &expected)
}

/// A lost cell never comes, and the next one isn't held up by it.
#[test]
fn a_lost_cell_never_comes(rt: HostRuntime) -> Result<(), Fail> {
    let cells = [
        emission(0, 1_000_000_000),
        lost(1),
        emission(2, 3_000_000_000),
        lost(3),
    ];
    let expected = [1_001_000_001_000, 1_008_000_001_000];
    come_at(&rt, rt.alloc(), &cells, &expected)
}
