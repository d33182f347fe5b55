//! Workers work side by side, and answers are heard. A gate holds one call until it has seen another, and gives up
//! after a great number of turns, each of which leaves the processor to other threads.
use super::fixture::{
    LONG, START, TURNS, ask, entries, faithful, is_told, listen, net, port, ran_at,
};
use abt_gcra::Verdict;
use abt_journal::{Entry, PortReply};
use abt_links::Gate;
use abt_model::{Command, Event, Heard, Outcome, SourceEntry};
use std::process::Abort;
use std::sync::atomic::{AtomicBool, AtomicU64, Ordering};
use std::test::*;
use std::thread;

// Turns until the word is set. Whether it came.
fn comes(word: &AtomicBool) -> bool {
    for _turn in 0..TURNS {
        if word.load(Ordering::SeqCst) {
            return true;
        }
        thread::yield_now();
    }
    false
}

/// Holds the first call at each of two ports until the first call at the other has come in.
#[derive(Drop)]
struct Meeting {
    came: [AtomicBool; 2],
    gave_up: AtomicBool,
}

impl Gate for Meeting {
    fn before(&self, _caller: u16, _port: u16) {}

    fn inside(&self, _caller: u16, port: u16) {
        if port > 1 || self.came[usize::from(port)].swap(true, Ordering::SeqCst) {
            return;
        }
        if !comes(&self.came[usize::from(1 - port)]) {
            self.gave_up.store(true, Ordering::SeqCst);
        }
    }
}

// Demands that both calls came in, and that neither gave up.
fn have_met(rt: &impl Abort, gate: &Meeting) {
    assert!(rt; gate.came[0].load(Ordering::SeqCst) && gate.came[1].load(Ordering::SeqCst));
    assert!(rt; !gate.gave_up.load(Ordering::SeqCst));
}

#[test]
fn two_ports_are_served_at_one_time(rt: HostRuntime) -> Result<(), Fail> {
    let net = net(rt.alloc(), 2, &[(&[0], 1000, 200), (&[1], 1000, 200)]).ok_or("no net")?;
    let gate = Meeting {
        came: [AtomicBool::new(false), AtomicBool::new(false)],
        gave_up: AtomicBool::new(false),
    };
    let script = [START, ask(0x5120)];
    let run = ran_at(
        &rt,
        rt.alloc(),
        &net,
        &[&script, &script],
        faithful(1),
        &gate,
    )?;
    assert_eq!(rt; run.sources.len(), 2);
    have_met(&rt, &gate);
    Ok(())
}

/// Holds the second call of the source until a link worker has come into port 0.
#[derive(Drop)]
struct Patience {
    calls: AtomicU64,
    came_back: AtomicBool,
    gave_up: AtomicBool,
}

impl Gate for Patience {
    fn before(&self, caller: u16, _port: u16) {
        if caller != 0 || self.calls.fetch_add(1, Ordering::SeqCst) != 1 {
            return;
        }
        if !comes(&self.came_back) {
            self.gave_up.store(true, Ordering::SeqCst);
        }
    }

    fn inside(&self, caller: u16, port: u16) {
        if caller == 1 && port == 0 {
            self.came_back.store(true, Ordering::SeqCst);
        }
    }
}

// The place of the arrival where the last three entries of a source are a yes to its first request, a cell, and its arrival.
fn place_of_a_cell(entries: &[SourceEntry]) -> Option<u64> {
    let &[.., told, emitted, arrived] = entries else {
        return None;
    };
    let SourceEntry::Arrived { cell: 0, place } = arrived else {
        return None;
    };
    let emission = Event::Emit {
        conn: 0,
        now: 1_000_000_000_000,
    };
    let cell = Outcome::Emitted {
        cell: 0,
        next: 1_002_500_000_000,
    };
    let is_raised = is_told(&told, 1)
        && matches!(told, SourceEntry::Did(_, Outcome::Told(Heard::Raised)));
    if is_raised && emitted == SourceEntry::Did(emission, cell) {
        Some(place)
    } else {
        None
    }
}

// Whether a port found the cell conforming that came to it at this place.
fn conforms_at(entries: &[Entry], place: u64) -> bool {
    for entry in entries {
        if entry.place == place {
            return entry.reply == PortReply::Arrived(Ok(Verdict::Conforming));
        }
    }
    false
}

#[test]
fn a_yes_that_comes_back_is_heard_and_its_cell_conforms(rt: HostRuntime) -> Result<(), Fail> {
    let net = net(rt.alloc(), 2, &[(&[0, 1], 1000, 200)]).ok_or("no net")?;
    let gate = Patience {
        calls: AtomicU64::new(0),
        came_back: AtomicBool::new(false),
        gave_up: AtomicBool::new(false),
    };
    let emission = Command::Emit {
        now: 1_000_000_000_000,
        jitter: Some(0),
    };
    let script = [START, ask(0x5120), Command::Again, listen(LONG), emission];
    let run = ran_at(&rt, rt.alloc(), &net, &[&script], faithful(1), &gate)?;
    assert!(rt; !gate.gave_up.load(Ordering::SeqCst));
    // The yes to the repeat may come to port 0 before or after the cell.
    let Some(place) = place_of_a_cell(entries(&run, 0)) else {
        return Err(Fail::from("no cell in the end"));
    };
    assert!(rt; conforms_at(port(&run, 0), place));
    Ok(())
}
