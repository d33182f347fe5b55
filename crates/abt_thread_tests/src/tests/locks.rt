//! A port's lock is held from the moment at which a gate is passed inside it to the end of the step.
use super::fixture::{START, TURNS, ask, faithful, net, port, ran_at};
use abt_journal::Entry;
use abt_links::Gate;
use abt_model::Command;
use std::sync::atomic::{AtomicBool, AtomicU64, Ordering};
use std::test::*;
use std::thread;

/// How many calls each source makes.
const CALLS: usize = 32;

/// How often a call inside the lock leaves the processor to others.
const STAY: u32 = 2000;

/// Lets nobody in before both sources have come, and has each call stay inside the lock. It notes whether a call found another one
/// there, and who came in, by the order of the calls: bit n is set where caller 1 was the n-th.
#[derive(Drop)]
struct LoneCall {
    came: [AtomicBool; 2],
    inside: AtomicBool,
    met: AtomicBool,
    calls: AtomicU64,
    second: AtomicU64,
}

// Turns until the word is set, or for a great number of turns.
fn wait_for(word: &AtomicBool) {
    for _turn in 0..TURNS {
        if word.load(Ordering::SeqCst) {
            return;
        }
        thread::yield_now();
    }
}

impl Gate for LoneCall {
    fn before(&self, caller: u16, _port: u16) {
        if caller > 1 {
            return;
        }
        self.came[usize::from(caller)].store(true, Ordering::SeqCst);
        wait_for(&self.came[usize::from(1 - caller)]);
    }

    fn inside(&self, caller: u16, _port: u16) {
        if self.inside.swap(true, Ordering::SeqCst) {
            self.met.store(true, Ordering::SeqCst);
        }
        let call = self.calls.fetch_add(1, Ordering::SeqCst);
        if caller == 1 && call < 64 {
            self.second.fetch_or(1 << call, Ordering::SeqCst);
        }
        for _turn in 0..STAY {
            thread::yield_now();
        }
        self.inside.store(false, Ordering::SeqCst);
    }
}

// Who had the steps of a port done, in the way in which the gate notes it.
fn second_callers(entries: &[Entry]) -> u64 {
    let mut second = 0;
    for entry in entries {
        if entry.caller == 1 && entry.place < 64 {
            second |= 1 << entry.place;
        }
    }
    second
}

/// Each source asks once and then repeats. All parcels are lost, so no link worker comes to the port.
#[test]
fn one_call_at_a_time_is_inside_and_has_its_step_done_then(rt: HostRuntime) -> Result<(), Fail> {
    let conns: [(&[u16], u64, u64); 2] = [(&[0], 1000, 200), (&[0], 1000, 200)];
    let net = net(rt.alloc(), 1, &conns).ok_or("no net")?;
    let gate = LoneCall {
        came: [AtomicBool::new(false), AtomicBool::new(false)],
        inside: AtomicBool::new(false),
        met: AtomicBool::new(false),
        calls: AtomicU64::new(0),
        second: AtomicU64::new(0),
    };
    let mut script = [Command::Again; CALLS + 1];
    script[0] = START;
    script[1] = ask(0x5120);
    let mut plan = faithful(1);
    plan.drop_every = 1;
    let run = ran_at(&rt, rt.alloc(), &net, &[&script, &script], plan, &gate)?;
    assert!(rt; !gate.met.load(Ordering::SeqCst));
    assert_eq!(rt; port(&run, 0).len(), 2 * CALLS);
    assert_eq!(rt;
        gate.second.load(Ordering::SeqCst),
        second_callers(port(&run, 0))
    );
    Ok(())
}
