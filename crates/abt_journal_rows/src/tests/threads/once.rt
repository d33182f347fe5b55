//! A scenario is run once, and all that is handed out is of that run.
use super::{ALL, CROSSING, Narrow};
use abt_links::Gate;
use abt_perform_threads::{Shown, Unrun, judge, show_run};
use std::alloc::Global;
use std::sync::Wait;
use std::sync::atomic::{AtomicU64, Ordering};
use std::test::Fail;
use std::thread::Threads;

/// Counts the steps of the ports.
#[derive(Drop)]
struct Counting {
    steps: AtomicU64,
}

impl Gate for Counting {
    fn before(&self, _caller: u16, _port: u16) {}

    fn inside(&self, _caller: u16, _port: u16) {
        self.steps.fetch_add(1, Ordering::SeqCst);
    }
}

// Shows a run of the crossing sources past a gate.
fn shown_past<T: Threads + Wait + Sync>(
    rt: &T,
    alloc: Global,
    gate: &Counting,
    out: &mut Narrow,
) -> Option<Shown> {
    let unrun = Unrun::read_from(alloc, &mut CROSSING.as_bytes()).ok()?;
    show_run(rt, alloc, 2, unrun, gate, out).ok()
}

// Each step is an entry of the journals that are handed out, and an event of those that were found.
#[test]
fn the_scripts_run_once(rt: HostRuntime) -> Result<(), Fail> {
    let gate = Counting {
        steps: AtomicU64::new(0),
    };
    let mut out = Narrow::new(64);
    let shown = shown_past(&rt, rt.alloc(), &gate, &mut out).ok_or("no run")?;
    let mut entries = 0u64;
    for journal in &shown.ran.gathered.journals.ports {
        entries = entries.saturating_add(journal.len() as u64);
    }
    assert_eq!(rt; gate.steps.load(Ordering::SeqCst), entries);
    assert!(rt; entries >= 4);
    assert_eq!(rt; out.taken(), ALL.as_bytes());
    let judged = shown.judged.map_err(|_| Fail::from("not judged"))?;
    assert_eq!(rt; judged.events.len(), judged.trace.outcomes.len());
    assert!(rt; judged.events.len() as u64 >= entries);
    Ok(())
}

// A run that was shown is judged again.
fn judged_again<T: Threads + Wait + Sync>(rt: &T, alloc: Global) -> Option<bool> {
    let unrun = Unrun::read_from(alloc, &mut CROSSING.as_bytes()).ok()?;
    let ran = unrun
        .run(
            rt,
            alloc,
            2,
            &Counting {
                steps: AtomicU64::new(0),
            },
        )
        .ok()?;
    let (ports, conns) = (ran.net.capacities().len(), ran.net.conns().len());
    if ran.gathered.journals.ports.len() != ports || ran.gathered.sources.len() != conns {
        return None;
    }
    let judged = judge(alloc, &ran.net, &ran.gathered).ok()?;
    Some(judged.trace.safe)
}

#[test]
fn what_a_run_left_is_judged(rt: HostRuntime) {
    assert_eq!(rt; judged_again(&rt, rt.alloc()), Some(true));
}
