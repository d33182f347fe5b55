//! Parcels are neither lost nor repeated, which the three lines don't show.
use super::on_one_port;
use abt_links::OpenGate;
use abt_perform_threads::Unrun;
use std::alloc::Global;
use std::sync::Wait;
use std::thread::Threads;

// How many steps the port did for a source that asks, and listens until it is answered.
fn steps<T: Threads + Wait + Sync>(rt: &T, alloc: Global) -> Option<usize> {
    let script = "script = [\"start 0\", \"ask 5120\", \"listen 20000000\"]\n";
    let text = on_one_port(alloc, script).ok()?;
    let unrun = Unrun::read_from(alloc, &mut text.as_bytes()).ok()?;
    let ran = unrun.run(rt, alloc, 1, &OpenGate).ok()?;
    let entries = ran.gathered.journals.ports.first()?;
    Some(entries.len())
}

// They are the request and its yes.
#[test]
fn a_request_and_its_yes_are_served_once(rt: HostRuntime) {
    assert_eq!(rt; steps(&rt, rt.alloc()), Some(2));
}
