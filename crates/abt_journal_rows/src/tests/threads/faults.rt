use super::{CROSSING, Narrow, expect, on_one_port};
use abt_journal::GatherFault;
use abt_links::RunFault;
use abt_perform::{Fault, tell_fault};
use abt_perform_threads::{ShowFault, fault_of_run, fault_of_show};
use abt_weave::{Actor, Sequence, WeaveFault};
use std::alloc::Global;
use std::process::Abort;
use std::sync::Wait;
use std::test::Fail;
use std::thread::Threads;

// Runs a scenario's text, and demands that nothing goes out, and what is told.
fn is_told<T: Threads + Wait + Sync + Abort>(
    rt: &T,
    alloc: Global,
    workers: u16,
    scenario: &[u8],
    fault: &str,
) {
    expect(rt, alloc, workers, scenario, "", fault);
}

#[test]
fn a_jitter_above_the_tau_is_told(rt: HostRuntime) -> Result<(), Fail> {
    let alloc = rt.alloc();
    let scenario = on_one_port(alloc, "script = [\"emit 0 201\"]\n")?;
    is_told(&rt, alloc, 4, scenario.as_bytes(), "fault: Scripts\n");
    Ok(())
}

#[test]
fn an_operator_at_no_port_is_told(rt: HostRuntime) {
    let scenario = "ports = []\noperator = [\"capacity 0 5\"]\n".as_bytes();
    is_told(&rt, rt.alloc(), 4, scenario, "fault: Operator\n");
}

#[test]
fn link_workers_are_counted_before_scripts_are_looked_at(rt: HostRuntime) -> Result<(), Fail> {
    let alloc = rt.alloc();
    let scenario = on_one_port(alloc, "script = [\"emit 0 201\"]\n")?;
    for workers in [0, 65, u16::MAX] {
        is_told(&rt, alloc, workers, scenario.as_bytes(), "fault: Workers\n");
        is_told(&rt, alloc, workers, CROSSING.as_bytes(), "fault: Workers\n");
        is_told(&rt, alloc, workers, b"", "fault: MissingKey ports\n");
    }
    Ok(())
}

#[test]
fn each_fault_of_a_scenario_is_told_as_of_a_run(rt: HostRuntime) -> Result<(), Fail> {
    let alloc = rt.alloc();
    for (text, fault) in [
        ("ports = [", "fault: Toml\n"),
        ("", "fault: MissingKey ports\n"),
        ("ports = 5", "fault: WrongType ports\n"),
        ("ports = []\nevents = [\"crash\"]", "fault: EventText 1\n"),
        (
            "ports = []\noperator = [\"capacity 0\"]",
            "fault: OperatorText 1\n",
        ),
    ] {
        is_told(&rt, alloc, 1, text.as_bytes(), fault);
    }
    let net = on_one_port(
        alloc,
        "[[connection]]\nvpi = 1\nvci = 101\npath = [7]\ndelay = 0\ntau = 0\n",
    )?;
    is_told(&rt, alloc, 1, net.as_bytes(), "fault: Net NoPort 1\n");
    let script = on_one_port(alloc, "script = [\"start 0\", \"emit 5\"]\n")?;
    is_told(&rt, alloc, 1, script.as_bytes(), "fault: ScriptText 0 2\n");
    is_told(&rt, alloc, 1, b"ports = []\xff", "fault: NotUtf8\n");
    Ok(())
}

// The line that is told of a fault.
fn tells(rt: &impl Abort, fault: Fault, line: &str) {
    let mut errors = Narrow::new(64);
    tell_fault(fault, &mut errors);
    assert_eq!(rt; errors.taken(), line.as_bytes());
}

#[test]
fn faults_of_threads_are_told_by_the_name_alone(rt: HostRuntime) {
    for (fault, line) in [
        (RunFault::Workers, "fault: Workers\n"),
        (RunFault::Scripts, "fault: Scripts\n"),
        (RunFault::Operator, "fault: Operator\n"),
        (RunFault::Thread, "fault: Thread\n"),
        (RunFault::Wound { seen: 2, found: 0 }, "fault: Wound\n"),
        (RunFault::Gather(GatherFault::Count), "fault: Gather\n"),
        (RunFault::Memory, "fault: memory\n"),
    ] {
        tells(&rt, fault_of_run(fault), line);
    }
}

#[test]
fn faults_of_what_is_shown_are_told_by_the_name_alone(rt: HostRuntime) {
    let alloc = rt.alloc();
    let mismatch = ShowFault::Weave(WeaveFault::Mismatch {
        actor: Actor::Port(3),
        place: 7,
    });
    tells_of_show(&rt, &mismatch, "fault: Mismatch\n");
    let stuck = ShowFault::Weave(WeaveFault::NoOrder(Sequence::new(alloc)));
    tells_of_show(&rt, &stuck, "fault: NoOrder\n");
    let memory = ShowFault::Weave(WeaveFault::Memory);
    tells_of_show(&rt, &memory, "fault: memory\n");
    tells_of_show(&rt, &ShowFault::Trace, "fault: memory\n");
    tells_of_show(&rt, &ShowFault::Write, "fault: write\n");
}

fn tells_of_show(rt: &impl Abort, fault: &ShowFault, line: &str) {
    tells(rt, fault_of_show(fault), line);
}
