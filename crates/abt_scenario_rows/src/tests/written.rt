//! A net with an event of each kind, whose text was written by hand from docs/FORMATS.md.
use abt_model::Event;
use abt_scenario::{EventsFault, Scenario, read, sample_text, scenario_text};
use std::alloc::Global;
use std::fmt::Debug;
use std::process::Abort;
use std::test::Fail;

const EACH: &str = "ports = [512000, 614400]\n\
    events = [\n\
    \x20 \"start 0 0\",\n\
    \x20 \"ask 0 5258\",\n\
    \x20 \"ask 1 0000 before\",\n\
    \x20 \"ask 1 0000 after\",\n\
    \x20 \"again 0\",\n\
    \x20 \"crash 1\",\n\
    \x20 \"emit 0 1000000000000\",\n\
    \x20 \"arrive 0 0 9999999999999999999\",\n\
    \x20 \"request 0 1 1\",\n\
    \x20 \"turn 0 4294967295\",\n\
    \x20 \"yes 0 2 1\",\n\
    \x20 \"no 0 1 1\",\n\
    \x20 \"told-yes 0 1\",\n\
    \x20 \"told-no 1 1\",\n\
    \x20 \"capacity 1 1152921504606846976\",\n\
    ]\n\
    \n\
    [[connection]]\n\
    vpi = 1\n\
    vci = 100\n\
    path = [0, 1]\n\
    delay = 1000\n\
    tau = 200\n\
    \n\
    [[connection]]\n\
    vpi = 4095\n\
    vci = 65535\n\
    path = [1]\n\
    delay = 0\n\
    tau = 0\n";

const EMPTY: &str = "ports = []\nevents = [\n]\n";

/// Demands that two values are equal. What calls this knows nothing of them from it, which keeps its proof short.
fn same<T: PartialEq + Debug>(rt: &impl Abort, found: &T, expected: &T) {
    assert_eq!(rt; *found, *expected);
}

/// Demands that the net and the events of a text are written as this text.
fn is_written_so(rt: &impl Abort, alloc: Global, text: &str) -> Result<(), Fail> {
    let scenario: Scenario = read(alloc, text)?;
    let written = scenario_text(alloc, &scenario.net, scenario.events.as_slice())?;
    same(rt, &written.as_str(), &text);
    let sample = sample_text(alloc, &scenario.net, scenario.events.as_slice())?;
    same(rt, &sample.as_str(), &text);
    Ok(())
}

#[test]
fn writes_an_event_of_each_kind(rt: HostRuntime) -> Result<(), Fail> {
    is_written_so(&rt, rt.alloc(), EACH)
}

#[test]
fn writes_a_net_without_ports(rt: HostRuntime) -> Result<(), Fail> {
    is_written_so(&rt, rt.alloc(), EMPTY)
}

#[test]
fn says_no_number_of_twenty_digits(rt: HostRuntime) -> Result<(), Fail> {
    let alloc = rt.alloc();
    let scenario: Scenario = read(alloc, EMPTY)?;
    let late = [Event::Start {
        conn: 0,
        now: 10_000_000_000_000_000_000,
    }];
    let fault = sample_text(alloc, &scenario.net, &late).err();
    same(&rt, &fault, &Some(EventsFault::Unsaid));
    Ok(())
}
