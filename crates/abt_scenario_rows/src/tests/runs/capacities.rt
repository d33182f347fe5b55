use super::super::ONE;
use super::{TWO, expect, reports};
use std::test::Fail;

#[test]
fn a_link_shrinks_to_what_is_held(rt: HostRuntime) -> Result<(), Fail> {
    expect(
        &rt,
        rt.alloc(),
        ONE,
        &[
            ("start 0 0", "started"),
            ("ask 0 5258", "asked 1 0000 5258"),
            ("request 0 1 1", "passed"),
            ("capacity 0 307199", "refused BelowSum"),
            ("capacity 0 307200", "set"),
            ("ask 0 53e8", "asked 2 0000 53e8"),
            ("request 0 1 2", "refuses"),
            ("request 0 1 1", "dropped Stale"),
            ("capacity 0 0", "set"),
            ("capacity 0 1152921504606846977", "refused AboveLimit"),
            ("capacity 1 0", "not-enabled Unknown"),
        ],
        "connection 0 rate 0000 held 0000\n\
         port 0 total 0 capacity 0\n\
         safe\n",
    )
}

// The first port has no room for the second connection until it grows; the other keeps the net's capacity.
#[test]
fn a_link_that_grows_passes_what_it_refused(rt: HostRuntime) -> Result<(), Fail> {
    expect(
        &rt,
        rt.alloc(),
        TWO,
        &[
            ("capacity 0 204799", "set"),
            ("start 1 0", "started"),
            ("ask 1 5120", "asked 1 0000 5120"),
            ("request 1 1 1", "refuses"),
            ("capacity 0 204800", "set"),
            ("request 1 1 1", "refuses"),
            ("ask 1 5120", "asked 2 0000 5120"),
            ("request 1 1 2", "passed"),
            ("request 1 2 2", "passed"),
            ("capacity 65535 204800", "not-enabled Unknown"),
        ],
        "connection 0 rate 0000 held 0000\n\
         connection 1 rate 0000 held 5120 5120\n\
         port 0 total 204800 capacity 204800\n\
         port 1 total 204800 capacity 512000\n\
         safe\n",
    )
}

#[test]
fn the_operator_of_a_scenario_says_nothing_here(rt: HostRuntime) -> Result<(), Fail> {
    reports(
        &rt,
        rt.alloc(),
        "ports = [5]\noperator = [\"capacity 0 7\", \"capacity 9 1152921504606846977\"]",
        "events 0\nport 0 total 0 capacity 5\nsafe\n",
    )
}
