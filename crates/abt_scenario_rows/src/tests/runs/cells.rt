use super::super::ONE;
use super::{FAST, expect};
use std::test::Fail;

#[test]
fn a_source_sends_two_cells(rt: HostRuntime) -> Result<(), Fail> {
    expect(
        &rt,
        rt.alloc(),
        ONE,
        &[
            ("start 0 5000000000000", "started"),
            ("ask 0 53e8", "asked 1 0000 53e8"),
            ("request 0 1 1", "passed"),
            ("turn 0 1", "turned"),
            ("yes 0 1 1", "passed"),
            ("told-yes 0 1", "told Raised"),
            ("emit 0 5900000000000", "refused TooSoon 6000000000000"),
            ("emit 0 6000000000000", "emitted 0 6001000000000"),
            ("emit 0 6001000000000", "emitted 1 6002000000000"),
            ("arrive 0 0 6000000001200", "arrived Conforming"),
            ("arrive 0 1 6001000001000", "arrived Conforming"),
        ],
        "connection 0 rate 53e8 held 53e8\n\
         port 0 total 512000 capacity 512000\n\
         safe\n",
    )
}

#[test]
fn cells_stay_behind_their_fence(rt: HostRuntime) -> Result<(), Fail> {
    expect(
        &rt,
        rt.alloc(),
        ONE,
        &[
            ("start 0 5000000000000", "started"),
            ("ask 0 53e8", "asked 1 0000 53e8"),
            ("request 0 1 1", "passed"),
            ("turn 0 1", "turned"),
            ("yes 0 1 1", "passed"),
            ("told-yes 0 1", "told Raised"),
            ("emit 0 5900000000000", "refused TooSoon 6000000000000"),
            ("emit 0 6000000000000", "emitted 0 6001000000000"),
            ("ask 0 5120", "asked 2 5120 5120"),
            ("request 0 1 2", "passed"),
            ("arrive 0 0 6000000001000", "not-enabled Fenced"),
            ("emit 0 6001000000000", "emitted 1 6003500000000"),
            ("arrive 0 1 6001000001201", "not-enabled Delay"),
            ("arrive 0 1 6001000000999", "not-enabled Delay"),
            ("arrive 0 1 6001000001200", "arrived Conforming"),
            ("arrive 0 1 6001000001200", "not-enabled Fenced"),
            ("arrive 0 2 6003500001000", "not-enabled NotSent"),
        ],
        "connection 0 rate 5120 held 5120\n\
         port 0 total 204800 capacity 512000\n\
         safe\n",
    )
}

#[test]
fn events_that_are_not_enabled_say_why(rt: HostRuntime) -> Result<(), Fail> {
    expect(
        &rt,
        rt.alloc(),
        ONE,
        &[
            ("emit 0 5", "not-enabled Down"),
            ("start 0 9", "started"),
            ("start 0 9", "not-enabled Running"),
            ("again 0", "not-enabled NotAsking"),
            ("emit 0 8", "not-enabled ClockBack"),
            ("emit 0 9", "refused Zero"),
            ("start 7 0", "not-enabled Unknown"),
            ("request 0 2 1", "not-enabled Unknown"),
            ("request 0 1 1", "not-enabled NotSent"),
        ],
        "connection 0 rate 0000 held 0000\n\
         port 0 total 0 capacity 512000\n\
         safe\n",
    )
}

#[test]
fn a_start_past_the_greatest_moment_is_refused(rt: HostRuntime) -> Result<(), Fail> {
    expect(
        &rt,
        rt.alloc(),
        ONE,
        &[("start 0 2305842009213693953", "refused TimeRange")],
        "connection 0 rate 0000 held 0000\n\
         port 0 total 0 capacity 512000\n\
         safe\n",
    )
}

#[test]
fn the_greatest_rate_is_policed(rt: HostRuntime) -> Result<(), Fail> {
    expect(
        &rt,
        rt.alloc(),
        FAST,
        &[
            ("start 0 0", "started"),
            ("ask 0 7fff", "asked 1 0000 7fff"),
            ("request 0 1 1", "passed"),
            ("turn 0 1", "turned"),
            ("yes 0 1 1", "passed"),
            ("told-yes 0 1", "told Raised"),
            ("emit 0 1000000000000", "emitted 0 1000000000234"),
            ("emit 0 1000000000234", "emitted 1 1000000000468"),
            ("arrive 0 0 1000000002000", "arrived Conforming"),
            ("arrive 0 1 1000000001999", "not-enabled ClockBack"),
            ("arrive 0 1 1000000002000", "arrived Conforming"),
        ],
        "connection 0 rate 7fff held 7fff\n\
         port 0 total 2196875771904 capacity 2196875771904\n\
         safe\n",
    )
}
