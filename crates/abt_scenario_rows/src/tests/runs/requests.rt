use super::super::ONE;
use super::{TWO, expect};
use std::test::Fail;

#[test]
fn two_connections_share_a_port_and_a_path_of_two(rt: HostRuntime) -> Result<(), Fail> {
    expect(
        &rt,
        rt.alloc(),
        TWO,
        &[
            ("start 0 0", "started"),
            ("start 1 0", "started"),
            ("ask 0 5258", "asked 1 0000 5258"),
            ("request 0 1 1", "passed"),
            ("ask 1 5120", "asked 1 0000 5120"),
            ("request 1 1 1", "passed"),
            ("turn 1 1", "not-enabled NotSent"),
            ("request 1 2 1", "passed"),
            ("turn 1 1", "turned"),
            ("yes 1 2 1", "passed"),
            ("yes 1 1 1", "passed"),
            ("told-yes 1 1", "told Raised"),
            ("ask 1 5258", "asked 2 5120 5258"),
            ("request 1 1 2", "passed"),
            ("request 1 2 2", "refuses"),
            ("no 1 1 2", "passed"),
            ("told-no 1 2", "told Refused"),
        ],
        "connection 0 rate 0000 held 5258\n\
         connection 1 rate 5120 held 5120 5120\n\
         port 0 total 204800 capacity 512000\n\
         port 1 total 512000 capacity 512000\n\
         safe\n",
    )
}

#[test]
fn a_decrease_makes_room_and_a_repeat_is_not_decided_anew(rt: HostRuntime) -> Result<(), Fail> {
    expect(
        &rt,
        rt.alloc(),
        TWO,
        &[
            ("start 0 0", "started"),
            ("start 1 0", "started"),
            ("ask 0 5258", "asked 1 0000 5258"),
            ("request 0 1 1", "passed"),
            ("ask 1 5120", "asked 1 0000 5120"),
            ("request 1 1 1", "passed"),
            ("turn 1 1", "not-enabled NotSent"),
            ("request 1 2 1", "passed"),
            ("turn 1 1", "turned"),
            ("yes 1 2 1", "passed"),
            ("yes 1 1 1", "passed"),
            ("told-yes 1 1", "told Raised"),
            ("ask 1 5258", "asked 2 5120 5258"),
            ("request 1 1 2", "passed"),
            ("request 1 2 2", "refuses"),
            ("no 1 1 2", "passed"),
            ("told-no 1 2", "told Refused"),
            ("ask 0 0000", "asked 2 0000 0000"),
            ("request 0 1 2", "passed"),
            ("request 1 1 2", "refuses"),
            ("request 1 2 2", "refuses"),
        ],
        "connection 0 rate 0000 held 0000\n\
         connection 1 rate 5120 held 5120 5120\n\
         port 0 total 204800 capacity 512000\n\
         port 1 total 204800 capacity 512000\n\
         safe\n",
    )
}

#[test]
fn a_yes_to_a_request_that_was_given_up_is_ignored(rt: HostRuntime) -> Result<(), Fail> {
    expect(
        &rt,
        rt.alloc(),
        ONE,
        &[
            ("start 0 0", "started"),
            ("ask 0 5120", "asked 1 0000 5120"),
            ("request 0 1 1", "passed"),
            ("turn 0 1", "turned"),
            ("yes 0 1 1", "passed"),
            ("ask 0 5258", "asked 2 0000 5258"),
            ("told-yes 0 1", "told Ignored"),
        ],
        "connection 0 rate 0000 held 5120\n\
         port 0 total 204800 capacity 512000\n\
         safe\n",
    )
}

#[test]
fn a_restart_goes_on_from_its_store(rt: HostRuntime) -> Result<(), Fail> {
    expect(
        &rt,
        rt.alloc(),
        ONE,
        &[
            ("start 0 0", "started"),
            ("ask 0 5120", "asked 1 0000 5120"),
            ("request 0 1 1", "passed"),
            ("turn 0 1", "turned"),
            ("yes 0 1 1", "passed"),
            ("crash 0", "crashed"),
            ("ask 0 5120", "not-enabled Down"),
            ("start 0 5", "started"),
            ("told-yes 0 1", "told Ignored"),
            ("ask 0 5258", "asked 65 0000 5258"),
            ("told-yes 0 1", "told Ignored"),
        ],
        "connection 0 rate 0000 held 5120\n\
         port 0 total 204800 capacity 512000\n\
         safe\n",
    )
}

#[test]
fn a_number_that_was_kept_is_taken_after_a_failure(rt: HostRuntime) -> Result<(), Fail> {
    expect(
        &rt,
        rt.alloc(),
        ONE,
        &[
            ("start 0 0", "started"),
            ("ask 0 5120 after", "refused Keep"),
            ("ask 0 5120", "asked 1 0000 5120"),
        ],
        "connection 0 rate 0000 held 0000\n\
         port 0 total 0 capacity 512000\n\
         safe\n",
    )
}

#[test]
fn a_number_that_was_kept_is_lost_by_a_crash(rt: HostRuntime) -> Result<(), Fail> {
    expect(
        &rt,
        rt.alloc(),
        ONE,
        &[
            ("start 0 0", "started"),
            ("ask 0 5120 after", "refused Keep"),
            ("crash 0", "crashed"),
            ("start 0 0", "started"),
            ("ask 0 5120", "asked 65 0000 5120"),
        ],
        "connection 0 rate 0000 held 0000\n\
         port 0 total 0 capacity 512000\n\
         safe\n",
    )
}

#[test]
fn a_number_that_was_not_kept_is_taken_after_a_crash(rt: HostRuntime) -> Result<(), Fail> {
    expect(
        &rt,
        rt.alloc(),
        ONE,
        &[
            ("start 0 0", "started"),
            ("ask 0 5120 before", "refused Keep"),
            ("crash 0", "crashed"),
            ("start 0 0", "started"),
            ("ask 0 5120", "asked 1 0000 5120"),
        ],
        "connection 0 rate 0000 held 0000\n\
         port 0 total 0 capacity 512000\n\
         safe\n",
    )
}
