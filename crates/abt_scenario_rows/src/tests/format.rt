//! What the texts of docs/FORMATS.md, "Scenario", "Scripts" and "Operator", say. Expected events, commands and operations are written
//! out by hand.
use abt_format::{command_of, event_of, operation_of};
use abt_keep::StorePlan;
use abt_model::{Command, Event};
use abt_rate::Rate;

#[test]
fn each_event_has_its_text(rt: HostRuntime) {
    // 400 cells per second: (512 + 288) * 2^8 units.
    let rate = Rate::at_most(204_800);
    let rows = [
        ("start 0 9", Event::Start { conn: 0, now: 9 }),
        (
            "ask 1 5120",
            Event::Ask {
                conn: 1,
                rate,
                plan: StorePlan::Works,
            },
        ),
        (
            "ask 1 5120 before",
            Event::Ask {
                conn: 1,
                rate,
                plan: StorePlan::FailsBefore,
            },
        ),
        (
            "ask 1 5120 after",
            Event::Ask {
                conn: 1,
                rate,
                plan: StorePlan::FailsAfter,
            },
        ),
        ("again 7", Event::Again { conn: 7 }),
        ("crash 65535", Event::Crash { conn: 65535 }),
        ("emit 0 5", Event::Emit { conn: 0, now: 5 }),
        (
            "arrive 2 3 4",
            Event::Arrive {
                conn: 2,
                cell: 3,
                at: 4,
            },
        ),
        (
            "request 1 2 3",
            Event::Request {
                conn: 1,
                hop: 2,
                seq: 3,
            },
        ),
        (
            "turn 1 4294967295",
            Event::Turn {
                conn: 1,
                seq: 4_294_967_295,
            },
        ),
        (
            "yes 1 2 3",
            Event::Answer {
                conn: 1,
                hop: 2,
                seq: 3,
                granted: true,
            },
        ),
        (
            "no 1 2 3",
            Event::Answer {
                conn: 1,
                hop: 2,
                seq: 3,
                granted: false,
            },
        ),
        (
            "told-yes 1 3",
            Event::Told {
                conn: 1,
                seq: 3,
                granted: true,
            },
        ),
        (
            "told-no 1 3",
            Event::Told {
                conn: 1,
                seq: 3,
                granted: false,
            },
        ),
        (
            "capacity 65535 307200",
            Event::Capacity {
                port: 65535,
                capacity: 307_200,
            },
        ),
    ];
    for (text, said) in rows {
        assert_eq!(rt; event_of(text), Some(said), "{text}");
    }
}

#[test]
fn numbers_are_1_to_19_digits_that_fit(rt: HostRuntime) {
    let zeros = "start 0 0000000000000000009";
    assert_eq!(rt; event_of(zeros), Some(Event::Start { conn: 0, now: 9 }));
    let greatest = "start 0 9999999999999999999";
    let now = 9_999_999_999_999_999_999;
    assert_eq!(rt; event_of(greatest), Some(Event::Start { conn: 0, now }));
    for text in [
        "start 0 00000000000000000000",
        "start 0 10000000000000000000",
        "start 65536 0",
        "start 00065536 0",
        "request 0 65536 1",
        "request 0 1 4294967296",
        "turn 0 4294967296",
        "capacity 65536 0",
        "capacity 0 10000000000000000000",
        "start 0 +5",
        "start +0 5",
        "start 0 -5",
        "start 0 5.0",
        "start 0 0x5",
        "start 0 5_0",
        "start 0 \u{0665}",
    ] {
        assert_eq!(rt; event_of(text), None, "{text}");
    }
}

#[test]
fn words_stand_between_single_spaces(rt: HostRuntime) {
    for text in [
        "",
        " ",
        "start",
        "start 0",
        "start 0 ",
        "start 0 9 ",
        " start 0 9",
        "start 0  9",
        "start  0 9",
        "start\t0 9",
        "start 0 9\n",
        "start 0 9 9",
        "Start 0 9",
        "starts 0 9",
        "told 0 9",
        "told-yes 0",
        "capacity 0",
        "capacity 0 1 2",
        "listen 5",
        "again",
    ] {
        assert_eq!(rt; event_of(text), None, "{text}");
    }
}

#[test]
fn codes_are_four_digits_of_either_case(rt: HostRuntime) {
    // 1,000 cells per second: (512 + 488) * 2^9 units. The first bit of a code says nothing.
    let rate = Rate::at_most(512_000);
    for text in ["ask 0 53e8", "ask 0 53E8", "ask 0 d3e8"] {
        let plan = StorePlan::Works;
        assert_eq!(rt;
            event_of(text),
            Some(Event::Ask {
                conn: 0,
                rate,
                plan
            }),
            "{text}"
        );
    }
    for text in [
        "ask 0 53e",
        "ask 0 53e80",
        "ask 0 53eg",
        "ask 0 +53e",
        "ask 0 0x53",
        "ask 0 53e8 works",
        "ask 0 53e8 before after",
        "ask 0",
    ] {
        assert_eq!(rt; event_of(text), None, "{text}");
    }
}

#[test]
fn each_command_has_its_text(rt: HostRuntime) {
    let rate = Rate::at_most(204_800);
    let rows = [
        ("start 9", Command::Start { now: 9 }),
        (
            "ask 5120",
            Command::Ask {
                rate,
                plan: StorePlan::Works,
            },
        ),
        (
            "ask 5120 before",
            Command::Ask {
                rate,
                plan: StorePlan::FailsBefore,
            },
        ),
        (
            "ask 5120 after",
            Command::Ask {
                rate,
                plan: StorePlan::FailsAfter,
            },
        ),
        ("again", Command::Again),
        ("crash", Command::Crash),
        (
            "emit 5 200",
            Command::Emit {
                now: 5,
                jitter: Some(200),
            },
        ),
        (
            "emit 5 lost",
            Command::Emit {
                now: 5,
                jitter: None,
            },
        ),
        (
            "listen 4294967295",
            Command::Listen {
                turns: 4_294_967_295,
            },
        ),
    ];
    for (text, said) in rows {
        assert_eq!(rt; command_of(text), Some(said), "{text}");
    }
    for text in [
        "",
        "start",
        "start 0 9",
        "start  9",
        "start +9",
        "ask 512",
        "again 0",
        "again ",
        "crash 0",
        "emit 5",
        "emit 5 Lost",
        "emit 5  ",
        "emit lost 5",
        "listen",
        "listen 4294967296",
        "listen 00000000000000000005",
        "arrive 0 5",
    ] {
        assert_eq!(rt; command_of(text), None, "{text}");
    }
}

#[test]
fn an_operation_has_its_text(rt: HostRuntime) {
    for (text, said) in [
        ("capacity 0 307200", (0, 307_200)),
        (
            "capacity 00065535 9999999999999999999",
            (65535, 9_999_999_999_999_999_999),
        ),
    ] {
        assert_eq!(rt; operation_of(text), Some(said), "{text}");
    }
    for text in [
        "",
        "capacity",
        "capacity 0",
        "capacity 0 5 6",
        "capacity 0 5 ",
        " capacity 0 5",
        "capacity 0  5",
        "Capacity 0 5",
        "capacities 0 5",
        "start 0 5",
        "capacity 65536 5",
        "capacity +0 5",
        "capacity 0 -5",
        "capacity 0 10000000000000000000",
        "capacity 0 00000000000000000005",
    ] {
        assert_eq!(rt; operation_of(text), None, "{text}");
    }
}
