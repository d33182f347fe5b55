//! Numbers that are kept in strides, and the kept spacing that a restart waits for.
use super::super::ONE;
use super::{expect, push_answer, push_answers, push_events, reports};
use std::alloc::{AllocError, Global};
use std::process::Abort;
use std::test::Fail;

#[test]
fn an_ask_within_a_stride_needs_no_write(rt: HostRuntime) -> Result<(), Fail> {
    expect(
        &rt,
        rt.alloc(),
        ONE,
        &[
            ("start 0 0", "started"),
            ("ask 0 5120", "asked 1 0000 5120"),
            ("ask 0 5258 before", "asked 2 0000 5258"),
            ("crash 0", "crashed"),
            ("start 0 0", "started"),
            ("ask 0 5120", "asked 65 0000 5120"),
        ],
        "connection 0 rate 0000 held 0000\n\
         port 0 total 0 capacity 512000\n\
         safe\n",
    )
}

// A source is raised to 1,000 cells per second and sends a cell.
const RAISED: [(&str, &str); 8] = [
    ("start 0 0", "started"),
    ("ask 0 53e8", "asked 1 0000 53e8"),
    ("request 0 1 1", "passed"),
    ("turn 0 1", "turned"),
    ("yes 0 1 1", "passed"),
    ("told-yes 0 1", "told Raised"),
    ("emit 0 1000000000000", "emitted 0 1001000000000"),
    ("arrive 0 0 1000000001200", "arrived Conforming"),
];

// The answers to 64 more asks for the same rate, which are events 9 to 72. The last keeps 128 and the spacing of that rate, a
// millisecond.
fn push_asked(alloc: Global, report: &mut String) -> Result<(), AllocError> {
    for number in 9..=72u64 {
        let answer = format!(in alloc; "asked {} 53e8 53e8", number.saturating_sub(7))?;
        push_answer(alloc, report, number, answer.as_str())?;
    }
    Ok(())
}

fn events(alloc: Global, later: &[(&str, &str)]) -> Result<String, AllocError> {
    let mut text = String::from_str(alloc, "events = [")?;
    push_events(&mut text, &RAISED)?;
    for _ in 0..64 {
        text.push_str("\"ask 0 53e8\",")?;
    }
    push_events(&mut text, later)?;
    text.push_str("]\n")?;
    text.push_str(ONE)?;
    Ok(text)
}

// Demands what the events answer that come behind these asks, and how the net stands in the end. The texts are made again where memory was
// refused for them.
fn expect_behind(
    rt: &impl Abort,
    alloc: Global,
    head: &str,
    later: &[(&str, &str)],
    end: &str,
) -> Result<(), Fail> {
    let text = match events(alloc, later) {
        Ok(text) => text,
        Err(_) => events(alloc, later)?,
    };
    let report = match answers(alloc, head, later, end) {
        Ok(report) => report,
        Err(_) => answers(alloc, head, later, end)?,
    };
    reports(rt, alloc, text.as_str(), report.as_str())
}

fn answers(
    alloc: Global,
    head: &str,
    later: &[(&str, &str)],
    end: &str,
) -> Result<String, AllocError> {
    let mut report = String::from_str(alloc, head)?;
    push_answers(alloc, &mut report, &RAISED, 1)?;
    push_asked(alloc, &mut report)?;
    push_answers(alloc, &mut report, later, 73)?;
    report.push_str(end)?;
    Ok(report)
}

#[test]
fn a_restart_waits_for_the_kept_spacing(rt: HostRuntime) -> Result<(), Fail> {
    let restarted = [
        ("crash 0", "crashed"),
        ("start 0 1000000000000", "started"),
        ("ask 0 53e8", "asked 129 0000 53e8"),
        ("request 0 1 129", "passed"),
        ("turn 0 129", "turned"),
        ("yes 0 1 129", "passed"),
        ("told-yes 0 129", "told Raised"),
        ("emit 0 1000999999999", "refused TooSoon 1001000000000"),
        ("emit 0 1001000000000", "emitted 1 1002000000000"),
        ("arrive 0 1 1001000001000", "arrived Conforming"),
    ];
    let end = "connection 0 rate 53e8 held 53e8\nport 0 total 512000 capacity 512000\nsafe\n";
    expect_behind(&rt, rt.alloc(), "events 82\n", &restarted, end)
}

#[test]
fn a_greater_need_is_written_within_a_stride(rt: HostRuntime) -> Result<(), Fail> {
    let lowered = [
        ("ask 0 53e8 before", "asked 66 53e8 53e8"),
        ("ask 0 5120 before", "refused Keep"),
        ("ask 0 5120", "asked 67 5120 5120"),
        ("crash 0", "crashed"),
        ("start 0 1000000000000", "started"),
        ("ask 0 5120", "asked 131 0000 5120"),
    ];
    let end = "connection 0 rate 0000 held 53e8\nport 0 total 512000 capacity 512000\nsafe\n";
    expect_behind(&rt, rt.alloc(), "events 78\n", &lowered, end)
}
