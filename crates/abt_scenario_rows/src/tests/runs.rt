//! Runs from text to report. Each row gives events and, beside each, what it has to answer, and then how the net has to stand.
mod capacities;
mod cells;
mod requests;
mod streams;
mod strides;
mod traces;

use abt_scenario::{EngineFault, run_text};
use std::alloc::{AllocError, Global};
use std::process::Abort;
use std::test::Fail;
use streams::Narrow;

/// Connection 0 (vci 100) runs over port 1, connection 1 (vci 101) over ports 0 and 1.
const TWO: &str = "ports = [512000, 512000]\n\
    [[connection]]\nvpi = 1\nvci = 100\npath = [1]\ndelay = 1000\ntau = 200\n\
    [[connection]]\nvpi = 1\nvci = 101\npath = [0, 1]\ndelay = 1000\ntau = 200\n";

/// One connection over a port that takes the greatest rate.
const FAST: &str = "ports = [2196875771904]\n\
    [[connection]]\nvpi = 1\nvci = 100\npath = [0]\ndelay = 1000\ntau = 1000\n";

/// The example of docs/FORMATS.md, "Report".
const EXAMPLE: &str =
    "ports = [512000]\nevents = [\n  \"start 0 0\", \"ask 0 5120\", \"request 0 1 1\", \"turn 0 1\",\n  \
    \"yes 0 1 1\", \"ask 0 5258\", \"told-yes 0 1\",\n]\n\
    [[connection]]\nvpi = 1\nvci = 100\npath = [0]\ndelay = 1000\ntau = 200\n";

/// Its report.
const EXAMPLE_REPORT: &str =
    "events 7\n1 started\n2 asked 1 0000 5120\n3 passed\n4 turned\n5 passed\n6 asked 2 0000 5258\n\
    7 told Ignored\nconnection 0 rate 0000 held 5120\nport 0 total 204800 capacity 512000\nsafe\n";

// Demands the report of a text. If memory is refused nothing went out, and the text is run again.
fn reports(rt: &impl Abort, alloc: Global, text: &str, report: &str) -> Result<(), Fail> {
    for _ in 0..2 {
        let mut out = Narrow::new(1024, 4096);
        match run_text(alloc, &mut text.as_bytes(), &mut out) {
            Ok(()) => {
                assert_eq!(rt; std::str::from_utf8(out.taken()), Ok(report));
                return Ok(());
            }
            Err(fault) => {
                assert_eq!(rt; fault, EngineFault::Memory);
                assert_eq!(rt; out.taken().len(), 0);
            }
        }
    }
    Err(Fail::from("memory was refused twice"))
}

// Demands what the events of a net answer, and how the net stands in the end. The texts are made again if memory was refused for them.
fn expect(
    rt: &impl Abort,
    alloc: Global,
    net: &str,
    rows: &[(&str, &str)],
    end: &str,
) -> Result<(), Fail> {
    let text = match text_of(alloc, net, rows) {
        Ok(text) => text,
        Err(_) => text_of(alloc, net, rows)?,
    };
    let report = match report_of(alloc, rows, end) {
        Ok(report) => report,
        Err(_) => report_of(alloc, rows, end)?,
    };
    reports(rt, alloc, text.as_str(), report.as_str())
}

fn text_of(alloc: Global, net: &str, rows: &[(&str, &str)]) -> Result<String, AllocError> {
    let mut text = String::from_str(alloc, "events = [")?;
    push_events(&mut text, rows)?;
    text.push_str("]\n")?;
    text.push_str(net)?;
    Ok(text)
}

fn report_of(alloc: Global, rows: &[(&str, &str)], end: &str) -> Result<String, AllocError> {
    let mut report = format!(in alloc; "events {}\n", rows.len())?;
    push_answers(alloc, &mut report, rows, 1)?;
    report.push_str(end)?;
    Ok(report)
}

fn push_events(text: &mut String, rows: &[(&str, &str)]) -> Result<(), AllocError> {
    for (event, _answer) in rows {
        for piece in ["\"", event, "\","] {
            text.push_str(piece)?;
        }
    }
    Ok(())
}

// Adds the answers of events, numbered from this number on.
fn push_answers(
    alloc: Global,
    report: &mut String,
    rows: &[(&str, &str)],
    first: u64,
) -> Result<(), AllocError> {
    let mut number = first;
    for (_event, answer) in rows {
        push_answer(alloc, report, number, answer)?;
        number = number.saturating_add(1);
    }
    Ok(())
}

fn push_answer(
    alloc: Global,
    report: &mut String,
    number: u64,
    answer: &str,
) -> Result<(), AllocError> {
    let line = format!(in alloc; "{number} {answer}\n")?;
    report.push_str(line.as_str())
}

#[test]
fn the_example_is_reported(rt: HostRuntime) -> Result<(), Fail> {
    reports(&rt, rt.alloc(), EXAMPLE, EXAMPLE_REPORT)
}

#[test]
fn an_empty_net_is_safe(rt: HostRuntime) -> Result<(), Fail> {
    reports(&rt, rt.alloc(), "ports = []", "events 0\nsafe\n")
}
