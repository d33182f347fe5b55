//! Rows of `abt run`, over readers that are handed in.
ghost use Rattle.abt_perform.specs.Plans.{IsWithinLimits};

use super::{Narrow, done_alone, joined, planned};
use abt_perform::Plan;
use std::alloc::Global;
use std::io::{self, Error, ErrorKind, Read};
use std::process::Abort;
use std::test::Fail;

/// The example of docs/FORMATS.md, "Report".
pub(super) const EXAMPLE: &str =
    "ports = [512000]\nevents = [\n  \"start 0 0\", \"ask 0 5120\", \"request 0 1 1\", \"turn 0 1\",\n  \
    \"yes 0 1 1\", \"ask 0 5258\", \"told-yes 0 1\",\n]\n\
    [[connection]]\nvpi = 1\nvci = 100\npath = [0]\ndelay = 1000\ntau = 200\n";

/// Its report.
pub(super) const EXAMPLE_REPORT: &str =
    "events 7\n1 started\n2 asked 1 0000 5120\n3 passed\n4 turned\n5 passed\n6 asked 2 0000 5258\n\
    7 told Ignored\nconnection 0 rate 0000 held 5120\nport 0 total 204800 capacity 512000\nsafe\n";

/// The table of a connection over port 0, and what may follow in it.
const TABLE: &str = "[[connection]]\nvpi = 1\nvci = 100\npath = [0]\ndelay = 1000\ntau = 200\n";

/// A reader that gives a text one octet a call, and fails at its end.
#[derive(Drop)]
struct Failing<'a> {
    left: &'a [u8],
}

impl<'a> Read for Failing<'a> {
    fn read(&mut self, buf: &mut [u8]) -> io::Result<usize> {
        match self.left.split_first() {
            Some((octet, left)) if !buf.is_empty() => {
                buf[0] = *octet;
                self.left = left;
                Ok(1)
            }
            _ => Err(Error::from(ErrorKind::Other)),
        }
    }
}

/// A reader that gives line feeds for ever.
#[derive(Drop)]
struct Endless;

impl Read for Endless {
    fn read(&mut self, buf: &mut [u8]) -> io::Result<usize> {
        for octet in buf.iter_mut() {
            *octet = b'\n';
        }
        Ok(buf.len())
    }
}

/// Runs what a reader has, and demands the status, what goes out and what is told.
fn is_run<R: Read>(
    rt: &impl Abort,
    alloc: Global,
    plan: &Plan,
    reader: &mut R,
    text: &str,
    fault: &str,
)
    requires { IsWithinLimits plan.now }
{
    let mut out = Narrow::new(512);
    let mut errors = Narrow::new(512);
    let status = done_alone(alloc, plan, reader, &mut out, &mut errors);
    assert_eq!(rt; errors.taken(), fault.as_bytes());
    assert_eq!(rt; out.taken(), text.as_bytes());
    assert_eq!(rt; status, if fault.is_empty() { 0 } else { 1 });
}

/// Runs a scenario's text, and demands the status, what goes out and what is told.
fn expect_run(
    rt: &impl Abort,
    alloc: Global,
    scenario: &[u8],
    text: &str,
    fault: &str,
) -> Result<(), Fail> {
    let plan = planned(alloc, &["run"])?;
    let mut reader = scenario;
    is_run(rt, alloc, &plan, &mut reader, text, fault);
    Ok(())
}

#[test]
fn a_scenario_is_run_and_reported(rt: HostRuntime) -> Result<(), Fail> {
    expect_run(&rt, rt.alloc(), EXAMPLE.as_bytes(), EXAMPLE_REPORT, "")
}

#[test]
fn the_empty_net_is_safe(rt: HostRuntime) -> Result<(), Fail> {
    expect_run(
        &rt,
        rt.alloc(),
        "ports = []".as_bytes(),
        "events 0\nsafe\n",
        "",
    )
}

#[test]
fn each_fault_of_a_scenario_is_told_with_its_fields(rt: HostRuntime) -> Result<(), Fail> {
    let alloc = rt.alloc();
    for (head, tail, fault) in [
        ("ports = [", "", "fault: Toml\n"),
        ("", "", "fault: MissingKey ports\n"),
        ("ports = 5", "", "fault: WrongType ports\n"),
        (
            "ports = []\nconnection = 5",
            "",
            "fault: WrongType connection\n",
        ),
        (
            "ports = []\n[[connection]]\nvpi = 1",
            "",
            "fault: MissingKey vci\n",
        ),
        (
            "ports = []\n[[connection]]\nvpi = 4096",
            "",
            "fault: WrongType vpi\n",
        ),
        ("ports = []\n", TABLE, "fault: Net NoPort 0\n"),
        (
            "ports = [1152921504606846977]\n",
            TABLE,
            "fault: Net Limit\n",
        ),
        (
            "ports = []\nevents = [\"crash 0\", \"crash 0\", \"\"]",
            "",
            "fault: EventText 3\n",
        ),
    ] {
        is_told(&rt, alloc, &[head, tail], fault)?;
    }
    expect_run(&rt, alloc, b"ports = []\xff", "", "fault: NotUtf8\n")
}

// Demands the fault of a scenario whose text is given in pieces.
fn is_told(rt: &impl Abort, alloc: Global, pieces: &[&str], fault: &str) -> Result<(), Fail> {
    let text = joined(alloc, pieces)?;
    expect_run(rt, alloc, text.as_bytes(), "", fault)
}

#[test]
fn each_fault_of_a_connection_is_told_with_its_number(rt: HostRuntime) -> Result<(), Fail> {
    let alloc = rt.alloc();
    for (path, fault) in [
        ("[]", "fault: Net PathLength 1\n"),
        ("[0, 0]", "fault: Net PathRepeat 1\n"),
    ] {
        is_told(
            &rt,
            alloc,
            &[
                "ports = [512000]\n",
                TABLE,
                "[[connection]]\nvpi = 1\nvci = 101\npath = ",
                path,
                "\ndelay = 0\ntau = 0\n",
            ],
            fault,
        )?;
    }
    is_told(
        &rt,
        alloc,
        &[
            "ports = [512000]\n",
            TABLE,
            "script = [\"start 0\", \"emit 5\"]\n",
        ],
        "fault: ScriptText 0 2\n",
    )?;
    is_told(
        &rt,
        alloc,
        &["ports = [512000]\n", TABLE, TABLE],
        "fault: Net VcRepeat 1\n",
    )
}

#[test]
fn a_reader_that_fails_or_never_ends_is_told(rt: HostRuntime) -> Result<(), Fail> {
    let alloc = rt.alloc();
    let plan = planned(alloc, &["run"])?;
    let mut failing = Failing {
        left: b"ports = []",
    };
    is_run(&rt, alloc, &plan, &mut failing, "", "fault: read\n");
    is_run(&rt, alloc, &plan, &mut Endless, "", "fault: TooLong\n");
    Ok(())
}

#[test]
fn of_a_report_that_breaks_off_the_beginning_went_out(rt: HostRuntime) -> Result<(), Fail> {
    let alloc = rt.alloc();
    for room in 0..EXAMPLE_REPORT.len() {
        let plan = planned(alloc, &["run"])?;
        breaks_off(&rt, alloc, &plan, room);
    }
    Ok(())
}

fn breaks_off(rt: &impl Abort, alloc: Global, plan: &Plan, room: usize)
    requires { IsWithinLimits plan.now }
{
    let mut out = Narrow::new(room);
    let mut errors = Narrow::new(512);
    let status = done_alone(alloc, plan, &mut EXAMPLE.as_bytes(), &mut out, &mut errors);
    assert_eq!(rt; status, 1);
    assert_eq!(rt; errors.taken(), "fault: write\n".as_bytes());
    assert_eq!(rt; out.taken().len(), room);
    assert!(rt; EXAMPLE_REPORT.as_bytes().starts_with(out.taken()));
}
