//! Lines of events, counted by hand.
use abt_model::Event;
use abt_places::{event_lines, read_placed};
use abt_scenario::EngineFault;
use std::alloc::Global;
use std::process::Abort;
use std::test::Fail;

/// Events on many lines, with what isn't one between them.
const MANY: &str = "# events = [\n\"ports\" = [1]\nevents = [ # not \"this\" one\n\
    'start 0 0', \"start 1 \\u0030\",\n\n  \"\"\"start 2 \\\n   0\"\"\", \"start 2 0\",\n\
    # ]\n\"start 3 0\" ]\n[other]\nevents = ['again 0']\n";

/// All in one line.
const ONE: &str = "events = ['again 0', 'again 1']\nports = []\n";

/// None at all.
const NONE: &str =
    "ports = [1]\n[[connection]]\nvpi = 1\nvci = 1\npath = [0]\ndelay = 0\ntau = 0\nevents = ['again 0']\n";

// The lines of a text, which is read again if memory was refused.
fn lines_of(rt: &impl Abort, alloc: Global, text: &str) -> Result<Vec<u64>, Fail> {
    for _ in 0..2 {
        match read_placed(alloc, &mut text.as_bytes()) {
            Ok(placed) => return Ok(placed.lines),
            Err(fault) => assert_eq!(rt; fault, EngineFault::Memory),
        }
    }
    Err(Fail::from("memory was refused twice"))
}

fn stand_in(rt: &impl Abort, alloc: Global, text: &str, lines: &[u64]) -> Result<(), Fail> {
    let found = lines_of(rt, alloc, text)?;
    assert_eq!(rt; found.as_slice(), lines);
    Ok(())
}

#[test]
fn events_stand_in_these_lines(rt: HostRuntime) -> Result<(), Fail> {
    stand_in(&rt, rt.alloc(), MANY, &[4, 4, 6, 7, 9])?;
    stand_in(&rt, rt.alloc(), ONE, &[1, 1])?;
    stand_in(&rt, rt.alloc(), NONE, &[])
}

#[test]
fn an_event_that_isnt_there_has_no_line(rt: HostRuntime) -> Result<(), Fail> {
    let events = [Event::Again { conn: 0 }, Event::Again { conn: 2 }];
    for _ in 0..2 {
        if let Ok(lines) = event_lines(rt.alloc(), ONE, &events) {
            assert_eq!(rt; lines.len(), 0);
            return Ok(());
        }
    }
    Err(Fail::from("memory was refused twice"))
}
