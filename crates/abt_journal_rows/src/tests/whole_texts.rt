//! Whole texts, read. They are written by hand from docs/JOURNALS.md.
use abt_entry::{LineFault, Member};
use abt_journal_text::{Book, Cause, Run, Spot, read_text};
use std::alloc::Global;
use std::test::Fail;

const NET: &str =
    r#"{"net":{"ports":[512000],"connections":[{"vpi":1,"vci":100,"path":[0],"delay":1000,"tau":200}]}}
"#;

const START: &str = r#"{"source":0,"did":{"start":0},"outcome":"started"}
"#;

const ASK: &str =
    r#"{"source":0,"did":{"ask":"5120"},"outcome":{"asked":{"vpi":1,"vci":100,"seq":1,"floor":"0000","ask":"5120"}}}
"#;

const STEP: &str =
    r#"{"port":0,"place":0,"input":{"request":{"vpi":1,"vci":100,"seq":1,"floor":"0000","ask":"5120"}},"reply":"passed"}
"#;

const SENT: &str = r#"{"source":0,"sent":0}
"#;

const END: &str = r#"{"end":true}
"#;

/// Reads a text of these lines into a book, and tells where its first fault is.
fn read_lines(
    alloc: Global,
    book: &mut Book,
    number: u64,
    lines: &[&str],
) -> Result<Option<(u64, u64, Cause)>, Fail> {
    let mut text = String::new(alloc);
    for line in lines {
        text.push_str(line)?;
    }
    let mut reader = text.as_bytes();
    match read_text(alloc, book, number, &mut reader) {
        Ok(()) => Ok(None),
        Err(fault) => Ok(Some((fault.spot.text, fault.spot.line, fault.cause))),
    }
}

/// Wants one text to have a fault in this line.
fn wants(alloc: Global, lines: &[&str], line: u64, cause: Cause) -> Result<(), Fail> {
    let mut book = Book::new(alloc);
    match read_lines(alloc, &mut book, 1, lines)? {
        Some((1, at, why)) if at == line && why == cause => Ok(()),
        _ => Err(Fail::from("another fault, or none")),
    }
}

/// What two texts tell.
fn run_of(alloc: Global, first: &[&str], second: &[&str]) -> Result<Run, Fail> {
    let mut book = Book::new(alloc);
    let faults = (
        read_lines(alloc, &mut book, 1, first)?,
        read_lines(alloc, &mut book, 2, second)?,
    );
    let (None, None) = faults else {
        return Err(Fail::from("a text isn't read"));
    };
    match book.into_run(alloc)? {
        Some(run) => Ok(run),
        None => Err(Fail::from("no net")),
    }
}

fn spot_in(spots: &[Vec<Spot>], place: usize) -> Option<(u64, u64)> {
    let Some(list) = spots.first() else {
        return None;
    };
    match list.get(place) {
        Some(spot) => Some((spot.text, spot.line)),
        None => None,
    }
}

fn cut_in(cuts: &[Spot], number: usize) -> Option<(u64, u64)> {
    match cuts.get(number) {
        Some(spot) => Some((spot.text, spot.line)),
        None => None,
    }
}

#[test]
fn entries_of_actors_may_be_mixed_over_texts(rt: HostRuntime) -> Result<(), Fail> {
    let alloc = rt.alloc();
    let run = run_of(alloc, &[NET, START, ASK, END], &[STEP, SENT, END])?;
    assert_eq!(rt; spot_in(run.port_spots.as_slice(), 0), Some((2, 1)));
    assert_eq!(rt; spot_in(run.source_spots.as_slice(), 1), Some((1, 3)));
    assert_eq!(rt; spot_in(run.source_spots.as_slice(), 2), Some((2, 2)));
    assert_eq!(rt; run.sources.len(), 1);
    Ok(())
}

#[test]
fn a_text_begins_with_the_net_and_nothing_follows_its_end(rt: HostRuntime) -> Result<(), Fail> {
    let alloc = rt.alloc();
    wants(alloc, &[START], 1, Cause::NoNet)?;
    wants(alloc, &[END], 1, Cause::NoNet)?;
    wants(alloc, &[NET, NET], 2, Cause::SecondNet)?;
    wants(alloc, &[NET, END, START], 3, Cause::Behind)
}

#[test]
fn a_line_that_is_cut_is_left_out(rt: HostRuntime) -> Result<(), Fail> {
    let alloc = rt.alloc();
    let run = run_of(
        alloc,
        &[NET, START, r#"{"end":true}"#],
        &[STEP, "{\"source\":0,"],
    )?;
    assert_eq!(rt; cut_in(run.cuts.as_slice(), 0), Some((1, 3)));
    assert_eq!(rt; cut_in(run.cuts.as_slice(), 1), Some((2, 2)));
    assert_eq!(rt; cut_in(run.cuts.as_slice(), 2), None);
    Ok(())
}

#[test]
fn a_line_has_to_be_one_of_a_journal_of_the_net(rt: HostRuntime) -> Result<(), Fail> {
    let alloc = rt.alloc();
    wants(alloc, &[NET, "{]\n"], 2, Cause::Line(LineFault::Json))?;
    wants(alloc, &[NET, "\n"], 2, Cause::Line(LineFault::Json))?;
    wants(alloc, &[NET, "{}\n"], 2, Cause::Line(LineFault::Kind))?;
    wants(
        alloc,
        &[NET, "{\"end\":true,\"end\":true}\n"],
        2,
        Cause::Line(LineFault::Twice),
    )?;
    wants(
        alloc,
        &[NET, "{\"end\":1}\n"],
        2,
        Cause::Line(LineFault::Member(Member::End)),
    )?;
    wants(
        alloc,
        &[NET, "{\"source\":1,\"sent\":0}\n"],
        2,
        Cause::NoSource,
    )?;
    wants(alloc, &[NET, STEP, STEP], 3, Cause::Place)
}
