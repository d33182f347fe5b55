//! Logs that leave open whether a write that failed was stored. They are worked by hand from docs/RULES.md, "Source".
use super::{joined, line_of, same};
use abt_audit::{Form, show_audit};
use abt_entry::{Line, entry_line};
use abt_journal_text::{Book, OpenWrite, read_text};
use abt_keep::StorePlan;
use abt_model::{Event, Outcome, SourceEntry};
use abt_rate::Rate;
use abt_source::AskFault;
use std::alloc::Global;
use std::process::Abort;
use std::test::Fail;

const NET: &str =
    r#"{"net":{"ports":[512000],"connections":[{"vpi":1,"vci":100,"path":[0],"delay":1000,"tau":200}]}}
{"source":0,"did":{"start":0},"outcome":"started"}
"#;

/// The source asks for 400 cells per second, and its store fails; or it asks for 600.
const FAILED: &str =
    r#"{"source":0,"did":{"ask":"5120","store":"failed"},"outcome":{"refused":"Keep"}}
"#;

const FAILED_600: &str =
    r#"{"source":0,"did":{"ask":"5258","store":"failed"},"outcome":{"refused":"Keep"}}
"#;

const CRASHED: &str = r#"{"source":0,"did":"crash","outcome":"crashed"}
"#;

const STARTED: &str = r#"{"source":0,"did":{"start":5},"outcome":"started"}
"#;

const END: &str = r#"{"end":true}
"#;

/// The source asks for 400 cells per second, and sends a request of a number.
fn asked(alloc: Global, seq: &str) -> Result<String, Fail> {
    Ok(joined(
        alloc,
        &[
            r#"{"source":0,"did":{"ask":"5120"},"outcome":{"asked":{"vpi":1,"vci":100,"seq":"#,
            seq,
            ",\"floor\":\"0000\",\"ask\":\"5120\"}}}\n",
        ],
    )?)
}

fn ask(plan: StorePlan) -> Event {
    Event::Ask {
        conn: 0,
        rate: Rate::from_code(0x5120),
        plan,
    }
}

/// How the store did in an ask; `None` of anything else.
fn plan_in(event: &Event) -> Option<StorePlan> {
    match event {
        Event::Ask { plan, .. } => Some(*plan),
        _ => None,
    }
}

/// What an audit of these pieces tells: how the stores of its asks did, one behind the other, or its faults.
fn audited(alloc: Global, pieces: &[&str]) -> Result<(Vec<StorePlan>, Vec<u8>), Fail> {
    let text = joined(alloc, pieces)?;
    let mut readers = Vec::new(alloc);
    readers.push(text.as_bytes())?;
    let mut shown = Vec::new(alloc);
    let mut told = Vec::new(alloc);
    let run = show_audit(alloc, Form::Words, &[], readers, &mut shown, &mut told);
    let mut plans = Vec::new(alloc);
    let Ok(run) = run else {
        if told.as_slice() == b"fault: memory\n".as_slice() {
            return Err(Fail::from("out of memory"));
        }
        return Ok((plans, told));
    };
    for event in run.audited.events.as_slice() {
        if let Some(plan) = plan_in(event) {
            plans.push(plan)?;
        }
    }
    Ok((plans, told))
}

/// Demands that an audit of these pieces shows asks whose stores did so.
fn settles(
    rt: &impl Abort,
    alloc: Global,
    pieces: &[&str],
    expected: &[StorePlan],
) -> Result<(), Fail> {
    let (plans, told) = audited(alloc, pieces)?;
    same(rt, &told.len(), &0);
    same(rt, &plans.as_slice(), &expected);
    Ok(())
}

#[test]
fn a_line_may_leave_open_whether_a_write_was_stored(rt: HostRuntime) -> Result<(), Fail> {
    let alloc = rt.alloc();
    let expected = SourceEntry::Did(
        ask(StorePlan::FailsBefore),
        Outcome::AskRefused(AskFault::Keep),
    );
    let text = r#"{"source":0,"did":{"ask":"5120","store":"failed"},"outcome":{"refused":"Keep"}}"#;
    let Line::Open { source, entry } = line_of(alloc, text)? else {
        return Err(Fail::from("nothing is open"));
    };
    same(&rt, &source, &0);
    same(&rt, &entry, &expected);
    let written = entry_line(alloc, 0, &entry)?;
    let again =
        r#"{"source":0,"did":{"ask":"5120","store":"before"},"outcome":{"refused":"Keep"}}"#;
    same(&rt, &written.as_slice(), &again.as_bytes());
    Ok(())
}

#[test]
fn only_an_ask_leaves_something_open(rt: HostRuntime) -> Result<(), Fail> {
    let alloc = rt.alloc();
    let text = r#"{"source":0,"did":{"start":0,"store":"failed"},"outcome":"started"}"#;
    let settled = matches!(line_of(alloc, text)?, Line::Source { .. });
    same(&rt, &settled, &true);
    Ok(())
}

#[test]
fn a_book_names_the_entries_that_are_open(rt: HostRuntime) -> Result<(), Fail> {
    let alloc = rt.alloc();
    let text = joined(alloc, &[NET, FAILED, CRASHED, STARTED, FAILED, END])?;
    let mut book = Book::new(alloc);
    if read_text(alloc, &mut book, 1, &mut text.as_bytes()).is_err() {
        return Err(Fail::from("the text isn't read"));
    }
    let Some(run) = book.into_run(alloc)? else {
        return Err(Fail::from("no net"));
    };
    let expected = [
        OpenWrite {
            source: 0,
            place: 1,
        },
        OpenWrite {
            source: 0,
            place: 4,
        },
    ];
    same(&rt, &run.open_writes.as_slice(), &expected.as_slice());
    Ok(())
}

#[test]
fn the_next_number_shows_what_was_stored(rt: HostRuntime) -> Result<(), Fail> {
    let alloc = rt.alloc();
    let first = asked(alloc, "1")?;
    let stored = asked(alloc, "65")?;
    settles(
        &rt,
        alloc,
        &[NET, FAILED, CRASHED, STARTED, first.as_str(), END],
        &[StorePlan::FailsBefore, StorePlan::Works],
    )?;
    settles(
        &rt,
        alloc,
        &[NET, FAILED, CRASHED, STARTED, stored.as_str(), END],
        &[StorePlan::FailsAfter, StorePlan::Works],
    )
}

#[test]
fn what_nothing_shows_is_taken_as_not_stored(rt: HostRuntime) -> Result<(), Fail> {
    let alloc = rt.alloc();
    settles(&rt, alloc, &[NET, FAILED, END], &[StorePlan::FailsBefore])?;
    let first = asked(alloc, "1")?;
    settles(
        &rt,
        alloc,
        &[NET, FAILED, first.as_str(), CRASHED, STARTED, END],
        &[StorePlan::FailsBefore, StorePlan::Works],
    )
}

#[test]
fn a_later_number_shows_two_writes_at_once(rt: HostRuntime) -> Result<(), Fail> {
    let alloc = rt.alloc();
    let both = asked(alloc, "129")?;
    settles(
        &rt,
        alloc,
        &[
            NET,
            FAILED,
            CRASHED,
            STARTED,
            FAILED,
            CRASHED,
            STARTED,
            both.as_str(),
            END,
        ],
        &[
            StorePlan::FailsAfter,
            StorePlan::FailsAfter,
            StorePlan::Works,
        ],
    )
}

/// Both asks write the number 64 and the hold-off, which is a second.
#[test]
fn of_two_writes_of_one_record_the_later_is_taken_as_stored(rt: HostRuntime) -> Result<(), Fail> {
    let alloc = rt.alloc();
    let stored = asked(alloc, "65")?;
    settles(
        &rt,
        alloc,
        &[
            NET,
            FAILED,
            FAILED_600,
            CRASHED,
            STARTED,
            stored.as_str(),
            END,
        ],
        &[
            StorePlan::FailsBefore,
            StorePlan::FailsAfter,
            StorePlan::Works,
        ],
    )
}

#[test]
fn an_entry_that_settles_a_write_neither_way_is_named(rt: HostRuntime) -> Result<(), Fail> {
    let alloc = rt.alloc();
    let strange = asked(alloc, "2")?;
    let (plans, told) = audited(
        alloc,
        &[NET, FAILED, CRASHED, STARTED, strange.as_str(), END],
    )?;
    same(&rt, &plans.len(), &0);
    let expected = "fault: Mismatch\n\
        -:6: {\"source\":0,\"did\":{\"ask\":\"5120\",\"store\":\"works\"},\"outcome\":{\"asked\":{\"vpi\":1,\"vci\":100,\"seq\":2,\"floor\":\"0000\",\"ask\":\"5120\"}}}\n\
        protocol: {\"asked\":{\"vpi\":1,\"vci\":100,\"seq\":1,\"floor\":\"0000\",\"ask\":\"5120\"}}\n\
        why: asks for 400 cells/s, keeps 0\n";
    same(&rt, &told.as_slice(), &expected.as_bytes());
    Ok(())
}
