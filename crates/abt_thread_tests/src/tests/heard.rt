//! What a source hears, and what goes on from the first port. Expected values: by hand from
//! docs/RULES.md, "Workers".
use super::answers::worked;
use super::fixture::{
    LONG, START, ask, entries, faithful, first_request, is_told, listen, lone_boxes, net, one_port,
    port, ran,
};
use abt_cell::Answer;
use abt_journal::{Entry, PortInput};
use abt_model::{Command, Event, Heard, Outcome, Script, SourceEntry, SourceJournal};
use std::alloc::Global;
use std::sync::Wait;
use std::test::*;

// How many of the entries of a port are for requests.
fn requests_in(entries: &[Entry]) -> usize {
    entries
        .iter()
        .filter(|entry| matches!(entry.input, PortInput::Request(_)))
        .count()
}

/// The repeat lies in the channel before the source hears the yes, and so before the one link worker is stopped.
#[test]
fn a_repeat_that_the_first_port_passes_goes_on_to_the_second(rt: HostRuntime) -> Result<(), Fail> {
    let net = net(rt.alloc(), 2, &[(&[0, 1], 1000, 200)]).ok_or("no net")?;
    let script = [START, ask(0x5120), Command::Again, listen(LONG)];
    let run = ran(&rt, rt.alloc(), &net, &[&script], faithful(1))?;
    assert_eq!(rt; requests_in(port(&run, 0)), 2);
    assert_eq!(rt; requests_in(port(&run, 1)), 2);
    Ok(())
}

/// Code 7fff asks for more than any link carries. The refusal lies in the source's box before the source looks into it.
#[test]
fn a_refusal_by_the_first_port_is_heard_at_the_first_look(rt: HostRuntime) -> Result<(), Fail> {
    let net = one_port(rt.alloc())?;
    let script = [START, ask(0x7fff), listen(1)];
    let run = ran(&rt, rt.alloc(), &net, &[&script], faithful(1))?;
    let told = Event::Told {
        conn: 0,
        seq: 1,
        granted: false,
    };
    let [_, _, _, heard] = entries(&run, 0) else {
        return Err(Fail::from("not four entries"));
    };
    assert!(rt; *heard == SourceEntry::Did(told, Outcome::Told(Heard::Refused)));
    Ok(())
}

// The journal of the one source, in whose box these answers lie, the first one first.
fn journal_of<R: Wait>(
    rt: &R,
    alloc: Global,
    script: &[Command],
    answers: &[Answer],
) -> Result<SourceJournal, Fail> {
    let net = one_port(alloc)?;
    let boxes = lone_boxes(alloc, &net).ok_or("no box")?;
    for answer_box in &boxes {
        for answer in answers {
            answer_box.lock(rt).push_back(*answer)?;
        }
    }
    let script = Script::from(script.to_vec(alloc)?);
    worked(rt, alloc, &net, &script, &boxes)
}

/// The first answer is a yes to another rate, under the number that the source asked by.
#[test]
fn an_answer_that_is_ignored_does_not_end_a_listen(rt: HostRuntime) -> Result<(), Fail> {
    let answers = [
        Answer::of(&first_request(100, 0x5120)?, true),
        Answer::of(&first_request(100, 0x5258)?, true),
    ];
    let script = [START, ask(0x5258), listen(2)];
    let journal = journal_of(&rt, rt.alloc(), &script, &answers)?;
    let [_, _, _, ignored, heard] = journal.entries.as_slice() else {
        return Err(Fail::from("not five entries"));
    };
    assert!(rt; is_told(ignored, 1));
    assert!(rt; matches!(ignored, SourceEntry::Did(_, Outcome::Told(Heard::Ignored))));
    assert!(rt; is_told(heard, 1));
    assert!(rt; matches!(heard, SourceEntry::Did(_, Outcome::Told(Heard::Raised))));
    Ok(())
}
