//! Dialogues of a net, an event a line, over readers of pieces of each length and writers that fail.
use super::Narrow;
use abt_lines::{LinesFault, serve_lines};
use abt_scenario::{Scenario, read};
use abt_step::{AnswerForm, SteppedLines};
use std::alloc::Global;
use std::io::{self, Read};
use std::process::Abort;
use std::test::Fail;

/// The net of the example of docs/FORMATS.md, "Report", of which the first two events happen before the first line.
const NET: &str = "ports = [512000]\nevents = [\"start 0 0\", \"ask 0 5120\"]\n\
    [[connection]]\nvpi = 1\nvci = 100\npath = [0]\ndelay = 1000\ntau = 200\n";

/// The other events of the example, what is no event, and the first ones again behind a new beginning.
const LINES: &str =
    "request 0 1 1\n# a comment\nturn 0 1\nyes 0 1 1\r\nyes  0 1 1\n\nask 0 5258\ntold-yes 0 1\nreset\nrequest 0 1 1";

/// The answers to them.
const ANSWERS: &str =
    "3 passed\n4 turned\n5 passed\nfault event\nfault event\n6 asked 2 0000 5258\n7 told Ignored\nreset\n3 passed\nsafe\n";

/// Events, a line that says none, and a new beginning.
const ASKED: &str = "request 0 1 1\nemit 0 5\nnone\nreset\n";

/// The answers as objects.
const OBJECTS: &str =
    "{\"kind\":\"event\",\"event\":3,\"text\":\"request 0 1 1\",\"outcome\":\"passed\",\"words\":\"passed\",\"why\":{}}\n\
    {\"kind\":\"event\",\"event\":4,\"text\":\"emit 0 5\",\"outcome\":\"refused\",\"fault\":\"Zero\",\
    \"words\":\"refused Zero: the rate is 0\",\"why\":{}}\n\
    {\"kind\":\"fault\",\"fault\":\"event\"}\n{\"kind\":\"reset\"}\n{\"kind\":\"end\",\"safe\":true}\n";

/// The answers in words, with the state behind each.
const STATES: &str =
    "3 passed\nstate; connection 0 rate 0000 held 5120; port 0 total 204800 capacity 512000\n\
    4 refused Zero\nstate; connection 0 rate 0000 held 5120; port 0 total 204800 capacity 512000\nfault event\n\
    reset\nstate; connection 0 rate 0000 held 0000; port 0 total 0 capacity 512000\nsafe\n";

/// The answers in words, with what can happen next behind each.
const NEXT: &str =
    "3 passed\npossible; turn 0 1\n4 refused Zero\npossible; turn 0 1\nfault event\nreset\npossible; request 0 1 1\nsafe\n";

/// The answer to a query for it as an object.
const NEXT_TOLD: &str =
    "{\"kind\":\"possible\",\"messages\":[\"request 0 1 1\"],\"cells\":[]}\n{\"kind\":\"end\",\"safe\":true}\n";

/// A cell that never left, and queries.
const QUERIES: &str = "arrive 0 0 9\n? state\n? report\n";

/// The answers to them as objects.
const TOLD: &str =
    "{\"kind\":\"event\",\"event\":3,\"text\":\"arrive 0 0 9\",\"outcome\":\"not-enabled\",\"cause\":\"NotSent\",\
    \"words\":\"not-enabled NotSent: cell 0 isn't among the 0 that left\",\"why\":{\"emitted\":0}}\n\
    {\"kind\":\"state\",\"rates\":[\"0000\"],\"held\":[[\"0000\"]],\"totals\":[0],\"capacities\":[512000]}\n\
    {\"kind\":\"report\",\"rates\":[\"0000\"],\"held\":[[\"0000\"]],\"totals\":[0],\"capacities\":[512000],\"safe\":true}\n\
    {\"kind\":\"end\",\"safe\":true}\n";

/// A reader that gives a text so many octets a call at most.
#[derive(Drop)]
struct Pieces<'a> {
    left: &'a [u8],
    count: usize,
}

impl<'a> Read for Pieces<'a> {
    fn read(&mut self, buf: &mut [u8]) -> io::Result<usize> {
        let count = self.left.len().min(self.count).min(buf.len());
        buf[..count].copy_from_slice(&self.left[..count]);
        self.left = &self.left[count..];
        Ok(count)
    }
}

// Lets the events of some lines happen to a net, in pieces of so many octets, with a writer that has room for so many.
fn held(
    alloc: Global,
    form: AnswerForm,
    scenario: &Scenario,
    lines: &str,
    count: usize,
    out: &mut Narrow,
) -> Result<(), LinesFault> {
    let mut reader = Pieces {
        left: lines.as_bytes(),
        count,
    };
    let mut lines = SteppedLines::open(alloc, form, &scenario.net, scenario.events.as_slice())?;
    serve_lines(alloc, &mut lines, &mut reader, out)
}

// The net of the example.
fn example(alloc: Global) -> Result<Scenario, Fail> {
    match read(alloc, NET) {
        Ok(scenario) => Ok(scenario),
        Err(_) => Err(Fail::from("the text is no scenario")),
    }
}

// Demands the end of a dialogue in pieces of so many octets, and what went out into a room of so many.
fn is_held(
    rt: &impl Abort,
    alloc: Global,
    scenario: &Scenario,
    count: usize,
    room: usize,
    end: Result<(), LinesFault>,
) {
    let mut out = Narrow::new(room);
    let found = held(
        alloc,
        AnswerForm::default(),
        scenario,
        LINES,
        count,
        &mut out,
    );
    assert_eq!(rt; found, end);
    assert_eq!(rt; *out.taken(), ANSWERS.as_bytes()[..room.min(ANSWERS.len())]);
}

#[test]
fn a_net_answers_each_event_in_pieces_of_each_length(rt: HostRuntime) -> Result<(), Fail> {
    let scenario = example(rt.alloc())?;
    for count in 1..=LINES.len() {
        is_held(&rt, rt.alloc(), &scenario, count, 512, Ok(()));
    }
    Ok(())
}

#[test]
fn a_write_that_fails_at_each_octet_leaves_the_answers_before_it(
    rt: HostRuntime,
) -> Result<(), Fail> {
    let scenario = example(rt.alloc())?;
    for room in 0..ANSWERS.len() {
        is_held(&rt, rt.alloc(), &scenario, 7, room, Err(LinesFault::Write));
    }
    Ok(())
}

// Demands the whole answers of a form to some lines.
fn is_said(
    rt: &impl Abort,
    alloc: Global,
    scenario: &Scenario,
    form: AnswerForm,
    lines: &str,
    answers: &str,
) {
    let mut out = Narrow::new(512);
    assert_eq!(rt; held(alloc, form, scenario, lines, 16, &mut out), Ok(()));
    assert_eq!(rt; *out.taken(), *answers.as_bytes());
}

#[test]
fn answers_are_objects(rt: HostRuntime) -> Result<(), Fail> {
    let scenario = example(rt.alloc())?;
    let form = AnswerForm {
        json: true,
        state: false,
        possible: false,
    };
    is_said(&rt, rt.alloc(), &scenario, form, ASKED, OBJECTS);
    is_said(&rt, rt.alloc(), &scenario, form, QUERIES, TOLD);
    Ok(())
}

#[test]
fn the_state_stands_behind_each_answer(rt: HostRuntime) -> Result<(), Fail> {
    let scenario = example(rt.alloc())?;
    let form = AnswerForm {
        json: false,
        state: true,
        possible: false,
    };
    is_said(&rt, rt.alloc(), &scenario, form, ASKED, STATES);
    Ok(())
}

#[test]
fn what_can_happen_next_stands_behind_each_answer(rt: HostRuntime) -> Result<(), Fail> {
    let scenario = example(rt.alloc())?;
    let form = AnswerForm {
        json: false,
        state: false,
        possible: true,
    };
    is_said(&rt, rt.alloc(), &scenario, form, ASKED, NEXT);
    let form = AnswerForm {
        json: true,
        state: false,
        possible: false,
    };
    is_said(&rt, rt.alloc(), &scenario, form, "? possible\n", NEXT_TOLD);
    Ok(())
}
