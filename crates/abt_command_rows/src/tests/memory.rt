//! Each allocation fails in turn where these tests are run by `rt try --test --fail-alloc N` (docs/TESTING.md): then want of memory is
//! told and nothing goes out, and the same call is done when it is made again.
use super::runs::{EXAMPLE, EXAMPLE_REPORT};
use super::{A, B, B2, Narrow, done_alone};
use abt_cli::{answer_words, plan_words};
use abt_perform::WordsFault;
use std::alloc::Global;
use std::process::Abort;
use std::test::Fail;

const THREE_LINES: &str = "1 pass 0010064c02045258000000000000000000000001\
6a6a6a6a6a6a6a6a6a6a6a6a6a6a6a6a6a6a6a6a6a6a6a6a6a6a6a6a6a6a038c
2 refuse 0010065c02ac5258000000000000000000000001\
6a6a6a6a6a6a6a6a6a6a6a6a6a6a6a6a6a6a6a6a6a6a6a6a6a6a6a6a6a6a008b
3 pass 0010065c02045120000000000000000000000002\
6a6a6a6a6a6a6a6a6a6a6a6a6a6a6a6a6a6a6a6a6a6a6a6a6a6a6a6a6a6a0214
total 512000
";

/// How a command ended: its status, what went out, and what was told.
#[derive(Drop)]
struct Ended {
    status: u8,
    out: Narrow,
    errors: Narrow,
}

impl Ended {
    fn is(&self, status: u8, text: &str, fault: &str) -> bool {
        self.status == status
            && self.out.taken() == text.as_bytes()
            && self.errors.taken() == fault.as_bytes()
    }
}

// Reads some words, and carries out what they ask for over this input.
fn carried_out(alloc: Global, words: &[&str], input: &str) -> Ended {
    let mut out = Narrow::new(512);
    let mut errors = Narrow::new(512);
    let status = match plan_words(alloc, words) {
        Ok(plan) => done_alone(alloc, &plan, &mut input.as_bytes(), &mut out, &mut errors),
        Err(fault) => answer_words(&fault, &mut out, &mut errors),
    };
    Ended {
        status,
        out,
        errors,
    }
}

// Demands that of three times at most one ends by want of memory, and the others so.
fn expect(rt: &impl Abort, alloc: Global, words: &[&str], input: &str, text: &str, fault: &str) {
    let status = if fault.is_empty() { 0 } else { 1 };
    let mut refused = false;
    for _time in 0..3 {
        let end = carried_out(alloc, words, input);
        if !end.is(status, text, fault) {
            assert_eq!(rt; end.errors.taken(), "fault: memory\n".as_bytes());
            assert_eq!(rt; end.out.taken(), "".as_bytes());
            assert_eq!(rt; end.status, 1);
            assert!(rt; !refused);
            refused = true;
        }
    }
}

#[test]
fn a_rate_is_told_after_memory_was_refused(rt: HostRuntime) {
    let text = "53e8 units 512000 spacing 1000000000\n";
    expect(&rt, rt.alloc(), &["rate", "53e8"], "", text, "")
}

#[test]
fn a_cell_is_told_after_memory_was_refused(rt: HostRuntime) {
    let text = "request vpi 1 vci 100 seq 1 floor 0000 ask 5258\n";
    expect(&rt, rt.alloc(), &["cell", A], "", text, "")
}

#[test]
fn a_fault_is_told_after_memory_was_refused(rt: HostRuntime) {
    expect(&rt, rt.alloc(), &["cell", "00"], "", "", "fault: Length\n")
}

#[test]
fn a_port_serves_after_memory_was_refused(rt: HostRuntime) {
    let words = ["port", "512000", A, B, B2];
    expect(&rt, rt.alloc(), &words, "", THREE_LINES, "")
}

#[test]
fn a_scenario_is_reported_after_memory_was_refused(rt: HostRuntime) {
    expect(&rt, rt.alloc(), &["run"], EXAMPLE, EXAMPLE_REPORT, "")
}

#[test]
fn what_is_no_scenario_is_told_after_memory_was_refused(rt: HostRuntime) {
    let net =
        "ports = [512000]\n[[connection]]\nvpi = 1\nvci = 100\npath = [0, 7]\ndelay = 0\ntau = 0\n";
    let fault = "fault: Net NoPort 0\n";
    expect(&rt, rt.alloc(), &["run"], net, "", fault);
    let text = "ports = []\nevents = [\"crash\"]";
    expect(&rt, rt.alloc(), &["run"], text, "", "fault: EventText 1\n")
}

#[test]
fn help_comes_after_memory_was_refused(rt: HostRuntime) -> Result<(), Fail> {
    let mut refused = false;
    for _time in 0..3 {
        match plan_words(rt.alloc(), &["port", "--help"]) {
            Err(WordsFault::Help(text)) => {
                assert!(rt;
                    text.as_str().ends_with("behind the last line.\n"),
                    "{text}"
                )
            }
            Err(WordsFault::Memory) => {
                assert!(rt; !refused);
                refused = true;
            }
            _ => return Err(Fail::from("no help")),
        }
    }
    Ok(())
}

#[test]
fn words_are_refused_after_memory_was_refused(rt: HostRuntime) -> Result<(), Fail> {
    let mut refused = false;
    for word in ["+5", "1152921504606846977", "x"] {
        match plan_words(rt.alloc(), &["port", word, A]) {
            Err(WordsFault::Words(text)) => {
                assert!(rt; text.as_str().starts_with("error: "), "{text}")
            }
            Err(WordsFault::Memory) => {
                assert!(rt; !refused);
                refused = true;
            }
            _ => return Err(Fail::from("the words are taken")),
        }
    }
    Ok(())
}
