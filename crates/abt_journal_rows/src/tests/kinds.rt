//! Lines that a journal may have, but that `abt` doesn't write: members that are missing, others that it doesn't know, and cells.
use super::{YES, answer, entry_in, joined, line_of, same, step_in};
use abt_cell::{Answer, Request, Vc};
use abt_entry::Line;
use abt_journal::{Entry, PortInput, PortReply};
use abt_keep::StorePlan;
use abt_model::{Event, Outcome, SourceEntry};
use abt_node::{Back, DropCause};
use abt_rate::Rate;
use std::alloc::Global;
use std::process::Abort;
use std::test::Fail;

/// Demands that a line says that the yes to a request passed, as step 0 of port 0 that caller 0 had done.
fn is_the_yes(rt: &impl Abort, alloc: Global, text: &str) -> Result<(), Fail> {
    let yes: Answer = answer(true)?;
    let entry = Entry {
        place: 0,
        caller: 0,
        input: PortInput::Answer(yes),
        reply: PortReply::Answered(Back::Pass),
    };
    same(rt, &step_in(alloc, text)?, &Some((0, entry)));
    Ok(())
}

#[test]
fn a_caller_may_be_missing_and_members_stand_in_any_order(rt: HostRuntime) -> Result<(), Fail> {
    let alloc = rt.alloc();
    let plain = joined(
        alloc,
        &[
            r#"{"port":0,"place":0,"input":{"answer":"#,
            YES,
            r#"},"reply":"passed"}"#,
        ],
    )?;
    is_the_yes(&rt, alloc, plain.as_str())?;
    let turned = joined(
        alloc,
        &[
            r#" {"reply":"passed", "more":[{"port":1}], "input":{"x":0,"answer":"#,
            YES,
            r#"}, "place":0 ,"port":0 }"#,
        ],
    )?;
    is_the_yes(&rt, alloc, turned.as_str())
}

/// The cells of the request of 1/100 for 600 cells per second with the number 1, and of the no to that of 1/101: those that README.md has.
const REQUEST_CELL: &str =
    "0010064c020452580000000000000000000000016a6a6a6a6a6a6a6a6a6a6a6a6a6a6a6a6a6a6a6a6a6a6a6a6a6a6a6a6a6a038c";

const NO_CELL: &str =
    "0010065c02ac52580000000000000000000000016a6a6a6a6a6a6a6a6a6a6a6a6a6a6a6a6a6a6a6a6a6a6a6a6a6a6a6a6a6a008b";

/// The request that the first of these cells has, and on another channel that of the second.
fn first_request(vci: u16) -> Result<Request, Fail> {
    let vc = Vc::new(1, vci).unwrap();
    Ok(Request::new(vc, 1, Rate::ZERO, Rate::from_code(0x5258)).ok_or("no request")?)
}

#[test]
fn a_message_may_be_a_cell(rt: HostRuntime) -> Result<(), Fail> {
    let alloc = rt.alloc();
    let text = joined(
        alloc,
        &[
            r#"{"port":0,"place":1,"input":{"answer":""#,
            NO_CELL,
            r#""},"reply":{"dropped":"UnknownVc"}}"#,
        ],
    )?;
    let no = Answer::of(&first_request(101)?, false);
    let entry = Entry {
        place: 1,
        caller: 0,
        input: PortInput::Answer(no),
        reply: PortReply::Answered(Back::Drop(DropCause::UnknownVc)),
    };
    same(&rt, &step_in(alloc, text.as_str())?, &Some((0, entry)));
    Ok(())
}

#[test]
fn a_store_that_is_missing_works(rt: HostRuntime) -> Result<(), Fail> {
    let alloc = rt.alloc();
    let request: Request = first_request(100)?;
    let text = joined(
        alloc,
        &[
            r#"{"source":1,"did":{"ask":"5258"},"outcome":{"asked":""#,
            REQUEST_CELL,
            r#""}}"#,
        ],
    )?;
    let event = Event::Ask {
        conn: 1,
        rate: request.ask(),
        plan: StorePlan::Works,
    };
    let entry = SourceEntry::Did(event, Outcome::Asked(request));
    same(&rt, &entry_in(alloc, text.as_str())?, &Some((1, entry)));
    Ok(())
}

#[test]
fn a_line_of_several_kinds_is_of_the_first(rt: HostRuntime) -> Result<(), Fail> {
    let alloc = rt.alloc();
    let text = joined(
        alloc,
        &[
            r#"{"end":true,"source":0,"sent":0,"port":0,"place":0,"input":{"answer":"#,
            YES,
            r#"},"reply":"passed"}"#,
        ],
    )?;
    is_the_yes(&rt, alloc, text.as_str())?;
    let ended = matches!(line_of(alloc, r#"{"end":true,"more":1}"#)?, Line::End);
    same(&rt, &ended, &true);
    let sent = entry_in(alloc, r#"{"end":true,"source":1,"sent":2}"#)?;
    same(&rt, &sent, &Some((1, SourceEntry::Sent { place: 2 })));
    Ok(())
}
