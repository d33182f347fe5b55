//! Faults of lines, the first in the order of their members. A member is missing, of another type or out of its range.
use super::{NO, REQUEST, joined, line_of, same};
use abt_cell::RmFault;
use abt_entry::{LineFault, Member};
use std::alloc::Global;
use std::process::Abort;
use std::test::Fail;

/// Demands that a line has this fault.
fn fails(rt: &impl Abort, alloc: Global, text: &str, fault: LineFault) {
    same(rt, &line_of(alloc, text).err(), &Some(fault));
}

/// Demands that this member of a line is its fault.
fn lacks(rt: &impl Abort, alloc: Global, text: &str, member: Member) {
    fails(rt, alloc, text, LineFault::Member(member));
}

/// Demands that this member is the fault of a step of a port with such an input and reply.
fn step_lacks(
    rt: &impl Abort,
    alloc: Global,
    input: &str,
    reply: &str,
    member: Member,
) -> Result<(), Fail> {
    let text = joined(
        alloc,
        &[
            r#"{"port":0,"place":0,"input":"#,
            input,
            r#","reply":"#,
            reply,
            "}",
        ],
    )?;
    lacks(rt, alloc, text.as_str(), member);
    Ok(())
}

/// Of an entry of a source, and what came of it.
fn entry_lacks(
    rt: &impl Abort,
    alloc: Global,
    did: &str,
    outcome: &str,
    member: Member,
) -> Result<(), Fail> {
    let text = joined(
        alloc,
        &[r#"{"source":0,"did":"#, did, r#","outcome":"#, outcome, "}"],
    )?;
    lacks(rt, alloc, text.as_str(), member);
    Ok(())
}

#[test]
fn a_line_is_one_json_object_of_a_kind(rt: HostRuntime) {
    let alloc = rt.alloc();
    fails(&rt, alloc, "", LineFault::Json);
    fails(&rt, alloc, "{\"end\":true} {\"end\":true}", LineFault::Json);
    fails(&rt, alloc, "{\"end\":true,}", LineFault::Json);
    fails(&rt, alloc, "{'end':true}", LineFault::Json);
    fails(&rt, alloc, "[]", LineFault::Kind);
    fails(&rt, alloc, "7", LineFault::Kind);
    fails(&rt, alloc, "{\"End\":true}", LineFault::Kind);
    fails(
        &rt,
        alloc,
        "{\"x\":{\"y\":1,\"y\":1},\"end\":true}",
        LineFault::Twice,
    );
}

#[test]
fn numbers_are_whole_and_within_their_ranges(rt: HostRuntime) {
    let alloc = rt.alloc();
    lacks(&rt, alloc, r#"{"source":65536,"sent":0}"#, Member::Source);
    lacks(&rt, alloc, r#"{"source":-1,"sent":0}"#, Member::Source);
    lacks(&rt, alloc, r#"{"source":1.0,"sent":0}"#, Member::Source);
    lacks(&rt, alloc, r#"{"source":1e0,"sent":0}"#, Member::Source);
    lacks(&rt, alloc, r#"{"source":true,"sent":0}"#, Member::Source);
    lacks(
        &rt,
        alloc,
        r#"{"source":0,"sent":18446744073709551616}"#,
        Member::Sent,
    );
    lacks(&rt, alloc, r#"{"port":65536,"place":0}"#, Member::Port);
    lacks(&rt, alloc, r#"{"port":0,"place":-1}"#, Member::Place);
    lacks(
        &rt,
        alloc,
        r#"{"port":0,"place":0,"caller":65536}"#,
        Member::Caller,
    );
    lacks(&rt, alloc, r#"{"end":false}"#, Member::End);
}

#[test]
fn a_step_has_an_input_and_its_reply(rt: HostRuntime) -> Result<(), Fail> {
    let alloc = rt.alloc();
    lacks(
        &rt,
        alloc,
        r#"{"port":0,"place":0,"reply":"passed"}"#,
        Member::Input,
    );
    lacks(
        &rt,
        alloc,
        r#"{"port":0,"place":0,"input":{"capacity":0}}"#,
        Member::Reply,
    );
    step_lacks(
        &rt,
        alloc,
        r#"{"capacity":0}"#,
        r#""passed""#,
        Member::Reply,
    )?;
    step_lacks(
        &rt,
        alloc,
        r#"{"capacity":"0"}"#,
        r#""set""#,
        Member::Capacity,
    )?;
    step_lacks(
        &rt,
        alloc,
        r#"{"capacity":0}"#,
        r#"{"refused":"Above"}"#,
        Member::Refused,
    )?;
    step_lacks(
        &rt,
        alloc,
        r#"{"arrive":{"vpi":4096,"vci":0,"at":0}}"#,
        r#"{}"#,
        Member::Vpi,
    )?;
    step_lacks(
        &rt,
        alloc,
        r#"{"arrive":{"vpi":0,"vci":65536,"at":0}}"#,
        r#"{}"#,
        Member::Vci,
    )?;
    step_lacks(
        &rt,
        alloc,
        r#"{"arrive":{"vpi":0,"vci":0}}"#,
        r#"{}"#,
        Member::At,
    )
}

#[test]
fn a_request_has_its_members(rt: HostRuntime) -> Result<(), Fail> {
    let alloc = rt.alloc();
    step_lacks(
        &rt,
        alloc,
        r#"{"request":{"vpi":0,"vci":0,"seq":4294967296}}"#,
        "0",
        Member::Seq,
    )?;
    step_lacks(
        &rt,
        alloc,
        r#"{"request":{"vpi":0,"vci":0,"seq":1}}"#,
        "0",
        Member::Floor,
    )?;
    step_lacks(
        &rt,
        alloc,
        r#"{"request":{"vpi":0,"vci":0,"seq":1,"floor":"512"}}"#,
        "0",
        Member::Floor,
    )?;
    step_lacks(
        &rt,
        alloc,
        r#"{"request":{"vpi":0,"vci":0,"seq":1,"floor":5120}}"#,
        "0",
        Member::Floor,
    )?;
    step_lacks(
        &rt,
        alloc,
        r#"{"request":{"vpi":0,"vci":0,"seq":1,"floor":"5120","ask":"512g"}}"#,
        "0",
        Member::Ask,
    )?;
    let no_answer = joined(alloc, &[r#"{"answer":"#, REQUEST, "}"])?;
    step_lacks(
        &rt,
        alloc,
        no_answer.as_str(),
        r#""passed""#,
        Member::Granted,
    )?;
    let dropped = joined(alloc, &[r#"{"answer":"#, NO, "}"])?;
    step_lacks(
        &rt,
        alloc,
        dropped.as_str(),
        r#"{"dropped":"stale"}"#,
        Member::Dropped,
    )
}

#[test]
fn an_entry_of_a_source_has_its_outcome(rt: HostRuntime) -> Result<(), Fail> {
    let alloc = rt.alloc();
    lacks(&rt, alloc, r#"{"source":0,"did":"crash"}"#, Member::Outcome);
    entry_lacks(&rt, alloc, r#""crashes""#, r#""crashed""#, Member::Did)?;
    entry_lacks(
        &rt,
        alloc,
        r#"{"start":"0"}"#,
        r#""started""#,
        Member::Start,
    )?;
    entry_lacks(&rt, alloc, r#"{"ask":5120}"#, r#""started""#, Member::Ask)?;
    entry_lacks(
        &rt,
        alloc,
        r#"{"ask":"5120","store":"never"}"#,
        r#""started""#,
        Member::Store,
    )?;
    entry_lacks(
        &rt,
        alloc,
        r#"{"told":1}"#,
        r#"{"told":"Raised"}"#,
        Member::Granted,
    )?;
    entry_lacks(
        &rt,
        alloc,
        r#"{"told":1,"granted":true}"#,
        r#"{"told":"raised"}"#,
        Member::Told,
    )?;
    entry_lacks(
        &rt,
        alloc,
        r#"{"emit":0}"#,
        r#"{"emitted":{"cell":0}}"#,
        Member::Next,
    )?;
    entry_lacks(
        &rt,
        alloc,
        r#"{"emit":0}"#,
        r#"{"not-enabled":"Gone"}"#,
        Member::NotEnabled,
    )?;
    lacks(
        &rt,
        alloc,
        r#"{"source":0,"arrived":{"cell":0}}"#,
        Member::Place,
    );
    fails(&rt, alloc, r#"{"source":0}"#, LineFault::Kind);
    Ok(())
}

#[test]
fn a_cell_is_an_rm_cell_in_digits(rt: HostRuntime) {
    let alloc = rt.alloc();
    fails(
        &rt,
        alloc,
        r#"{"port":0,"place":0,"input":{"request":"00"}}"#,
        LineFault::Hex,
    );
    fails(
        &rt,
        alloc,
        r#"{"port":0,"place":0,"input":{"answer":"0010064g"}}"#,
        LineFault::Hex,
    );
    let zeros =
        r#"{"port":0,"place":0,"input":{"request":"00000000000000000000000000000000000000000000000000000000000000000000000000000000000000000000000000000000"}}"#;
    fails(&rt, alloc, zeros, LineFault::Cell(RmFault::NotRm));
}

#[test]
fn a_net_has_its_members(rt: HostRuntime) {
    let alloc = rt.alloc();
    lacks(&rt, alloc, r#"{"net":[]}"#, Member::Ports);
    lacks(&rt, alloc, r#"{"net":{"connections":[]}}"#, Member::Ports);
    lacks(
        &rt,
        alloc,
        r#"{"net":{"ports":["0"],"connections":[]}}"#,
        Member::Ports,
    );
    lacks(&rt, alloc, r#"{"net":{"ports":[]}}"#, Member::Connections);
    lacks(
        &rt,
        alloc,
        r#"{"net":{"ports":[],"connections":[{"vpi":1}]}}"#,
        Member::Vci,
    );
    lacks(
        &rt,
        alloc,
        r#"{"net":{"ports":[],"connections":[{"vpi":1,"vci":1,"path":0}]}}"#,
        Member::Path,
    );
    lacks(
        &rt,
        alloc,
        r#"{"net":{"ports":[],"connections":[{"vpi":1,"vci":1,"path":[0]}]}}"#,
        Member::Delay,
    );
    lacks(
        &rt,
        alloc,
        r#"{"net":{"ports":[],"connections":[{"vpi":1,"vci":1,"path":[0],"delay":0}]}}"#,
        Member::Tau,
    );
}
