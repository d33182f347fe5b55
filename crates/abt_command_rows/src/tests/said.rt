//! Objects that were written by hand from docs/FORMATS.md, "JSON", and docs/RULES.md.
use abt_json::{JsonPlan, perform_json};
use std::alloc::Global;
use std::process::Abort;
use std::test::Fail;

/// The no to request 1 of vci 101: floor 0000, ask 5258.
const NB: &str = "0010065c02ac5258000000000000000000000001\
6a6a6a6a6a6a6a6a6a6a6a6a6a6a6a6a6a6a6a6a6a6a6a6a6a6a6a6a6a6a008b";

/// A source that asks again before the yes to its first request is told.
const AGAIN: &str = "ports = [512000]\n\
    events = [\n\
      \"start 0 0\", \"ask 0 5120\", \"request 0 1 1\", \"turn 0 1\",\n\
      \"yes 0 1 1\", \"ask 0 5258\", \"told-yes 0 1\", \"emit 0 5\",\n\
    ]\n\
    [[connection]]\n\
    vpi = 1\n\
    vci = 100\n\
    path = [0]\n\
    delay = 1000\n\
    tau = 200\n";

/// What its run answers.
const AGAIN_SAID: &str = "{\"kind\":\"event\",\"event\":1,\"outcome\":\"started\"}\n\
    {\"kind\":\"event\",\"event\":2,\"outcome\":\"asked\",\"seq\":1,\"floor\":\"0000\",\"ask\":\"5120\"}\n\
    {\"kind\":\"event\",\"event\":3,\"outcome\":\"passed\"}\n\
    {\"kind\":\"event\",\"event\":4,\"outcome\":\"turned\"}\n\
    {\"kind\":\"event\",\"event\":5,\"outcome\":\"passed\"}\n\
    {\"kind\":\"event\",\"event\":6,\"outcome\":\"asked\",\"seq\":2,\"floor\":\"0000\",\"ask\":\"5258\"}\n\
    {\"kind\":\"event\",\"event\":7,\"outcome\":\"told\",\"heard\":\"Ignored\"}\n\
    {\"kind\":\"event\",\"event\":8,\"outcome\":\"refused\",\"fault\":\"Zero\"}\n\
    {\"kind\":\"connection\",\"connection\":0,\"rate\":\"0000\",\"held\":[\"5120\"]}\n\
    {\"kind\":\"port\",\"port\":0,\"total\":204800,\"capacity\":512000}\n\
    {\"kind\":\"end\",\"safe\":true}\n";

/// A cell that is sent at 2^53 + 1, over a link of the greatest capacity.
const LATE: &str = "ports = [1152921504606846976]\n\
    events = [\n\
      \"start 0 0\", \"ask 0 53e8\", \"request 0 1 1\", \"turn 0 1\", \"yes 0 1 1\", \"told-yes 0 1\",\n\
      \"emit 0 9007199254740993\", \"emit 0 9007199254740993\",\n\
    ]\n\
    [[connection]]\n\
    vpi = 1\n\
    vci = 100\n\
    path = [0]\n\
    delay = 1000\n\
    tau = 200\n";

/// What is said of it: a number above 2^53 stands behind itself as a text.
const LATE_SAID: &str = "{\"kind\":\"event\",\"event\":1,\"outcome\":\"started\"}\n\
    {\"kind\":\"event\",\"event\":2,\"outcome\":\"asked\",\"seq\":1,\"floor\":\"0000\",\"ask\":\"53e8\"}\n\
    {\"kind\":\"event\",\"event\":3,\"outcome\":\"passed\"}\n\
    {\"kind\":\"event\",\"event\":4,\"outcome\":\"turned\"}\n\
    {\"kind\":\"event\",\"event\":5,\"outcome\":\"passed\"}\n\
    {\"kind\":\"event\",\"event\":6,\"outcome\":\"told\",\"heard\":\"Raised\"}\n\
    {\"kind\":\"event\",\"event\":7,\"outcome\":\"emitted\",\"cell\":0,\"next\":9007200254740993,\
    \"next_text\":\"9007200254740993\"}\n\
    {\"kind\":\"event\",\"event\":8,\"outcome\":\"refused\",\"fault\":\"TooSoon\",\"next\":9007200254740993,\
    \"next_text\":\"9007200254740993\"}\n\
    {\"kind\":\"connection\",\"connection\":0,\"rate\":\"53e8\",\"held\":[\"53e8\"]}\n\
    {\"kind\":\"port\",\"port\":0,\"total\":512000,\"capacity\":1152921504606846976,\
    \"capacity_text\":\"1152921504606846976\"}\n\
    {\"kind\":\"end\",\"safe\":true}\n";

// Demands that a plan prints just this, and ends with status 0. If memory is refused nothing went out, and it is tried again.
fn says(
    rt: &impl Abort,
    alloc: Global,
    plan: &JsonPlan,
    input: &str,
    said: &str,
) -> Result<(), Fail> {
    for _ in 0..2 {
        let mut out = Vec::new(alloc);
        let mut errors = Vec::new(alloc);
        let status = perform_json(alloc, plan, &mut input.as_bytes(), &mut out, &mut errors);
        if status == 0 {
            assert_eq!(rt; std::str::from_utf8(out.as_slice()), Ok(said));
            assert_eq!(rt; errors.len(), 0);
            return Ok(());
        }
        assert_eq!(rt; out.len(), 0);
    }
    Err(Fail::from("it was refused twice"))
}

// Demands that a plan has this fault, and nothing goes out.
fn is_refused(rt: &impl Abort, alloc: Global, plan: &JsonPlan, input: &str, line: &str) {
    let mut out = Vec::new(alloc);
    let mut errors = Vec::new(alloc);
    let status = perform_json(alloc, plan, &mut input.as_bytes(), &mut out, &mut errors);
    assert_eq!(rt; status, 1);
    assert_eq!(rt; out.len(), 0);
    let told = std::str::from_utf8(errors.as_slice());
    if told != Ok("fault: memory\n") {
        assert_eq!(rt; told, Ok(line));
    }
}

fn text(alloc: Global, words: &str) -> Result<String, Fail> {
    Ok(String::from_str(alloc, words)?)
}

#[test]
fn rates_are_said(rt: HostRuntime) -> Result<(), Fail> {
    let alloc = rt.alloc();
    let said = "{\"kind\":\"rate\",\"code\":\"53e8\",\"units\":512000,\"spacing\":1000000000}\n";
    says(&rt, alloc, &JsonPlan::Rate(text(alloc, "53e8")?), "", said)?;
    let said = "{\"kind\":\"rate\",\"code\":\"0000\",\"units\":0,\"spacing\":null}\n";
    says(&rt, alloc, &JsonPlan::Rate(text(alloc, "0000")?), "", said)?;
    is_refused(
        &rt,
        alloc,
        &JsonPlan::Rate(text(alloc, "5")?),
        "",
        "fault: code\n",
    );
    Ok(())
}

#[test]
fn a_message_is_said(rt: HostRuntime) -> Result<(), Fail> {
    let alloc = rt.alloc();
    let said =
        "{\"kind\":\"message\",\"message\":\"no\",\"vpi\":1,\"vci\":101,\"seq\":1,\"floor\":\"0000\",\"ask\":\"5258\"}\n";
    says(&rt, alloc, &JsonPlan::Cell(text(alloc, NB)?), "", said)?;
    is_refused(
        &rt,
        alloc,
        &JsonPlan::Cell(text(alloc, "00")?),
        "",
        "fault: Length\n",
    );
    Ok(())
}

#[test]
fn a_run_is_said(rt: HostRuntime) -> Result<(), Fail> {
    let alloc = rt.alloc();
    says(&rt, alloc, &JsonPlan::Run(None), AGAIN, AGAIN_SAID)?;
    is_refused(
        &rt,
        alloc,
        &JsonPlan::Run(None),
        "ports = 1",
        "fault: WrongType ports\n",
    );
    Ok(())
}

#[test]
fn great_numbers_are_said_as_texts_too(rt: HostRuntime) -> Result<(), Fail> {
    let alloc = rt.alloc();
    says(&rt, alloc, &JsonPlan::Run(None), LATE, LATE_SAID)
}
