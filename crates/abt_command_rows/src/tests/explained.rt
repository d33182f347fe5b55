//! A scenario with three sources and four ports, whose explanation was worked out by hand from docs/RULES.md and docs/EXPLAIN.md.
use abt_explain::{explain_text, perform_explain};
use abt_scenario::EngineFault;
use std::alloc::Global;
use std::process::Abort;
use std::test::Fail;

/// Three sources over four ports: two of them fill port 1, the third is refused there.
const THREE: &str = "ports = [512000, 614400, 307200, 1024000]\n\
    events = [\n\
      \"start 0 0\",\n\
      \"start 1 0\",\n\
      \"start 2 0\",\n\
      \"ask 0 5258\",\n\
      \"request 0 1 1\",\n\
      \"request 0 2 1\",\n\
      \"ask 1 5258\",\n\
      \"request 1 1 1\",\n\
      \"request 1 2 1\",\n\
      \"ask 2 5120\",\n\
      \"request 2 1 1\",\n\
      \"request 2 2 1\",\n\
      \"request 2 2 1\",\n\
      \"told-yes 0 1\",\n\
      \"turn 0 1\",\n\
      \"yes 0 2 1\",\n\
      \"yes 0 1 1\",\n\
      \"told-yes 0 1\",\n\
      \"emit 0 500000000000\",\n\
      \"emit 0 1000000000000\",\n\
      \"arrive 0 0 1000000500000\",\n\
      \"arrive 0 0 1000001000000\",\n\
      \"arrive 0 0 1000001000000\",\n\
      \"ask 0 5120\",\n\
      \"request 0 1 2\",\n\
      \"request 0 1 1\",\n\
      \"told-yes 0 1\",\n\
      \"capacity 2 307199\",\n\
      \"capacity 4 1\",\n\
      \"request 3 1 1\",\n\
      \"request 0 3 1\",\n\
    ]\n\
    [[connection]]\n\
    vpi = 1\n\
    vci = 100\n\
    path = [0, 1]\n\
    delay = 1000000\n\
    tau = 2000000\n\
    [[connection]]\n\
    vpi = 1\n\
    vci = 101\n\
    path = [1, 2]\n\
    delay = 1000000\n\
    tau = 2000000\n\
    [[connection]]\n\
    vpi = 1\n\
    vci = 102\n\
    path = [3, 1]\n\
    delay = 1000000\n\
    tau = 2000000\n";

/// Its explanation.
const THREE_EXPLAINED: &str = "1 line 3 start 0 0: started\n\
    2 line 4 start 1 0: started\n\
    3 line 5 start 2 0: started\n\
    4 line 6 ask 0 5258: asked 1 0000 5258: asks for 600 cells/s, keeps 0\n\
    5 line 7 request 0 1 1: passed\n\
    6 line 8 request 0 2 1: passed\n\
    7 line 9 ask 1 5258: asked 1 0000 5258: asks for 600 cells/s, keeps 0\n\
    8 line 10 request 1 1 1: passed\n\
    9 line 11 request 1 2 1: passed\n\
    10 line 12 ask 2 5120: asked 1 0000 5120: asks for 400 cells/s, keeps 0\n\
    11 line 13 request 2 1 1: passed\n\
    12 line 14 request 2 2 1: refuses: asks 204800, holds 0, others hold 614400 of 614400\n\
    13 line 15 request 2 2 1: refuses: 1 was refused here\n\
    14 line 16 told-yes 0 1: not-enabled NotSent: request 1 lies at the end of the path: `turn 0 1` comes next\n\
    15 line 17 turn 0 1: turned\n\
    16 line 18 yes 0 2 1: passed\n\
    17 line 19 yes 0 1 1: passed\n\
    18 line 20 told-yes 0 1: told Raised\n\
    19 line 21 emit 0 500000000000: refused TooSoon 1000000000000: not before 1 s\n\
    20 line 22 emit 0 1000000000000: emitted 0 1001666666667: the next not before 1.001666666667 s\n\
    21 line 23 arrive 0 0 1000000500000: not-enabled Delay: cell 0 left at 1 s and takes 0.000001 s and up to 0.000002 s more, so it isn't there at 1.0000005 s\n\
    22 line 24 arrive 0 0 1000001000000: arrived Conforming\n\
    23 line 25 arrive 0 0 1000001000000: not-enabled Fenced: cell 0 is below the fence 1\n\
    24 line 26 ask 0 5120: asked 2 5120 5120: asks for 400 cells/s, keeps 400\n\
    25 line 27 request 0 1 2: passed\n\
    26 line 28 request 0 1 1: dropped Stale: 2 is the newest here\n\
    27 line 29 told-yes 0 1: told Ignored: waits for 2\n\
    28 line 30 capacity 2 307199: refused BelowSum: 307200 are held there\n\
    29 line 31 capacity 4 1: not-enabled Unknown: the net has 4 ports\n\
    30 line 32 request 3 1 1: not-enabled Unknown: the net has 3 connections\n\
    31 line 33 request 0 3 1: not-enabled Unknown: the path has 2 hops, counted from 1\n\
    connection 0 (1/100): its source shapes at 400 cells/s, port 0 holds 400, port 1 holds 600\n\
    connection 1 (1/101): its source shapes at 0 cells/s, port 1 holds 600, port 2 holds 600\n\
    connection 2 (1/102): its source shapes at 0 cells/s, port 3 holds 400, port 1 holds 0\n\
    port 0: 204800 of 512000 units, 400 of 1000 cells/s\n\
    port 1: 614400 of 614400 units, 1200 of 1200 cells/s\n\
    port 2: 307200 of 307200 units, 600 of 600 cells/s\n\
    port 3: 204800 of 1024000 units, 400 of 2000 cells/s\n\
    safe\n";

// Demands the explanation of a text. If memory is refused nothing went out, and the text is explained again.
fn explains(rt: &impl Abort, alloc: Global, text: &str, explanation: &str) -> Result<(), Fail> {
    for _ in 0..2 {
        let mut out = Vec::new(alloc);
        match explain_text(alloc, &mut text.as_bytes(), &mut out) {
            Ok(()) => {
                assert_eq!(rt; std::str::from_utf8(out.as_slice()), Ok(explanation));
                return Ok(());
            }
            Err(fault) => {
                assert_eq!(rt; fault, EngineFault::Memory);
                assert_eq!(rt; out.len(), 0);
            }
        }
    }
    Err(Fail::from("memory was refused twice"))
}

#[test]
fn three_sources_over_four_ports_are_explained(rt: HostRuntime) -> Result<(), Fail> {
    explains(&rt, rt.alloc(), THREE, THREE_EXPLAINED)
}

#[test]
fn a_text_that_is_no_scenario_has_its_fault(rt: HostRuntime) -> Result<(), Fail> {
    let mut out = Vec::new(rt.alloc());
    let mut errors = Vec::new(rt.alloc());
    let status = perform_explain(
        rt.alloc(),
        &mut "ports = 1".as_bytes(),
        &mut out,
        &mut errors,
    );
    assert_eq!(rt; status, 1);
    assert_eq!(rt; out.len(), 0);
    let told = std::str::from_utf8(errors.as_slice());
    if told != Ok("fault: memory\n") {
        assert_eq!(rt; told, Ok("fault: WrongType ports\n"));
    }
    Ok(())
}
