//! `abt threads` from its words to its lines.
use super::{Narrow, planned};
use abt_perform::Plan;
use abt_perform_threads::perform_threads;
use std::alloc::Global;
use std::process::Abort;
use std::sync::Wait;
use std::test::Fail;
use std::thread::Threads;

/// Two sources over two ports: one gets what it asks for, the other asks for more than is left.
const TWO_SOURCES: &str = "ports = [512000, 512000]\n\
[[connection]]\nvpi = 1\nvci = 100\npath = [0, 1]\ndelay = 1000\ntau = 200\n\
script = [\"start 0\", \"ask 5120\", \"listen 1000000\", \"emit 1000000000000 200\"]\n\
[[connection]]\nvpi = 1\nvci = 101\npath = [1]\ndelay = 0\ntau = 0\n\
script = [\"start 0\", \"ask 5258\", \"listen 1000000\", \"crash\"]\n";

/// Carries a plan for threads out, and demands the three lines. Any other plan isn't carried out.
fn shows_all<T: Threads + Wait + Sync + Abort>(rt: &T, alloc: Global, plan: &Plan) {
    let mut out = Narrow::new(512);
    let mut errors = Narrow::new(512);
    let mut reader = TWO_SOURCES.as_bytes();
    let status = match plan {
        Plan::Threads { .. } => {
            perform_threads(rt, alloc, plan, &mut reader, &mut out, &mut errors)
        }
        _ => 255,
    };
    assert_eq!(rt; errors.taken(), "".as_bytes());
    assert_eq!(rt; out.taken(), "gathered\nwoven\nsafe\n".as_bytes());
    assert_eq!(rt; status, 0);
}

#[test]
fn words_for_threads_show_three_lines(rt: HostRuntime) -> Result<(), Fail> {
    let alloc = rt.alloc();
    for workers in ["1", "4", "64"] {
        let plan = planned(alloc, &["threads", "--workers", workers])?;
        shows_all(&rt, alloc, &plan);
    }
    Ok(())
}
