//! A source over a store in a file, which asks as often as it is told. It is killed and loses power in trials of the store
//! (tools/power).
//!
//!   create FILE          makes a store of number 0
//!   ask FILE NOW COUNT   starts the source at a moment, asks so often, and tells each number as it goes out
#![tactic(auto)]

mod asking;
mod stopped;

use crate::asking::ask_all;
use crate::stopped::Stopped;
use abt_disk::create_store;
use abt_keep::Record;
use std::env;
use std::process::ExitCode;

fn main(rt: HostRuntime) -> ExitCode {
    match carry_out(&rt) {
        Ok(()) => ExitCode::SUCCESS,
        Err(stopped) => {
            let _ = println!(rt; "fault: {stopped}");
            ExitCode::from(1)
        }
    }
}

// Carries out what the process's words say.
fn carry_out(rt: &HostRuntime) -> Result<(), Stopped> {
    let mut words = Vec::new(rt.alloc());
    for word in env::args(rt)? {
        words.push(word).map_err(|_| Stopped::Memory)?;
    }
    match words.as_slice() {
        [_, command, path] if command.as_str() == "create" => {
            create_store(rt, path.as_str(), Record::old(0))?;
            Ok(())
        }
        [_, command, path, now, count] if command.as_str() == "ask" => {
            let now = now.as_str().parse().map_err(|_| Stopped::Words)?;
            let count = count.as_str().parse().map_err(|_| Stopped::Words)?;
            ask_all(rt, path.as_str(), now, count)
        }
        _ => Err(Stopped::Words),
    }
}
