//! Rows of scenarios' texts, and what each is read as. The expected scenarios and faults are written out by hand from
//! docs/FORMATS.md, "Scenario".
mod faults;
mod format;
mod lines;
mod report;
mod rows;
mod runs;
mod streams;
mod written;

use abt_scenario::{Scenario, ScenarioFault, read};
use std::alloc::{AllocError, Global};
use std::test::Fail;

/// The net of one port of 1,000 cells per second and one connection over it, and what follows in its table.
const ONE: &str =
    "ports = [512000]\n[[connection]]\nvpi = 1\nvci = 100\npath = [0]\ndelay = 1000\ntau = 200\n";

/// What a text is read as. If memory is refused, the text is read again.
fn reading(alloc: Global, text: &str) -> Result<Result<Scenario, ScenarioFault>, Fail> {
    match read(alloc, text) {
        Err(ScenarioFault::Memory) => {}
        answer => return Ok(answer),
    }
    match read(alloc, text) {
        Err(ScenarioFault::Memory) => Err(Fail::from("memory was refused twice")),
        answer => Ok(answer),
    }
}

/// The fault of a text.
fn fault(alloc: Global, text: &str) -> Result<Option<ScenarioFault>, Fail> {
    Ok(reading(alloc, text)?.err())
}

/// The scenario of a text.
fn scenario(alloc: Global, text: &str) -> Result<Scenario, Fail> {
    match reading(alloc, text)? {
        Ok(scenario) => Ok(scenario),
        Err(_) => Err(Fail::from("no scenario")),
    }
}

/// A text out of its pieces, which is made again if memory was refused for it.
fn joined(alloc: Global, pieces: &[&str]) -> Result<String, AllocError> {
    match joined_once(alloc, pieces) {
        Ok(text) => Ok(text),
        Err(_) => joined_once(alloc, pieces),
    }
}

fn joined_once(alloc: Global, pieces: &[&str]) -> Result<String, AllocError> {
    let mut text = String::new(alloc);
    for piece in pieces {
        text.push_str(piece)?;
    }
    Ok(text)
}
