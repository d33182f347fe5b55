//! Lines and texts of journals. The lines, the values and the faults are written by hand from docs/JOURNALS.md.
mod kinds;
mod line_faults;
mod open_writes;
mod ports;
mod runs;
mod sources;
mod streams;
mod text_faults;
mod threads;
mod whole_texts;

use abt_cell::{Answer, Request, Vc};
use abt_entry::{Line, LineFault, read_line};
use abt_journal::Entry;
use abt_journal_text::{Book, Cause, read_text};
use abt_model::SourceEntry;
use abt_rate::Rate;
use json::Scratch;
use std::alloc::{AllocError, Global};
use std::fmt::Debug;
use std::io::Read;
use std::process::Abort;
use std::test::Fail;

/// Demands that two values are equal. What calls this knows nothing of them from it, which keeps its proof short.
fn same<T: PartialEq + Debug>(rt: &impl Abort, found: &T, expected: &T) {
    assert_eq!(rt; *found, *expected);
}

/// A text out of its pieces, which is made again if memory was refused for it.
fn joined(alloc: Global, pieces: &[&str]) -> Result<String, AllocError> {
    match joined_once(alloc, pieces) {
        Ok(text) => Ok(text),
        Err(_) => joined_once(alloc, pieces),
    }
}

fn joined_once(alloc: Global, pieces: &[&str]) -> Result<String, AllocError> {
    let mut text = String::new(alloc);
    for piece in pieces {
        text.push_str(piece)?;
    }
    Ok(text)
}

/// What a line says, or why it says nothing. If memory is refused, it is read again.
fn line_of(alloc: Global, text: &str) -> Result<Line, LineFault> {
    match read_line(alloc, text, &mut Scratch::new(alloc)) {
        Err(LineFault::Memory) => read_line(alloc, text, &mut Scratch::new(alloc)),
        answer => answer,
    }
}

/// The port and the step that a line says.
fn step_in(alloc: Global, text: &str) -> Result<Option<(u16, Entry)>, Fail> {
    let line = line_of(alloc, text)?;
    Ok(step_of(&line))
}

fn step_of(line: &Line) -> Option<(u16, Entry)> {
    match line {
        Line::Port { port, entry } => Some((*port, *entry)),
        _ => None,
    }
}

/// The source and its entry that a line says.
fn entry_in(alloc: Global, text: &str) -> Result<Option<(u16, SourceEntry)>, Fail> {
    let line = line_of(alloc, text)?;
    Ok(entry_of(&line))
}

fn entry_of(line: &Line) -> Option<(u16, SourceEntry)> {
    match line {
        Line::Source { source, entry } => Some((*source, *entry)),
        _ => None,
    }
}

/// Where the text of a reader has its first fault, and which; `None` if it has none.
fn fault_in<R: Read>(alloc: Global, reader: &mut R) -> Option<(u64, Cause)> {
    let mut book = Book::new(alloc);
    match read_text(alloc, &mut book, 1, reader) {
        Ok(()) => None,
        Err(fault) => Some((fault.spot.line, fault.cause)),
    }
}

/// The channel 1/100.
fn vc() -> Vc {
    Vc::new(1, 100).unwrap()
}

/// The request of 1/100 for 600 cells per second with the number 3, at a floor of 400.
fn request() -> Result<Request, Fail> {
    Ok(Request::new(vc(), 3, Rate::from_code(0x5120), Rate::from_code(0x5258)).ok_or("no request")?)
}

fn answer(granted: bool) -> Result<Answer, Fail> {
    Ok(Answer::of(&request()?, granted))
}

/// The request, as a line has it.
const REQUEST: &str = r#"{"vpi":1,"vci":100,"seq":3,"floor":"5120","ask":"5258"}"#;

/// The no to it, and the yes.
const NO: &str = r#"{"vpi":1,"vci":100,"seq":3,"floor":"5120","ask":"5258","granted":false}"#;

const YES: &str = r#"{"vpi":1,"vci":100,"seq":3,"floor":"5120","ask":"5258","granted":true}"#;
