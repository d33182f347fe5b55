//! Rows of the program from its words to its octets. Cells and their changes are those of docs/FORMATS.md, "Test cells".
mod cells;
mod command_told;
mod command_words;
mod explained;
mod memory;
mod plans;
mod ports;
mod process_words;
mod rates;
mod runs;
mod said;
mod steps;
mod streams;
mod threads;
mod told;

ghost use Rattle.std.specs.Prelude.{IfOk};
ghost use Rattle.abt_perform.specs.Plans.{IsWithinLimits};

use abt_cli::plan_words;
use abt_perform::{Plan, perform};
use std::alloc::Global;
use std::io::{self, Error, ErrorKind, Read, Write};
use std::process::Abort;
use std::test::Fail;

/// Request 1 of vci 100: floor 0000, ask 5258 (307200 units).
const A: &str = "0010064c02045258000000000000000000000001\
6a6a6a6a6a6a6a6a6a6a6a6a6a6a6a6a6a6a6a6a6a6a6a6a6a6a6a6a6a6a038c";

/// Request 1 of vci 101: floor 0000, ask 5258.
const B: &str = "0010065c02045258000000000000000000000001\
6a6a6a6a6a6a6a6a6a6a6a6a6a6a6a6a6a6a6a6a6a6a6a6a6a6a6a6a6a6a038c";

/// Request 2 of vci 101: floor 0000, ask 5120 (204800 units).
const B2: &str = "0010065c02045120000000000000000000000002\
6a6a6a6a6a6a6a6a6a6a6a6a6a6a6a6a6a6a6a6a6a6a6a6a6a6a6a6a6a6a0214";

/// The no to B.
const NB: &str = "0010065c02ac5258000000000000000000000001\
6a6a6a6a6a6a6a6a6a6a6a6a6a6a6a6a6a6a6a6a6a6a6a6a6a6a6a6a6a6a008b";

/// The yes to A.
const YA: &str = "0010064c028c5258000000000000000000000001\
6a6a6a6a6a6a6a6a6a6a6a6a6a6a6a6a6a6a6a6a6a6a6a6a6a6a6a6a6a6a0165";

/// Request 2 of vci 100: floor 5120, ask 5120.
const LA: &str = "0010064c02045120512000000000000000000002\
6a6a6a6a6a6a6a6a6a6a6a6a6a6a6a6a6a6a6a6a6a6a6a6a6a6a6a6a6a6a0086";

/// A writer that takes so many octets, and then fails.
#[derive(Drop)]
struct Narrow {
    room: usize,
    len: usize,
    octets: [u8; 512],
}

impl Narrow {
    fn new(room: usize) -> Narrow {
        Narrow {
            room,
            len: 0,
            octets: [0; 512],
        }
    }

    fn taken(&self) -> &[u8] {
        &self.octets[..self.len.min(512)]
    }
}

impl Write for Narrow {
    fn write(&mut self, buf: &[u8]) -> io::Result<usize> {
        if self.len >= self.room || self.len >= 512 {
            return Err(Error::from(ErrorKind::Other));
        }
        let count = buf.len().min(self.room - self.len).min(512 - self.len);
        self.octets[self.len..self.len + count].copy_from_slice(&buf[..count]);
        self.len += count;
        Ok(count)
    }

    fn flush(&mut self) -> io::Result<()> {
        Ok(())
    }
}

/// A text out of its pieces.
fn joined(alloc: Global, pieces: &[&str]) -> Result<String, Fail> {
    let mut text = String::new(alloc);
    for piece in pieces {
        text.push_str(piece)?;
    }
    Ok(text)
}

/// The plan of some words.
fn planned<'a>(alloc: Global, words: &'a [&'a str]) -> Result<Plan, Fail>
    ensures { IfOk result IsWithinLimits }
{
    match plan_words(alloc, words) {
        Ok(plan) => Ok(plan),
        Err(_) => Err(Fail::from("the words are no plan")),
    }
}

/// Carries a plan out that needs no threads. A plan for threads has no status here.
fn done_alone<R: Read, W: Write, E: Write>(
    alloc: Global,
    plan: &Plan,
    reader: &mut R,
    writer: &mut W,
    errors: &mut E,
) -> u8
    requires { IsWithinLimits plan.now }
{
    match plan {
        Plan::Threads { .. } => 255,
        _ => perform(alloc, plan, reader, writer, errors),
    }
}

/// Carries out what some words ask for, and demands the status, what goes out and what is told.
fn expect(
    rt: &impl Abort,
    alloc: Global,
    words: &[&str],
    status: u8,
    text: &str,
    fault: &str,
) -> Result<(), Fail> {
    let plan = planned(alloc, words)?;
    expect_of(rt, alloc, &plan, status, text, fault);
    Ok(())
}

/// Carries out a plan, and demands the status, what goes out and what is told.
fn expect_of(rt: &impl Abort, alloc: Global, plan: &Plan, status: u8, text: &str, fault: &str)
    requires { IsWithinLimits plan.now }
{
    let mut out = Narrow::new(512);
    let mut errors = Narrow::new(512);
    let answer = done_alone(alloc, plan, &mut "".as_bytes(), &mut out, &mut errors);
    assert_eq!(rt; errors.taken(), fault.as_bytes());
    assert_eq!(rt; out.taken(), text.as_bytes());
    assert_eq!(rt; answer, status);
}
