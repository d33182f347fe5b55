//! Stories of `abt threads` over readers and writers that are handed in. What it prints doesn't depend on the order in which the
//! threads come.
mod faults;
mod lines;
mod losses;
mod memory;
mod once;
mod parcels;
mod streams;

use abt_perform::Plan;
use abt_perform_threads::perform_threads;
use std::alloc::{AllocError, Global};
use std::io::{self, Error, ErrorKind, Read, Write};
use std::process::Abort;
use std::sync::Wait;
use std::thread::Threads;

/// Three sources whose paths cross on two ports, with all that a script can have but failing stores. A source that hears no yes
/// emits nothing.
const CROSSING: &str = "ports = [512000, 512000]\n\
[[connection]]\nvpi = 1\nvci = 100\npath = [0, 1]\ndelay = 1000\ntau = 200\n\
script = [\"start 0\", \"ask 5120\", \"listen 1000000\", \"emit 1000000000000 0\", \"ask 5258\", \"listen 1000000\"]\n\
[[connection]]\nvpi = 1\nvci = 101\npath = [1, 0]\ndelay = 1000\ntau = 200\n\
script = [\"start 0\", \"ask 5258\", \"listen 1000000\", \"emit 1000000000000 200\", \"crash\", \"start 1000000000001\", \"ask 5120\"]\n\
[[connection]]\nvpi = 1\nvci = 102\npath = [0]\ndelay = 0\ntau = 0\n\
script = [\"start 0\", \"ask 5120\", \"again\", \"listen 1000000\", \"emit 1000000000000 lost\"]\n";

/// A port, and a connection over it with tau 200, whose script follows.
const ONE_PORT: &str =
    "ports = [512000]\n[[connection]]\nvpi = 1\nvci = 100\npath = [0]\ndelay = 1000\ntau = 200\n";

/// What is printed where nothing fails.
const ALL: &str = "gathered\nwoven\nsafe\n";

/// A writer that takes so many octets, and then fails.
#[derive(Drop)]
struct Narrow {
    room: usize,
    len: usize,
    octets: [u8; 64],
}

impl Narrow {
    fn new(room: usize) -> Narrow {
        Narrow {
            room,
            len: 0,
            octets: [0; 64],
        }
    }

    fn taken(&self) -> &[u8] {
        &self.octets[..self.len.min(64)]
    }
}

impl Write for Narrow {
    fn write(&mut self, buf: &[u8]) -> io::Result<usize> {
        if self.len >= self.room || self.len >= 64 {
            return Err(Error::from(ErrorKind::Other));
        }
        let count = buf.len().min(self.room - self.len).min(64 - self.len);
        self.octets[self.len..self.len + count].copy_from_slice(&buf[..count]);
        self.len += count;
        Ok(count)
    }

    fn flush(&mut self) -> io::Result<()> {
        Ok(())
    }
}

/// How a run ended.
#[derive(Drop)]
struct Ended {
    status: u8,
    out: Narrow,
    errors: Narrow,
}

impl Ended {
    /// Whether a run ended so.
    fn is(&self, status: u8, text: &str, fault: &str) -> bool {
        self.status == status
            && self.out.taken() == text.as_bytes()
            && self.errors.taken() == fault.as_bytes()
    }
}

/// Runs what a reader has with so many link workers, over an output with so much room.
fn run_over<T: Threads + Wait + Sync, R: Read>(
    rt: &T,
    alloc: Global,
    workers: u16,
    reader: &mut R,
    room: usize,
) -> Ended {
    let plan = Plan::Threads {
        file: None,
        workers,
    };
    let mut out = Narrow::new(room);
    let mut errors = Narrow::new(64);
    let status = perform_threads(rt, alloc, &plan, reader, &mut out, &mut errors);
    Ended {
        status,
        out,
        errors,
    }
}

/// The net of one port with its one connection, and what follows.
fn on_one_port(alloc: Global, more: &str) -> Result<String, AllocError> {
    let mut text = String::from_str(alloc, ONE_PORT)?;
    text.push_str(more)?;
    Ok(text)
}

/// Runs a scenario's text, and demands the status, what goes out and what is told.
fn expect<T: Threads + Wait + Sync + Abort>(
    rt: &T,
    alloc: Global,
    workers: u16,
    scenario: &[u8],
    text: &str,
    fault: &str,
) {
    let mut reader = scenario;
    let end = run_over(rt, alloc, workers, &mut reader, 64);
    assert_eq!(rt; end.errors.taken(), fault.as_bytes());
    assert_eq!(rt; end.out.taken(), text.as_bytes());
    assert_eq!(rt; end.status, if fault.is_empty() { 0 } else { 1 });
}
