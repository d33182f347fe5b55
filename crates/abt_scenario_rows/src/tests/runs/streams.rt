//! Readers that fail, never end or give an octet a call, and writers that take less than they are handed.
use super::super::streams::{Endless, Slow};
use super::{EXAMPLE, EXAMPLE_REPORT};
use abt_scenario::{EngineFault, run_text};
use std::alloc::Global;
use std::io::{self, Error, ErrorKind, Write};
use std::process::Abort;
use std::test::Fail;

/// A writer that takes at most `piece` octets a call, `room` in all, and then fails.
#[derive(Drop)]
pub(super) struct Narrow {
    piece: usize,
    room: usize,
    len: usize,
    octets: [u8; 4096],
}

impl Narrow {
    pub(super) fn new(piece: usize, room: usize) -> Narrow {
        Narrow {
            piece,
            room,
            len: 0,
            octets: [0; 4096],
        }
    }

    pub(super) fn taken(&self) -> &[u8] {
        &self.octets[..self.len.min(4096)]
    }
}

impl Write for Narrow {
    fn write(&mut self, buf: &[u8]) -> io::Result<usize> {
        if self.len >= self.room || self.len >= 4096 {
            return Err(Error::from(ErrorKind::Other));
        }
        let count = buf
            .len()
            .min(self.piece)
            .min(self.room - self.len)
            .min(4096 - self.len);
        self.octets[self.len..self.len + count].copy_from_slice(&buf[..count]);
        self.len += count;
        Ok(count)
    }

    fn flush(&mut self) -> io::Result<()> {
        Ok(())
    }
}

/// What comes of a reader that gives the example an octet a call, and fails after so many calls.
fn slow_run(alloc: Global, calls: usize, out: &mut Narrow) -> Result<(), EngineFault> {
    let left = EXAMPLE.as_bytes();
    match run_text(alloc, &mut Slow { left, calls }, out) {
        Err(EngineFault::Memory) => run_text(alloc, &mut Slow { left, calls }, out),
        answer => answer,
    }
}

#[test]
fn a_reader_and_a_writer_may_move_one_octet_a_call(rt: HostRuntime) {
    let mut out = Narrow::new(1, 1024);
    assert_eq!(rt; slow_run(rt.alloc(), EXAMPLE.len() + 1, &mut out), Ok(()));
    assert_eq!(rt; out.taken(), EXAMPLE_REPORT.as_bytes());
}

#[test]
fn nothing_goes_out_where_the_reader_fails_at_any_call(rt: HostRuntime) {
    for calls in 0..=EXAMPLE.len() {
        let mut out = Narrow::new(1024, 1024);
        assert_eq!(rt;
            slow_run(rt.alloc(), calls, &mut out),
            Err(EngineFault::Read)
        );
        assert_eq!(rt; out.taken().len(), 0);
    }
}

#[test]
fn a_reader_that_never_ends_is_too_long_and_nothing_goes_out(rt: HostRuntime) {
    let mut endless = Endless { given: 0 };
    let mut out = Narrow::new(1024, 1024);
    let answer = run_text(rt.alloc(), &mut endless, &mut out);
    assert_eq!(rt; out.taken().len(), 0);
    if answer != Err(EngineFault::Memory) {
        assert_eq!(rt; answer, Err(EngineFault::TooLong));
        assert_eq!(rt; endless.given, 16_777_217);
    }
}

#[test]
fn of_a_writer_with_room_for_ten_octets_ten_are_taken(rt: HostRuntime) {
    let mut out = Narrow::new(1024, 10);
    assert_eq!(rt;
        slow_run(rt.alloc(), EXAMPLE.len() + 1, &mut out),
        Err(EngineFault::Write)
    );
    assert_eq!(rt; out.taken(), b"events 7\n1".as_slice());
}

/// A writer that takes at most seven octets a call, and nothing after so many calls.
#[derive(Drop)]
struct Stuck {
    calls: usize,
    inside: Narrow,
}

impl Write for Stuck {
    fn write(&mut self, buf: &[u8]) -> io::Result<usize> {
        if self.calls == 0 {
            return Ok(0);
        }
        self.calls -= 1;
        self.inside.write(buf)
    }

    fn flush(&mut self) -> io::Result<()> {
        Ok(())
    }
}

// Demands that the report of the example ends as the writer does, behind so many calls.
fn is_stuck_behind(rt: &impl Abort, alloc: Global, calls: usize) {
    let report = EXAMPLE_REPORT.as_bytes();
    let inside = Narrow::new(7, 1024);
    let mut out = Stuck { calls, inside };
    let answer = run_text(alloc, &mut EXAMPLE.as_bytes(), &mut out);
    if answer == Err(EngineFault::Memory) {
        return;
    }
    let taken = calls.saturating_mul(7).min(report.len());
    let end = if taken < report.len() {
        Err(EngineFault::Write)
    } else {
        Ok(())
    };
    assert_eq!(rt; answer, end);
    assert_eq!(rt; out.inside.taken(), &report[..taken]);
}

#[test]
fn a_writer_that_takes_no_octet_at_a_write_is_told(rt: HostRuntime) {
    for calls in 0..=EXAMPLE_REPORT.len() / 7 + 1 {
        is_stuck_behind(&rt, rt.alloc(), calls);
    }
}

#[test]
fn of_a_report_that_breaks_off_the_beginning_went_out(rt: HostRuntime) {
    let report = EXAMPLE_REPORT.as_bytes();
    for room in 0..report.len() {
        let mut out = Narrow::new(7, room);
        match run_text(rt.alloc(), &mut EXAMPLE.as_bytes(), &mut out) {
            Err(EngineFault::Memory) => {}
            answer => {
                assert_eq!(rt; answer, Err(EngineFault::Write));
                assert_eq!(rt; out.taken(), &report[..room]);
            }
        }
    }
}

#[test]
fn nothing_goes_out_where_there_is_no_scenario(rt: HostRuntime) {
    let mut out = Narrow::new(1024, 1024);
    let answer = run_text(rt.alloc(), &mut "ports = [".as_bytes(), &mut out);
    assert!(rt; matches!(answer, Err(EngineFault::Scenario(_) | EngineFault::Memory)));
    assert_eq!(rt; out.taken().len(), 0);
}
