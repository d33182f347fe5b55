use super::{ALL, CROSSING, Narrow, ONE_PORT, on_one_port, run_over};
use abt_perform::Plan;
use abt_perform_threads::perform_threads;
use std::alloc::Global;
use std::io::{self, Error, ErrorKind, Read};
use std::process::Abort;
use std::sync::Wait;
use std::test::Fail;
use std::thread::Threads;

/// A reader that gives a text one octet a call, and fails at its end.
#[derive(Drop)]
struct Failing<'a> {
    left: &'a [u8],
}

impl<'a> Read for Failing<'a> {
    fn read(&mut self, buf: &mut [u8]) -> io::Result<usize> {
        match self.left.split_first() {
            Some((octet, left)) if !buf.is_empty() => {
                buf[0] = *octet;
                self.left = left;
                Ok(1)
            }
            _ => Err(Error::from(ErrorKind::Other)),
        }
    }
}

/// A reader that gives line feeds for ever.
#[derive(Drop)]
struct Endless;

impl Read for Endless {
    fn read(&mut self, buf: &mut [u8]) -> io::Result<usize> {
        for octet in buf.iter_mut() {
            *octet = b'\n';
        }
        Ok(buf.len())
    }
}

#[test]
fn where_the_output_breaks_off_the_lines_before_stay(rt: HostRuntime) {
    for room in 0..20usize {
        breaks_off(&rt, rt.alloc(), room);
    }
    let mut reader = CROSSING.as_bytes();
    let end = run_over(&rt, rt.alloc(), 3, &mut reader, 20);
    assert!(rt; end.is(0, ALL, ""));
}

// Demands that as much of the lines goes out as there is room for.
fn breaks_off<T: Threads + Wait + Sync + Abort>(rt: &T, alloc: Global, room: usize) {
    let mut reader = CROSSING.as_bytes();
    let end = run_over(rt, alloc, 3, &mut reader, room);
    assert_eq!(rt; end.status, 1);
    assert_eq!(rt; end.errors.taken(), "fault: write\n".as_bytes());
    assert_eq!(rt; end.out.taken().len(), room);
    assert!(rt; ALL.as_bytes().starts_with(end.out.taken()));
}

#[test]
fn a_reader_that_fails_at_any_read_is_told(rt: HostRuntime) {
    let scenario = ONE_PORT.as_bytes();
    for given in 0..scenario.len() {
        fails_behind(&rt, rt.alloc(), &scenario[..given]);
    }
}

fn fails_behind<T: Threads + Wait + Sync + Abort>(rt: &T, alloc: Global, left: &[u8]) {
    let end = run_over(rt, alloc, 1, &mut Failing { left }, 64);
    assert!(rt; end.is(1, "", "fault: read\n"));
}

#[test]
fn a_reader_that_never_ends_is_too_long(rt: HostRuntime) {
    let end = run_over(&rt, rt.alloc(), 1, &mut Endless, 64);
    assert!(rt; end.is(1, "", "fault: TooLong\n"));
}

#[test]
fn a_fault_that_cannot_be_told_changes_no_status(rt: HostRuntime) -> Result<(), Fail> {
    let alloc = rt.alloc();
    let scenario = on_one_port(alloc, "script = [\"emit 0 201\"]\n")?;
    for room in 0..16usize {
        tells_a_part(&rt, alloc, scenario.as_bytes(), room);
    }
    Ok(())
}

// Demands that as much of the fault is told as there is room for.
fn tells_a_part<T: Threads + Wait + Sync + Abort>(
    rt: &T,
    alloc: Global,
    scenario: &[u8],
    room: usize,
) {
    let plan = Plan::Threads {
        file: None,
        workers: 1,
    };
    let mut reader = scenario;
    let mut out = Narrow::new(64);
    let mut errors = Narrow::new(room);
    let status = perform_threads(rt, alloc, &plan, &mut reader, &mut out, &mut errors);
    assert_eq!(rt; status, 1);
    assert_eq!(rt; out.taken().len(), 0);
    let line = "fault: Scripts\n".as_bytes();
    assert_eq!(rt; errors.taken(), &line[..room.min(line.len())]);
}
