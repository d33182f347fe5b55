use abt_scenario::{EngineFault, Key, Scenario, ScenarioFault, read_from};
use std::alloc::Global;
use std::io::{self, Error, ErrorKind, Read};
use std::test::Fail;

/// A reader that gives line feeds for ever.
#[derive(Drop)]
pub(super) struct Endless {
    pub(super) given: u64,
}

impl Read for Endless {
    fn read(&mut self, buf: &mut [u8]) -> io::Result<usize> {
        for octet in buf.iter_mut() {
            *octet = b'\n';
        }
        self.given = self.given.saturating_add(buf.len() as u64);
        Ok(buf.len())
    }
}

/// A reader that gives a text one octet a call, and fails after so many calls.
#[derive(Drop)]
pub(super) struct Slow<'a> {
    pub(super) left: &'a [u8],
    pub(super) calls: usize,
}

impl<'a> Read for Slow<'a> {
    fn read(&mut self, buf: &mut [u8]) -> io::Result<usize> {
        if self.calls == 0 {
            return Err(Error::from(ErrorKind::Other));
        }
        self.calls -= 1;
        match self.left.split_first() {
            Some((octet, left)) if !buf.is_empty() => {
                buf[0] = *octet;
                self.left = left;
                Ok(1)
            }
            _ => Ok(0),
        }
    }
}

// What a text is read as by a reader of one octet a call that fails after so many. If memory is refused, it is read again.
fn slow_reading(alloc: Global, text: &[u8], calls: usize) -> Result<Scenario, EngineFault> {
    match read_from(alloc, &mut Slow { left: text, calls }) {
        Err(EngineFault::Memory) => read_from(alloc, &mut Slow { left: text, calls }),
        answer => answer,
    }
}

#[test]
fn a_scenario_is_read_octet_by_octet(rt: HostRuntime) -> Result<(), Fail> {
    let read = slow_reading(rt.alloc(), b"ports = [512000]\n", 18).map_err(|_| Fail::from(
        "no scenario",
    ))?;
    assert_eq!(rt; read.net.capacities(), [512_000].as_slice());
    Ok(())
}

#[test]
fn a_reader_that_fails_at_any_call_is_told(rt: HostRuntime) {
    for calls in 0..18 {
        let answer = slow_reading(rt.alloc(), b"ports = [512000]\n", calls);
        assert!(rt; matches!(answer, Err(EngineFault::Read)), "{calls}");
    }
}

#[test]
fn a_reader_that_never_ends_is_too_long(rt: HostRuntime) {
    let mut endless = Endless { given: 0 };
    let answer = read_from(rt.alloc(), &mut endless);
    if !matches!(answer, Err(EngineFault::Memory)) {
        assert!(rt; matches!(answer, Err(EngineFault::TooLong)));
        assert_eq!(rt; endless.given, 16_777_217);
    }
}

#[test]
fn octets_that_are_no_text_are_told_before_what_they_say(rt: HostRuntime) {
    let answer = slow_reading(rt.alloc(), b"ports = [\xff", 100);
    assert!(rt; matches!(answer, Err(EngineFault::NotUtf8)));
    let answer = slow_reading(rt.alloc(), b"", 100);
    let missing = ScenarioFault::MissingKey(Key::Ports);
    assert!(rt; matches!(answer, Err(EngineFault::Scenario(fault)) if fault == missing));
}
