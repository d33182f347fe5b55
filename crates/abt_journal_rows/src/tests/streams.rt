//! Readers that give an octet a call, are interrupted, or fail.
use super::{fault_in, same};
use abt_journal_text::Cause;
use std::io::{self, Error, ErrorKind, Read};

const TEXT: &[u8] = b"{\"net\":{\"ports\":[],\"connections\":[]}}\n{\"end\":true}\n";

/// A reader that is interrupted before each octet of a text, and fails after so many calls.
#[derive(Drop)]
struct Slow<'a> {
    left: &'a [u8],
    calls: usize,
}

impl<'a> Read for Slow<'a> {
    fn read(&mut self, buf: &mut [u8]) -> io::Result<usize> {
        if self.calls == 0 {
            return Err(Error::from(ErrorKind::Other));
        }
        self.calls -= 1;
        if self.calls % 2 == 1 {
            return Err(Error::from(ErrorKind::Interrupted));
        }
        match self.left.split_first() {
            Some((octet, left)) if !buf.is_empty() => {
                buf[0] = *octet;
                self.left = left;
                Ok(1)
            }
            _ => Ok(0),
        }
    }
}

#[test]
fn a_text_is_read_octet_by_octet(rt: HostRuntime) {
    let mut slow = Slow {
        left: TEXT,
        calls: 104,
    };
    same(&rt, &fault_in(rt.alloc(), &mut slow), &None);
}

#[test]
fn a_reader_that_fails_is_told_at_its_line(rt: HostRuntime) {
    let mut first = Slow {
        left: TEXT,
        calls: 20,
    };
    same(
        &rt,
        &fault_in(rt.alloc(), &mut first),
        &Some((1, Cause::Read)),
    );
    let mut second = Slow {
        left: TEXT,
        calls: 90,
    };
    same(
        &rt,
        &fault_in(rt.alloc(), &mut second),
        &Some((2, Cause::Read)),
    );
    let mut third = Slow {
        left: TEXT,
        calls: 102,
    };
    same(
        &rt,
        &fault_in(rt.alloc(), &mut third),
        &Some((3, Cause::Read)),
    );
}
