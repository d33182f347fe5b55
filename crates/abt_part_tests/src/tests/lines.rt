//! Lines that are read in pieces of each length, and answers that don't all go out.
use super::same;
use abt_lines::{LINE_MAX, LineServer, LinesFault, serve_lines};
use std::alloc::{AllocError, Global};
use std::io::{self, Error, ErrorKind, Read, Write};
use std::process::Abort;
use std::test::Fail;

// Six lines: an empty one, one with carriage returns, one that isn't UTF-8, and one without a line feed at its end.
const TEXT: &[u8] = b"one\n\ntwo\r\n\r\r\n\xff\nlast";

// What `Sizes` answers to them.
const ANSWERS: &str = "1 3\n2 0\n3 3\n4 1\n5 1\n6 4\nend 7 after 12\n";

/// A server that answers each line with its number and its octets, and says behind the last how many octets there were.
#[derive(Drop)]
struct Sizes {
    octets: u64,
}

impl LineServer for Sizes {
    ghost use Rattle.std.specs.Prelude.{⊤};

    ghost steps = { λ _ _ _ _ _. ⊤ };

    ghost ends = { λ _ _ _. ⊤ };

    fn answer(
        &mut self,
        _alloc: Global,
        number: u64,
        line: Option<&[u8]>,
        text: &mut String,
    ) -> Result<(), AllocError> {
        match line {
            Some(octets) => {
                let count = octets.len() as u64;
                self.octets = self.octets.saturating_add(count);
                write!(text, "{number} {count}\n")
            }
            None => write!(text, "{number} long\n"),
        }
    }

    fn end(&self, _alloc: Global, number: u64, text: &mut String) -> Result<(), AllocError> {
        let octets = self.octets;
        write!(text, "end {number} after {octets}\n")
    }
}

/// A reader that gives a text so many octets a call at most, and fails after so many calls.
#[derive(Drop)]
struct Pieces<'a> {
    left: &'a [u8],
    count: usize,
    calls: usize,
}

impl<'a> Read for Pieces<'a> {
    fn read(&mut self, buf: &mut [u8]) -> io::Result<usize> {
        if self.calls == 0 {
            return Err(Error::from(ErrorKind::Other));
        }
        self.calls -= 1;
        let count = self.left.len().min(self.count).min(buf.len());
        buf[..count].copy_from_slice(&self.left[..count]);
        self.left = &self.left[count..];
        Ok(count)
    }
}

/// A writer that has room for so many octets, and then fails.
#[derive(Drop)]
struct Narrow {
    room: usize,
    len: usize,
    octets: [u8; 128],
}

impl Write for Narrow {
    fn write(&mut self, buf: &[u8]) -> io::Result<usize> {
        let count = buf.len().min(self.room.min(128).saturating_sub(self.len));
        if count == 0 {
            return Err(Error::from(ErrorKind::Other));
        }
        self.octets[self.len..self.len + count].copy_from_slice(&buf[..count]);
        self.len += count;
        Ok(count)
    }

    fn flush(&mut self) -> io::Result<()> {
        Ok(())
    }
}

// What comes of a text in pieces of so many octets, with a reader of so many calls, into a room of so many octets. If memory is refused,
// what went out until then is a beginning of the answers, and all is done again.
fn answered(
    rt: &impl Abort,
    alloc: Global,
    text: &[u8],
    count: usize,
    calls: usize,
    room: usize,
) -> (Result<(), LinesFault>, Narrow) {
    let found = once(alloc, text, count, calls, room);
    if found.0 != Err(LinesFault::Memory) {
        return found;
    }
    let again = once(alloc, text, count, calls, room);
    let len = found.1.len.min(128);
    assert_eq!(rt; found.1.octets[..len], again.1.octets[..len]);
    again
}

fn once(
    alloc: Global,
    text: &[u8],
    count: usize,
    calls: usize,
    room: usize,
) -> (Result<(), LinesFault>, Narrow) {
    let mut server = Sizes { octets: 0 };
    let mut reader = Pieces {
        left: text,
        count,
        calls,
    };
    let mut writer = Narrow {
        room,
        len: 0,
        octets: [0; 128],
    };
    let result = serve_lines(alloc, &mut server, &mut reader, &mut writer);
    (result, writer)
}

// Demands this end, and exactly these answers.
fn ends(
    rt: &impl Abort,
    found: &(Result<(), LinesFault>, Narrow),
    end: Result<(), LinesFault>,
    answers: &str,
) {
    same(rt, &found.0, &end);
    let len = found.1.len.min(128);
    assert_eq!(rt; found.1.octets[..len], *answers.as_bytes());
}

#[test]
fn lines_are_the_same_in_pieces_of_each_length(rt: HostRuntime) {
    for count in 1..=TEXT.len() {
        let found = answered(&rt, rt.alloc(), TEXT, count, 64, 128);
        ends(&rt, &found, Ok(()), ANSWERS);
    }
}

#[test]
fn a_write_that_fails_at_each_octet_leaves_the_answers_before_it(rt: HostRuntime) {
    for room in 0..ANSWERS.len() {
        let found = answered(&rt, rt.alloc(), TEXT, 3, 64, room);
        let len = found.1.len.min(128);
        same(&rt, &found.0, &Err(LinesFault::Write));
        assert_eq!(rt; found.1.octets[..len], ANSWERS.as_bytes()[..room]);
    }
}

#[test]
fn a_reader_that_fails_leaves_the_answers_to_whole_lines(rt: HostRuntime) {
    let found = answered(&rt, rt.alloc(), TEXT, 1, 9, 128);
    ends(&rt, &found, Err(LinesFault::Read), "1 3\n2 0\n");
    let found = answered(&rt, rt.alloc(), TEXT, 1, 10, 128);
    ends(&rt, &found, Err(LinesFault::Read), "1 3\n2 0\n3 3\n");
    let found = answered(&rt, rt.alloc(), TEXT, 64, 1, 128);
    ends(
        &rt,
        &found,
        Err(LinesFault::Read),
        "1 3\n2 0\n3 3\n4 1\n5 1\n",
    );
}

// A line of so many octets and then one of one.
fn long_line(alloc: Global, count: usize) -> Result<Vec<u8>, AllocError> {
    let mut text = Vec::new(alloc);
    for _octet in 0..count {
        text.push(b'x')?;
    }
    text.extend_from_slice(b"\r\ny\n")?;
    Ok(text)
}

// Demands the answers to a line of so many octets and one of one, in pieces of each of these lengths.
fn long(rt: &impl Abort, alloc: Global, octets: usize, answers: &str) -> Result<(), Fail> {
    let text = match long_line(alloc, octets) {
        Ok(text) => text,
        Err(_) => long_line(alloc, octets)?,
    };
    for count in [
        1,
        7,
        LINE_MAX - 1,
        LINE_MAX,
        LINE_MAX + 1,
        LINE_MAX + 2,
        16384,
    ] {
        let found = answered(rt, alloc, text.as_slice(), count, 8192, 128);
        ends(rt, &found, Ok(()), answers);
    }
    Ok(())
}

#[test]
fn the_limit_of_a_line_is_the_same_in_pieces_of_each_length(rt: HostRuntime) -> Result<(), Fail> {
    long(&rt, rt.alloc(), 4095, "1 4095\n2 1\nend 3 after 4096\n")?;
    long(&rt, rt.alloc(), 4096, "1 4096\n2 1\nend 3 after 4097\n")?;
    long(&rt, rt.alloc(), 4097, "1 long\n2 1\nend 3 after 1\n")?;
    long(&rt, rt.alloc(), 6000, "1 long\n2 1\nend 3 after 1\n")
}
