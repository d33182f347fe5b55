use abt_text::{HexCode, TextFault, Unwritten, octets_of, put, u16_of, u32_of, u64_of, words_of};
use std::io::{self, Error, ErrorKind, Read, Write};
use std::test::Fail;

// A reader that gives the letter x for ever.
#[derive(Drop)]
struct Endless {
    given: u64,
}

impl Read for Endless {
    fn read(&mut self, buf: &mut [u8]) -> io::Result<usize> {
        for octet in buf.iter_mut() {
            *octet = b'x';
        }
        self.given = self.given.saturating_add(buf.len() as u64);
        Ok(buf.len())
    }
}

// A reader that gives one octet and then fails.
#[derive(Drop)]
struct Breaks {
    begun: bool,
}

impl Read for Breaks {
    fn read(&mut self, buf: &mut [u8]) -> io::Result<usize> {
        if self.begun || buf.is_empty() {
            return Err(Error::from(ErrorKind::Other));
        }
        self.begun = true;
        buf[0] = b'x';
        Ok(1)
    }
}

// A writer that takes at most `piece` octets a call, `room` in all, and then fails.
#[derive(Drop)]
struct Narrow {
    piece: usize,
    room: usize,
    taken: Vec<u8>,
}

impl Write for Narrow {
    fn write(&mut self, buf: &[u8]) -> io::Result<usize> {
        if self.room == 0 {
            return Err(Error::from(ErrorKind::Other));
        }
        let count = buf.len().min(self.room).min(self.piece);
        self.taken.extend_from_slice(&buf[..count])?;
        self.room -= count;
        Ok(count)
    }

    fn flush(&mut self) -> io::Result<()> {
        Ok(())
    }
}

#[test]
fn a_text_is_read_whole_and_written_whole(rt: HostRuntime) -> Result<(), Fail> {
    let alloc = rt.alloc();
    let mut source: &[u8] = b"ports = [512000]\n";
    let text = octets_of(alloc, &mut source).map_err(|_| Fail::from("read"))?;
    let mut narrow = Narrow {
        piece: 3,
        room: 100,
        taken: Vec::new(alloc),
    };
    assert_eq!(rt; put(&mut narrow, text.as_slice()), Ok(()));
    assert_eq!(rt; narrow.taken.as_slice(), b"ports = [512000]\n".as_slice());
    Ok(())
}

#[test]
fn a_reader_that_never_ends_is_too_long_after_one_octet_more(rt: HostRuntime) {
    let mut endless = Endless { given: 0 };
    let answer = octets_of(rt.alloc(), &mut endless);
    assert!(rt; matches!(answer, Err(TextFault::TooLong)));
    assert_eq!(rt; endless.given, 16777217);
}

#[test]
fn a_read_that_fails_in_the_middle_is_told(rt: HostRuntime) {
    let answer = octets_of(rt.alloc(), &mut Breaks { begun: false });
    assert!(rt; matches!(answer, Err(TextFault::Read)));
}

// A reader and a writer, two of whose three calls in a row are interrupted.
#[derive(Drop)]
struct Interrupted<I> {
    inside: I,
    calls: u64,
}

impl<I> Interrupted<I> {
    fn call(&mut self) -> io::Result<()> {
        self.calls = self.calls.saturating_add(1);
        if self.calls % 3 != 0 {
            return Err(Error::from(ErrorKind::Interrupted));
        }
        Ok(())
    }
}

impl<I: Read> Read for Interrupted<I> {
    fn read(&mut self, buf: &mut [u8]) -> io::Result<usize> {
        self.call()?;
        self.inside.read(buf)
    }
}

impl<I: Write> Write for Interrupted<I> {
    fn write(&mut self, buf: &[u8]) -> io::Result<usize> {
        self.call()?;
        self.inside.write(buf)
    }

    fn flush(&mut self) -> io::Result<()> {
        self.inside.flush()
    }
}

#[test]
fn an_interrupted_call_is_tried_again(rt: HostRuntime) -> Result<(), Fail> {
    let alloc = rt.alloc();
    let source: &[u8] = b"ports = [512000]\n";
    let mut reader = Interrupted {
        inside: source,
        calls: 0,
    };
    let text = octets_of(alloc, &mut reader).map_err(|_| Fail::from("read"))?;
    assert_eq!(rt; text.as_slice(), b"ports = [512000]\n".as_slice());
    let mut writer = Interrupted {
        inside: Narrow {
            piece: 3,
            room: 100,
            taken: Vec::new(alloc),
        },
        calls: 0,
    };
    assert_eq!(rt; put(&mut writer, text.as_slice()), Ok(()));
    assert_eq!(rt;
        writer.inside.taken.as_slice(),
        b"ports = [512000]\n".as_slice()
    );
    Ok(())
}

#[test]
fn of_a_text_that_breaks_off_the_beginning_went_out(rt: HostRuntime) -> Result<(), Fail> {
    let text = b"total 307200\n";
    for room in 0..13 {
        let mut narrow = Narrow {
            piece: 5,
            room,
            taken: Vec::new(rt.alloc()),
        };
        assert_eq!(rt; put(&mut narrow, text), Err(Unwritten));
        assert_eq!(rt; narrow.taken.as_slice(), &text[..room]);
    }
    Ok(())
}

// A writer that takes at most five octets a call, and nothing after so many calls.
#[derive(Drop)]
struct Stuck {
    calls: usize,
    taken: Vec<u8>,
}

impl Write for Stuck {
    fn write(&mut self, buf: &[u8]) -> io::Result<usize> {
        if self.calls == 0 {
            return Ok(0);
        }
        self.calls -= 1;
        let count = buf.len().min(5);
        self.taken.extend_from_slice(&buf[..count])?;
        Ok(count)
    }

    fn flush(&mut self) -> io::Result<()> {
        Ok(())
    }
}

#[test]
fn a_writer_that_takes_no_octet_at_a_write_is_told(rt: HostRuntime) -> Result<(), Fail> {
    let text = b"total 307200\n";
    for (calls, taken, end) in [
        (0, 0, Err(Unwritten)),
        (1, 5, Err(Unwritten)),
        (2, 10, Err(Unwritten)),
        (3, 13, Ok(())),
    ] {
        let mut stuck = Stuck {
            calls,
            taken: Vec::new(rt.alloc()),
        };
        assert_eq!(rt; put(&mut stuck, text), end);
        assert_eq!(rt; stuck.taken.as_slice(), &text[..taken]);
    }
    Ok(())
}

#[test]
fn codes_have_four_digits_in_lower_case(rt: HostRuntime) -> Result<(), Fail> {
    for (code, digits) in [
        (0, "0000"),
        (0x53e8, "53e8"),
        (0xffff, "ffff"),
        (0x0a9, "00a9"),
    ] {
        let text = format!(in rt.alloc(); "{}", HexCode(code))?;
        assert_eq!(rt; text.as_str(), digits);
    }
    Ok(())
}

#[test]
fn a_text_is_cut_at_each_space(rt: HostRuntime) {
    let rows: [(&str, &[&str]); 6] = [
        ("start 0 9", &["start", "0", "9"]),
        ("again", &["again"]),
        ("", &[""]),
        (" ", &["", ""]),
        ("a  b", &["a", "", "b"]),
        ("a\tb ", &["a\tb", ""]),
    ];
    for (text, words) in rows {
        let mut room = ["?"; 3];
        assert_eq!(rt; words_of(text, &mut room), Some(words.len()), "{text}");
        assert_eq!(rt; &room[..words.len()], words, "{text}");
    }
}

#[test]
fn words_that_have_no_room_are_refused(rt: HostRuntime) {
    for (text, count) in [("", 1), ("a", 1), ("a b", 2), ("a b c", 3), ("   ", 4)] {
        for room in 0..6 {
            let mut words = ["?"; 6];
            let found = words_of(text, &mut words[..room]);
            let wanted = if room < count { None } else { Some(count) };
            assert_eq!(rt; found, wanted, "{text} in {room}");
        }
    }
}

#[test]
fn numbers_are_1_to_19_digits_and_nothing_else(rt: HostRuntime) {
    assert_eq!(rt; u64_of("0"), Some(0));
    assert_eq!(rt; u64_of("0000000000000000007"), Some(7));
    assert_eq!(rt;
        u64_of("9999999999999999999"),
        Some(9_999_999_999_999_999_999)
    );
    for text in [
        "",
        "00000000000000000000",
        "18446744073709551615",
        "+5",
        "-5",
        " 5",
        "5 ",
        "5a",
        "0x5",
        "\u{0665}",
    ] {
        assert_eq!(rt; u64_of(text), None, "{text}");
    }
    assert_eq!(rt; u32_of("4294967295"), Some(4_294_967_295));
    assert_eq!(rt; u32_of("4294967296"), None);
    assert_eq!(rt; u16_of("0065535"), Some(65535));
    assert_eq!(rt; u16_of("65536"), None);
}
