use super::same;
use abt_progress::{Cleared, Progress, Watched, draws_line};
use std::alloc::Global;
use std::io::{self, Error, ErrorKind, Read, Write};
use std::process::Abort;
use std::test::Fail;

// Reads all that a reader has, in pieces of at most 65,536 octets, and says how many octets there were.
fn read_all<R: Read>(reader: &mut R) -> Result<u64, Fail> {
    let mut room = [0; 65536];
    let mut octets: u64 = 0;
    for _read in 0..u64::MAX {
        let count = reader.read(&mut room)?;
        if count == 0 {
            return Ok(octets);
        }
        octets = octets.saturating_add(count as u64);
    }
    Ok(octets)
}

#[test]
fn the_line_is_drawn_while_an_input_is_read_and_goes_before_what_is_written(
    rt: HostRuntime,
) -> Result<(), Fail> {
    let alloc = rt.alloc();
    let input = Vec::from_elem(alloc, b'x', 300000)?;
    let mut screen = Vec::new(alloc);
    let mut told = Vec::new(alloc);
    let progress = Progress::new(alloc, Some(&mut screen));
    let mut reader = Watched::new(input.as_slice(), &progress);
    assert_eq!(rt; read_all(&mut reader)?, 300000);
    let mut writer = Cleared::new(&mut told, &progress);
    writer.write_all(b"gathered\n")?;
    assert!(rt; progress.clear());
    assert!(rt; !progress.clear());
    drop(writer);
    drop(reader);
    drop(progress);
    let drawn = "\r\x1b[?7labt: 262144 octets read\x1b[K\x1b[?7h\
\r\x1b[?7labt: 300000 octets read, at work\x1b[K\x1b[?7h\
\r\x1b[K\
\r\x1b[?7labt: 300000 octets read, at work\x1b[K\x1b[?7h\
\r\x1b[K";
    assert_eq!(rt; screen.as_slice(), drawn.as_bytes());
    assert_eq!(rt; told.as_slice(), b"gathered\n".as_slice());
    Ok(())
}

#[test]
fn nothing_is_drawn_of_a_short_input(rt: HostRuntime) -> Result<(), Fail> {
    let alloc = rt.alloc();
    let mut screen = Vec::new(alloc);
    let progress = Progress::new(alloc, Some(&mut screen));
    let mut reader = Watched::new(b"ports = [512000]\n".as_slice(), &progress);
    assert_eq!(rt; read_all(&mut reader)?, 17);
    drop(reader);
    drop(progress);
    assert!(rt; screen.is_empty());
    Ok(())
}

// A writer that takes at most two octets a call, and can't flush.
#[derive(Drop)]
struct Slow {
    taken: Vec<u8>,
}

impl Write for Slow {
    fn write(&mut self, buf: &[u8]) -> io::Result<usize> {
        let count = buf.len().min(2);
        self.taken.extend_from_slice(&buf[..count])?;
        Ok(count)
    }

    fn flush(&mut self) -> io::Result<()> {
        Err(Error::from(ErrorKind::Other))
    }
}

// Demands that so many octets are taken of a text behind a line, and says whether the line then stands.
fn stands_behind(rt: &impl Abort, alloc: Global, text: &str, taken: usize) -> Result<bool, Fail> {
    let input = Vec::from_elem(alloc, b'x', 300000)?;
    let mut screen = Vec::new(alloc);
    let progress = Progress::new(alloc, Some(&mut screen));
    let mut reader = Watched::new(input.as_slice(), &progress);
    same(rt, &read_all(&mut reader)?, &300000);
    let slow = Slow {
        taken: Vec::new(alloc),
    };
    let mut writer = Cleared::new(slow, &progress);
    same(rt, &writer.write(text.as_bytes())?, &taken);
    Ok(progress.clear())
}

#[test]
fn the_line_is_drawn_again_behind_a_line_that_was_written_whole(
    rt: HostRuntime,
) -> Result<(), Fail> {
    let alloc = rt.alloc();
    same(&rt, &stands_behind(&rt, alloc, "x\n", 2)?, &true);
    same(&rt, &stands_behind(&rt, alloc, "\n", 1)?, &true);
    same(&rt, &stands_behind(&rt, alloc, "x\ny", 2)?, &true);
    same(&rt, &stands_behind(&rt, alloc, "xy\n", 2)?, &false);
    same(&rt, &stands_behind(&rt, alloc, "\nx", 2)?, &false);
    same(&rt, &stands_behind(&rt, alloc, "gathered\n", 2)?, &false);
    same(&rt, &stands_behind(&rt, alloc, "", 0)?, &false);
    Ok(())
}

#[test]
fn a_flush_that_fails_is_told(rt: HostRuntime) -> Result<(), Fail> {
    let alloc = rt.alloc();
    let mut screen = Vec::new(alloc);
    let progress = Progress::new(alloc, Some(&mut screen));
    let slow = Slow {
        taken: Vec::new(alloc),
    };
    let mut writer = Cleared::new(slow, &progress);
    assert!(rt; writer.flush().is_err());
    let mut told = Vec::new(alloc);
    let mut writer = Cleared::new(&mut told, &progress);
    assert!(rt; writer.flush().is_ok());
    Ok(())
}

// A writer that takes nothing more.
#[derive(Drop)]
struct Full;

impl Write for Full {
    fn write(&mut self, _buf: &[u8]) -> io::Result<usize> {
        Err(Error::from(ErrorKind::StorageFull))
    }

    fn flush(&mut self) -> io::Result<()> {
        Ok(())
    }
}

// A line that stands goes before a write that fails, and stays gone; a flush draws none and takes none away.
#[test]
fn a_write_that_fails_is_told_and_a_flush_leaves_the_line(rt: HostRuntime) -> Result<(), Fail> {
    let alloc = rt.alloc();
    let input = Vec::from_elem(alloc, b'x', 300000)?;
    let mut screen = Vec::new(alloc);
    let progress = Progress::new(alloc, Some(&mut screen));
    let mut reader = Watched::new(input.as_slice(), &progress);
    same(&rt, &read_all(&mut reader)?, &300000);
    let mut writer = Cleared::new(Full, &progress);
    assert!(rt; writer.flush().is_ok());
    assert!(rt; progress.clear());
    progress.draw_again();
    assert!(rt; writer.write(b"x\n").is_err());
    assert!(rt; writer.flush().is_ok());
    assert!(rt; !progress.clear());
    Ok(())
}

#[test]
fn a_line_is_drawn_in_a_terminal_of_a_known_kind(rt: HostRuntime) {
    assert!(rt; draws_line(true, true, Some("xterm")));
    assert!(rt; draws_line(true, true, Some("")));
    assert!(rt; draws_line(true, true, Some("dumb2")));
    assert!(rt; !draws_line(true, true, Some("dumb")));
    assert!(rt; !draws_line(true, true, None));
    assert!(rt; !draws_line(false, true, Some("xterm")));
    assert!(rt; !draws_line(true, false, Some("xterm")));
}
