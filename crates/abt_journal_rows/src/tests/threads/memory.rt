//! Each allocation fails in turn where these tests are run by `rt try --test --fail-alloc N` (docs/TESTING.md): then that is told, the
//! lines before it stay, and the same call is done when it is made again.
use super::{ALL, CROSSING, Ended, Narrow, run_over};
use abt_perform_threads::{Unrun, keep_run};
use std::alloc::Global;
use std::io::{self, Error, ErrorKind, Write};
use std::process::Abort;
use std::sync::Wait;
use std::test::Fail;
use std::thread::Threads;

/// Whether memory was refused. A thread that isn't started for want of it is told as that.
fn lacked_memory(end: &Ended) -> bool {
    let lines = ["", "gathered\n", "gathered\nwoven\n"];
    lines.iter().any(|text| end.is(1, text, "fault: memory\n")) || end.is(1, "", "fault: Thread\n")
}

#[test]
fn a_run_is_shown_after_memory_was_refused(rt: HostRuntime) {
    let mut refused = false;
    for _run in 0..3 {
        let end = run_over(&rt, rt.alloc(), 2, &mut CROSSING.as_bytes(), 64);
        if !end.is(0, ALL, "") {
            assert!(rt; lacked_memory(&end) && !refused);
            refused = true;
        }
    }
}

#[test]
fn a_text_that_is_no_scenario_is_told_as_that_or_memory_was_refused(
    rt: HostRuntime,
) -> Result<(), Fail> {
    for (text, fault) in [
        ("ports = [", "fault: Toml\n"),
        ("ports = 5", "fault: WrongType ports\n"),
        ("ports = []\nevents = [\"crash\"]", "fault: EventText 1\n"),
    ] {
        is_told_of_two(&rt, rt.alloc(), text, fault);
    }
    Ok(())
}

// Demands that of two runs one tells the fault, and the first that or want of memory.
fn is_told_of_two<T: Threads + Wait + Sync + Abort>(
    rt: &T,
    alloc: Global,
    text: &str,
    fault: &str,
) {
    let first = run_over(rt, alloc, 1, &mut text.as_bytes(), 64);
    assert!(rt; first.is(1, "", fault) || first.is(1, "", "fault: memory\n"));
    let second = run_over(rt, alloc, 1, &mut text.as_bytes(), 64);
    assert!(rt; first.is(1, "", fault) || second.is(1, "", fault));
}

/// The last line of a text of journals.
const END: &str = "{\"end\":true}\n";

/// A writer that takes 16,384 octets.
#[derive(Drop)]
struct Page {
    len: usize,
    octets: [u8; 16384],
}

impl Page {
    fn new() -> Page {
        Page {
            len: 0,
            octets: [0; 16384],
        }
    }

    /// Whether the text is whole.
    fn is_whole(&self) -> bool {
        self.octets[..self.len.min(16384)].ends_with(END.as_bytes())
    }
}

impl Write for Page {
    fn write(&mut self, buf: &[u8]) -> io::Result<usize> {
        if buf.len() > 16384 || self.len > 16384 - buf.len() {
            return Err(Error::from(ErrorKind::Other));
        }
        self.octets[self.len..self.len + buf.len()].copy_from_slice(buf);
        self.len += buf.len();
        Ok(buf.len())
    }

    fn flush(&mut self) -> io::Result<()> {
        Ok(())
    }
}

/// Runs a scenario and keeps its journals: how it ended, and the page that they went to. None if memory was refused for reading.
fn kept<T: Threads + Wait + Sync>(rt: &T, alloc: Global) -> Option<(Ended, Page)> {
    let unrun = Unrun::read_from(alloc, &mut CROSSING.as_bytes()).ok()?;
    let (mut out, mut errors, mut page) = (Narrow::new(64), Narrow::new(64), Page::new());
    let status = keep_run(rt, alloc, 2, unrun, &mut out, &mut page, &mut errors);
    Some((
        Ended {
            status,
            out,
            errors,
        },
        page,
    ))
}

// Whether a run whose memory was refused kept what it had to: the whole text once it was gathered, unless memory was refused for that.
fn is_kept_without_memory(end: &Ended, page: &Page) -> bool {
    let is_gathered = !end.out.taken().is_empty();
    if end.is(1, ALL, "fault: memory\n") {
        return !page.is_whole();
    }
    lacked_memory(end) && page.is_whole() == is_gathered && (is_gathered || page.len == 0)
}

#[test]
fn journals_are_kept_once_a_run_is_gathered_though_memory_was_refused(rt: HostRuntime) {
    let mut refused = false;
    for _run in 0..3 {
        let is_done = match kept(&rt, rt.alloc()) {
            Some((end, page)) if end.is(0, ALL, "") => page.is_whole(),
            Some((end, page)) => {
                assert!(rt; is_kept_without_memory(&end, &page));
                false
            }
            None => false,
        };
        if !is_done {
            assert!(rt; !refused);
            refused = true;
        }
    }
}

#[test]
fn journals_are_kept_where_a_line_can_not_be_written(rt: HostRuntime) {
    for room in 0..20usize {
        let alloc = rt.alloc();
        assert!(rt; is_kept_unshown(&rt, alloc, room) || is_kept_unshown(&rt, alloc, room));
    }
}

// Whether a run whose lines have only so much room leaves all its journals, and tells that its lines can't be written.
fn is_kept_unshown<T: Threads + Wait + Sync>(rt: &T, alloc: Global, room: usize) -> bool {
    let Ok(unrun) = Unrun::read_from(alloc, &mut CROSSING.as_bytes()) else {
        return false;
    };
    let (mut out, mut errors, mut page) = (Narrow::new(room), Narrow::new(64), Page::new());
    let status = keep_run(rt, alloc, 2, unrun, &mut out, &mut page, &mut errors);
    let is_told = errors.taken() == "fault: write\n".as_bytes();
    status == 1 && is_told && out.taken().len() == room && page.is_whole()
}
