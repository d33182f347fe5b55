//! What is told where words are no plan.
use super::Narrow;
use abt_cli::answer_words;
use abt_perform::WordsFault;
use std::alloc::Global;
use std::process::Abort;
use std::test::Fail;

// Demands what words that are no plan are answered, over writers with so much room.
fn answers(rt: &impl Abort, fault: &WordsFault, room: usize, status: u8, text: &str, told: &str) {
    let mut out = Narrow::new(room);
    let mut errors = Narrow::new(512);
    let answer = answer_words(fault, &mut out, &mut errors);
    assert_eq!(rt; errors.taken(), told.as_bytes());
    assert_eq!(rt; out.taken(), text.as_bytes());
    assert_eq!(rt; answer, status);
}

fn said(alloc: Global, text: &str) -> Result<String, Fail> {
    Ok(String::from_str(alloc, text)?)
}

#[test]
fn refused_words_are_told_and_nothing_goes_out(rt: HostRuntime) -> Result<(), Fail> {
    let words = WordsFault::Words(said(rt.alloc(), "error: no such word\n")?);
    answers(&rt, &words, 512, 2, "", "error: no such word\n");
    Ok(())
}

#[test]
fn help_goes_out_and_nothing_is_told(rt: HostRuntime) -> Result<(), Fail> {
    let help = WordsFault::Help(said(rt.alloc(), "Usage: abt\n")?);
    answers(&rt, &help, 512, 0, "Usage: abt\n", "");
    Ok(())
}

#[test]
fn help_that_breaks_off_is_told(rt: HostRuntime) -> Result<(), Fail> {
    let text = "Usage: abt\n";
    let help = WordsFault::Help(said(rt.alloc(), text)?);
    for room in 0..text.len() {
        breaks_off(&rt, &help, text, room);
    }
    Ok(())
}

// Demands that of help its beginning goes out, as far as there is room.
fn breaks_off(rt: &impl Abort, help: &WordsFault, text: &str, room: usize) {
    let mut out = Narrow::new(room);
    let mut errors = Narrow::new(512);
    assert_eq!(rt; answer_words(help, &mut out, &mut errors), 1);
    assert_eq!(rt; errors.taken(), "fault: write\n".as_bytes());
    assert_eq!(rt; Some(out.taken()), text.as_bytes().get(..room));
}

#[test]
fn want_of_memory_for_words_is_told(rt: HostRuntime) {
    answers(&rt, &WordsFault::Memory, 512, 1, "", "fault: memory\n");
}

#[test]
fn what_is_told_breaks_off_where_the_writer_does(rt: HostRuntime) -> Result<(), Fail> {
    let words = WordsFault::Words(said(rt.alloc(), "error: no\n")?);
    for room in 0..10usize {
        is_told_in_part(&rt, &words, "error: no\n", room);
    }
    Ok(())
}

// Demands that of refused words the beginning is told, as far as there is room.
fn is_told_in_part(rt: &impl Abort, words: &WordsFault, text: &str, room: usize) {
    let mut errors = Narrow::new(room);
    assert_eq!(rt; answer_words(words, &mut Narrow::new(512), &mut errors), 2);
    assert_eq!(rt; Some(errors.taken()), text.as_bytes().get(..room));
}
