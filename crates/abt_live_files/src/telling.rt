//! What is told of a switch or a source that doesn't answer all lines.
ghost use Rattle.std.specs.Prelude.{◌≡◌};
ghost use Rattle.abt_live_files.specs.Words as spec;
ghost use Rattle.abt_live_files.specs.Words.{TellsEach, journal_pieces, named_pieces, numbered_pieces, stop_pieces, store_pieces};
ghost use Rattle.abt_files.specs.Shown.{shown};
ghost use Rattle.abt_perform.specs.Plans.{Tells};
ghost use Rattle.abt_text.specs.Text.{decimal};

use crate::fault::LiveStop;
use crate::journal_fault::JournalFault;
use abt_disk::{FileFault, OpenFault};
use abt_files::put_shown;
use abt_lines::LinesFault;
use abt_live::ServeFault;
use abt_perform::{Fault, MEMORY_LINE, tell_fault, tell_text};
use itoa::Buffer;
use std::io::Write;

/// The line of a port that the net doesn't have.
const PORT_LINE: &str = "fault: port\n";

/// The line of a connection that the net doesn't have.
const CONNECTION_LINE: &str = "fault: connection\n";

/// The line of a store that isn't opened.
const STORE_LINE: &str = "fault: store\n";

/// The line of a journal that isn't opened, or can't be written.
const JOURNAL_LINE: &str = "fault: journal\n";

// Tells why not all lines are answered, with the name of the store or the journal if that is why.
pub(crate) fn tell_stop<E: Write>(stop: LiveStop, store: &str, journal: &str, errors: &mut E)
    ensures { TellsEach (stop_pieces store.now journal.now stop) (E.contents errors.old)
        (E.contents errors.new) }
{
    match stop {
        LiveStop::Scenario(fault) => tell_fault(Fault::from(fault), errors),
        LiveStop::Port(id) => tell_numbered(PORT_LINE, id, ": the net has no such port\n", errors),
        LiveStop::Connection(conn) => {
            let words = ": the net has no such connection\n";
            tell_numbered(CONNECTION_LINE, conn, words, errors)
        }
        LiveStop::Store(fault) => tell_store(fault, store, errors),
        LiveStop::Journal(fault) => tell_journal(fault, journal, errors),
        LiveStop::Serving(ServeFault::Journal) => {
            tell_journal(JournalFault::Unwritten, journal, errors)
        }
        LiveStop::Serving(ServeFault::Lines(fault)) => tell_fault(fault_of_lines(fault), errors),
    }
}

fn tell_store<E: Write>(fault: FileFault, name: &str, errors: &mut E)
    ensures { TellsEach (store_pieces name.now fault) (E.contents errors.old) (E.contents errors.new) }
{
    match fault {
        FileFault::Memory => tell_text(errors, MEMORY_LINE),
        _ => tell_named(STORE_LINE, name, store_words(fault), errors),
    }
}

fn tell_journal<E: Write>(fault: JournalFault, name: &str, errors: &mut E)
    ensures { TellsEach (journal_pieces name.now fault) (E.contents errors.old) (E.contents errors.new) }
{
    match fault {
        JournalFault::Memory => tell_text(errors, MEMORY_LINE),
        _ => tell_named(JOURNAL_LINE, name, fault.words(), errors),
    }
}

// Tells the line of a fault, and behind it a name and why.
fn tell_named<E: Write>(line: &str, name: &str, words: &str, errors: &mut E)
    ensures { TellsEach (named_pieces line.now name.now words.now) (E.contents errors.old)
        (E.contents errors.new) }
{
    tell_text(errors, line);
    tell_shown(errors, name);
    tell_text(errors, ": ");
    tell_text(errors, words);
    tell_text(errors, "\n");
}

// Tells a name as it is shown.
fn tell_shown<E: Write>(errors: &mut E, name: &str)
    ensures { Tells (shown name.now) (E.contents errors.old) (E.contents errors.new) }
{
    let _ = put_shown(errors, name);
}

// Tells the line of a fault, and behind it a number and why.
fn tell_numbered<E: Write>(line: &str, number: u16, words: &str, errors: &mut E)
    ensures { TellsEach (numbered_pieces line.now number words.now) (E.contents errors.old)
        (E.contents errors.new) }
{
    let mut digits = Buffer::new();
    tell_text(errors, line);
    tell_text(errors, digits.format(number));
    tell_text(errors, words);
}

// What it means that a store isn't made or opened, and what to do.
fn store_words(fault: FileFault) -> &'static str
    ensures { result.now ≡ spec.store_words fault }
{
    match fault {
        FileFault::Missing =>
            "there is no such store, or no such folder; --new makes a store in a folder that is there",
        FileFault::Exists => "it is there already; without --new it is used",
        FileFault::Unfinished =>
            "a file of its name with .new is there, which was left or is being made",
        FileFault::NotAFile => "it is no regular file",
        FileFault::Length(_) => "it hasn't the 16384 octets of a store",
        FileFault::Busy => "another process uses it",
        FileFault::Denied =>
            "its rights, or those of its folder or its disk, don't let it be read and written",
        FileFault::Full => "the disk is full",
        FileFault::Device => "the disk failed",
        FileFault::Blocks(fault) => block_words(fault),
        FileFault::Memory => "no memory was found",
    }
}

fn block_words(fault: OpenFault) -> &'static str
    ensures { result.now ≡ spec.block_words fault }
{
    match fault {
        OpenFault::Disk(_) => "the disk failed",
        OpenFault::Format => "it is no store of a source",
        OpenFault::Version(_) => "it is a store of another version",
        OpenFault::Damaged => "it is damaged",
    }
}

// The program's fault for one of the lines.
fn fault_of_lines(fault: LinesFault) -> Fault
    ensures { result ≡ spec.fault_of_lines fault }
{
    match fault {
        LinesFault::Read => Fault::Read,
        LinesFault::TooLong => Fault::TooLong,
        LinesFault::Write => Fault::Write,
        LinesFault::Memory => Fault::Memory,
    }
}
