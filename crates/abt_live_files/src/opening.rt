//! Journals and stores, opened.
ghost use Rattle.std.specs.Prelude.{◌≡◌, ◌*◌, ◌≤◌, IfErr, IfOk, IfSome};
ghost use Rattle.std.specs.Io.KnownBytes.{Appends};
ghost use Rattle.abt_rate.specs.Limits.{spacing_min};
ghost use Rattle.abt_live.specs.History.{restart_text};
ghost use Rattle.abt_live.specs.Past.{no_past};
ghost use Rattle.abt_live_files.specs.Opened.{BeginsBy, IsContinued, IsOfFile, IsRecounted, IsRestarted};

use crate::fault::LiveStop;
use crate::journal_fault::JournalFault;
use crate::stores::Stores;
use abt_disk::FileFault;
use abt_keep::Record;
use abt_lines::LinesFault;
use abt_live::{Mending, Past, read_history, restart_text};
use abt_plans::SourcePlan;
use abt_text::put;
use std::alloc::{AllocGlobal, Global};
use std::fs::{self, OpenFile, OpenOptions};
use std::io::{Read, Write};
use std::rt::Files;

/// The least spacing of cells, in picoseconds.
const SPACING_MIN: u64 = 234;

// A source that begins: its store, its journal, and what it did before.
pub(crate) struct Begun<K, J> {
    pub(crate) store: K,
    pub(crate) journal: J,
    pub(crate) past: Past,
}

// Makes the journal of a switch.
pub(crate) fn new_journal<T: Files>(rt: &T, name: &str) -> Result<T::File, JournalFault> {
    let opened = OpenOptions::new()
        .append(true)
        .create_new(true)
        .open(rt, name);
    opened.map_err(JournalFault::of_making)
}

// Opens the store and the journal of a source.
pub(crate) fn open_source<T: Files + AllocGlobal + Stores>(
    rt: &T,
    plan: &SourcePlan,
) -> Result<Begun<T::Store, T::File>, LiveStop>
    ensures past { IfOk result (λ begun. spacing_min * begun.past.cells ≤ begun.past.clock) }
    ensures begins { IfOk result (λ begun.
        BeginsBy T.File.contents plan.now.conn plan.now.is_new begun.past begun.journal) }
    ensures err { IfErr result IsOfFile }
{
    let (store, journal) = (plan.store.as_str(), plan.journal.as_str());
    if plan.is_new {
        return make_source(rt, store, journal);
    }
    let store = rt.open_store(store).map_err(LiveStop::Store)?;
    let (journal, past) = continued(rt, plan.conn, journal).map_err(LiveStop::Journal)?;
    Ok(Begun {
        store,
        journal,
        past,
    })
}

// Makes the store and the journal of a source. A journal that has no line may be there.
fn make_source<T: Files + Stores>(
    rt: &T,
    store: &str,
    journal: &str,
) -> Result<Begun<T::Store, T::File>, LiveStop>
    ensures past { IfOk result (λ begun. begun.past ≡ no_past) }
    ensures err { IfErr result IsOfFile }
{
    // No journal is made beside a store that is there.
    if fs::symlink_metadata(rt, store).is_ok() {
        return Err(LiveStop::Store(FileFault::Exists));
    }
    let journal = empty_journal(rt, journal).map_err(LiveStop::Journal)?;
    rt.create_store(store, Record::old(0))
        .map_err(LiveStop::Store)?;
    let store = rt.open_store(store).map_err(LiveStop::Store)?;
    Ok(Begun {
        store,
        journal,
        past: Past::NONE,
    })
}

// Opens a journal that has no line, which no other process then has, and makes it if it isn't there.
fn empty_journal<T: Files + Stores>(rt: &T, name: &str) -> Result<T::File, JournalFault> {
    // A pipe with no reader would be waited for if it were to be written alone.
    let opened = OpenOptions::new()
        .read(true)
        .append(true)
        .create(true)
        .open(rt, name);
    let journal = opened.map_err(JournalFault::of_making)?;
    rt.lock_journal(&journal)?;
    let about = journal.metadata()?;
    if !about.is_file() {
        return Err(JournalFault::Other);
    }
    if about.len() > 0 {
        return Err(JournalFault::Used);
    }
    Ok(journal)
}

// Opens the journal of a source, which no other process then has, reads what it did before, and writes what became of it.
fn continued<T: Files + AllocGlobal + Stores>(
    rt: &T,
    conn: u16,
    name: &str,
) -> Result<(T::File, Past), JournalFault>
    ensures past { IfOk result (λ found. spacing_min * found.1.cells ≤ found.1.clock) }
    ensures continued { IfOk result (λ found. IsContinued T.File.contents conn found.1 found.0) }
{
    let mut journal = OpenOptions::new().read(true).append(true).open(rt, name)?;
    rt.lock_journal(&journal)?;
    let about = journal.metadata()?;
    if !about.is_file() {
        return Err(JournalFault::Other);
    }
    let past = go_on(rt.alloc(), conn, &mut journal, about.len())?;
    Ok((journal, past))
}

// Reads in a source's journal, a file of so many octets, what the source did before, and writes behind it what became of it.
fn go_on<J: Read + Write + OpenFile>(
    alloc: Global,
    conn: u16,
    journal: &mut J,
    size: u64,
) -> Result<Past, JournalFault>
    ensures past { IfOk result (λ past. spacing_min * past.cells ≤ past.clock) }
    ensures recounted { IfOk result (λ past. IfSome (J.remaining journal.old)
        (λ text. IsRecounted conn text past)) }
    ensures restarts { IfOk result (λ past. IsRestarted (J.contents journal.new) conn past) }
{
    let history = match read_history(alloc, conn, journal) {
        Ok(history) => history,
        Err(LinesFault::Memory) => return Err(JournalFault::Memory),
        Err(_) => return Err(JournalFault::Unread),
    };
    let Some(mending) = history.mending(size) else {
        return Err(JournalFault::Foreign);
    };
    let past = history.past;
    if past.cells > past.clock / SPACING_MIN {
        return Err(JournalFault::Past);
    }
    mend(journal, mending)?;
    write_restart(alloc, journal, conn, past)
}

// Has the file of a journal end behind its last line.
fn mend<J: Write + OpenFile>(journal: &mut J, mending: Mending) -> Result<(), JournalFault> {
    match mending {
        Mending::Nothing => {}
        Mending::LineFeed => put(journal, b"\n")?,
        Mending::End(size) => journal.set_len(size)?,
    }
    Ok(())
}

// Writes what became of a source whose process ended, which had this past, and gives the past back.
fn write_restart<J: Write>(
    alloc: Global,
    journal: &mut J,
    conn: u16,
    past: Past,
) -> Result<Past, JournalFault>
    ensures past { IfOk result (λ given. given ≡ past) }
    ensures text { IfOk result (λ given. Appends (J.contents journal.old) (J.contents journal.new)
        (restart_text conn past)) }
{
    let text = restart_text(alloc, conn, &past)?;
    put(journal, text.as_slice())?;
    Ok(past)
}
