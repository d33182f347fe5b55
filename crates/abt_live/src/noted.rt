//! What a line of a source's journal says.
ghost use Rattle.std.specs.Prelude.{◌≡◌, ◌⊎◌, IfOk};
ghost use Rattle.json.specs.Value.{value_view};
ghost use Rattle.abt_live.specs.Past.{Notes, about_in, about_or_nothing, entry_for, noted_by};
ghost use Rattle.abt_entry.specs.Lines.{SaysNone};
ghost use Rattle.abt_entry.specs.declared.fault.LineFault.TheVariants.{Kind};

use abt_entry::{Line, LineFault, read_line, whole_in};
use abt_format::rate_of;
use abt_model::SourceEntry;
use abt_rate::Rate;
use json::{Error, Scratch, Value};
use std::alloc::{AllocError, Global};

// What a line of the journal of a source says.
#[derive(Clone, Copy, Debug, PartialEq, Eq)]
pub(crate) enum Noted {
    // That an ask for this rate is about to write.
    About(Rate),
    // An entry.
    Entry(SourceEntry),
    // Nothing of the source.
    Nothing,
}

// What a line of the journal of the source of a connection says.
pub(crate) fn noted_on(alloc: Global, conn: u16, octets: &[u8]) -> Result<Noted, AllocError>
    ensures { IfOk result (Notes conn octets.now) }
{
    match std::str::from_utf8(octets) {
        Ok(text) => noted_in(alloc, conn, text),
        Err(_) => Ok(Noted::Nothing),
    }
}

fn noted_in(alloc: Global, conn: u16, text: &str) -> Result<Noted, AllocError>
    ensures { IfOk result (Notes conn text.now) }
{
    let mut scratch = Scratch::new(alloc);
    match read_line(alloc, text, &mut scratch) {
        Ok(line) => Ok(noted_by(conn, &line)),
        Err(LineFault::Memory) => Err(AllocError),
        Err(LineFault::Kind) => noted_about(alloc, conn, text),
        Err(_) => Ok(Noted::Nothing),
    }
}

// What a line of journals says of the source of a connection.
fn noted_by(conn: u16, line: &Line) -> Noted
    ensures { result ≡ noted_by conn line.now }
{
    match line {
        Line::Source { source, entry } | Line::Open { source, entry } => {
            entry_for(conn, *source, entry)
        }
        _ => Noted::Nothing,
    }
}

fn entry_for(conn: u16, source: u16, entry: &SourceEntry) -> Noted
    ensures { result ≡ entry_for conn source entry.now }
{
    if source == conn {
        Noted::Entry(*entry)
    } else {
        Noted::Nothing
    }
}

// What a line says that is no line of journals.
fn noted_about(alloc: Global, conn: u16, text: &str) -> Result<Noted, AllocError>
    requires { SaysNone text.now Kind }
    ensures { IfOk result (Notes conn text.now) }
{
    let mut scratch = Scratch::new(alloc);
    match Value::parse_strict(alloc, text, &mut scratch) {
        Ok(value) => Ok(about_or_nothing(about_in(conn, &value))),
        Err(Error::OutOfMemory) => Err(AllocError),
        Err(_) => unreachable!(),
    }
}

fn about_or_nothing(rate: Option<Rate>) -> Noted
    ensures { result ≡ about_or_nothing rate }
{
    match rate {
        Some(rate) => Noted::About(rate),
        None => Noted::Nothing,
    }
}

// The rate of an ask of the source of a connection that is about to write, if a value says one.
fn about_in(conn: u16, value: &Value<'_>) -> Option<Rate>
    ensures { result ≡ about_in conn (value_view value.now) }
{
    let number = whole_in(value.get("about")?)?;
    let code = value.get("ask")?.as_str()?;
    if number != u64::from(conn) {
        return None;
    }
    rate_of(code)
}
