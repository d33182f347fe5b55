//! Lines, read.
ghost use Rattle.std.specs.Prelude.{◌≡◌, ◌⊎◌, IfOk, IfErr, Ok, Err};
ghost use Rattle.json.specs.Find.{as_bool};
ghost use Rattle.json.specs.Value.{value_view};
ghost use Rattle.abt_entry.specs.declared.line.Line as declared;
ghost use Rattle.abt_entry.specs.Lines as lines;
ghost use Rattle.abt_entry.specs.Reading.{Gives};
ghost use Rattle.abt_entry.specs.declared.fault.LineFault.TheVariants as fault;

use crate::line::Line;
use crate::net::net_in;
use crate::port::step_in;
use crate::source::{entry_in, is_open_in, leave_unstored};
use crate::{LineFault, Member, find, short_of};
use json::{Error, Scratch, Value};
use std::alloc::Global;

fn port_in(value: &Value<'_>, number: &Value<'_>) -> Result<Line, LineFault>
    ensures { result ≡ lines.port_in (value_view value.now) (value_view number.now) }
{
    let port = short_of(number, Member::Port, 65536)?;
    let entry = step_in(value)?;
    if find(value, Member::Place).is_none() {
        return Ok(Line::Unplaced { port, entry });
    }
    Ok(Line::Port { port, entry })
}

fn source_in(value: &Value<'_>, number: &Value<'_>) -> Result<Line, LineFault>
    ensures { result ≡ lines.source_in (value_view value.now) (value_view number.now) }
{
    let source = short_of(number, Member::Source, 65536)?;
    let mut entry = entry_in(source, value)?;
    if is_open_in(value, &entry) {
        leave_unstored(&mut entry);
        return Ok(Line::Open { source, entry });
    }
    Ok(Line::Source { source, entry })
}

fn end_in(value: &Value<'_>) -> Result<Line, LineFault>
    ensures { result ≡ lines.if_true (as_bool (value_view value.now)) }
{
    match value.as_bool() {
        Some(true) => Ok(Line::End),
        _ => Err(LineFault::Member(Member::End)),
    }
}

// The line that a value is.
fn line_in(alloc: Global, value: &Value<'_>) -> Result<Line, LineFault>
    ensures { Gives (λ line. line) (lines.line_in (value_view value.now)) result }
{
    if let Some(found) = find(value, Member::Net) {
        return Ok(Line::Net(net_in(alloc, found)?));
    }
    if let Some(number) = find(value, Member::Port) {
        return port_in(value, number);
    }
    if let Some(number) = find(value, Member::Source) {
        return source_in(value, number);
    }
    if let Some(found) = find(value, Member::End) {
        return end_in(found);
    }
    Err(LineFault::Kind)
}

/// Reads a line. Members that its kind doesn't have are ignored.
///
/// # Errors
/// The first that is found (docs/JOURNALS.md, "Faults"): the text isn't JSON; an object has a member twice; what the line's
/// kind has to have is missing or isn't what it has to be; or memory was refused.
pub fn read_line(alloc: Global, text: &str, scratch: &mut Scratch) -> Result<Line, LineFault>
    ensures ok { IfOk result (lines.Says text.now) }
    ensures only { (line : declared.Line) → lines.Says text.now line → (result ≡ Ok line) ⊎
        (result ≡ Err fault.Memory) }
    ensures err { IfErr result (λ why. (why ≡ fault.Memory) ⊎ lines.SaysNone text.now why) }
{
    let value = match Value::parse_strict(alloc, text, scratch) {
        Ok(value) => value,
        Err(Error::OutOfMemory) => return Err(LineFault::Memory),
        Err(Error::DuplicateKey) => return Err(LineFault::Twice),
        Err(_) => return Err(LineFault::Json),
    };
    line_in(alloc, &value)
}
