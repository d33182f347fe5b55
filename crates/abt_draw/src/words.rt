//! The words that stand in a picture.
ghost use Rattle.std.specs.Prelude.{◌≡◌, IfOk, string_bytes};
ghost use Rattle.abt_draw.specs.Bands as spec;

use crate::sheet::Sheet;
use abt_chart::{Chart, Kind, Message, Told};
use abt_rate::Rate;
use abt_world::Outcome;
use std::alloc::{AllocError, Global};

// The most characters of an answer that a picture shows.
const SIGNS_MAX: usize = 64;

/// The words beside an arrow: its connection, what it is, the number of its request, and the rate that was asked for.
pub(crate) fn message_words(
    sheet: &Sheet<'_>,
    message: &Message,
    again: bool,
    late: bool,
) -> Result<String, AllocError> {
    let alloc = sheet.alloc;
    let conn = message.conn;
    let kind = kind_word(message.kind);
    let seq = message.seq;
    let mut words = format!(in alloc; "c{conn} {kind}r{seq}")?;
    if let Some(rate) = asked_rate(drawn_so_far(sheet.chart), message) {
        let rate = short_rate(alloc, rate.units())?;
        write!(words, ": {rate}")?;
    }
    if again {
        words.push_str(" again")?;
    }
    if late {
        words.push_str(" late")?;
    }
    Ok(words)
}

fn kind_word(kind: Kind) -> &'static str {
    match kind {
        Kind::Request => "",
        Kind::Yes => "yes ",
        Kind::No => "no ",
    }
}

// The events up to the last that is shown, which have each request of which a message is shown.
fn drawn_so_far(chart: &Chart) -> &[Told] {
    let told = chart.told.as_slice();
    let end = chart.first.saturating_add(chart.crossings.len());
    &told[..end.min(told.len())]
}

// The rate for which the request of a message asked. A source asks once by a number, mostly shortly before.
fn asked_rate(told: &[Told], message: &Message) -> Option<Rate> {
    for back in 0..told.len() {
        let event = &told[told.len() - 1 - back];
        if let Outcome::Asked(request) | Outcome::Repeated(request) = event.outcome {
            if request.seq() == message.seq && event.event.conn() == Some(message.conn) {
                return Some(request.ask());
            }
        }
    }
    None
}

/// A rate in whole cells per second, with a sign behind it if more than that is meant.
pub(crate) fn short_rate(alloc: Global, units: u64) -> Result<String, AllocError>
    ensures { IfOk result (λ words. string_bytes words ≡ spec.short_rate units) }
{
    let whole = units / 512;
    let more = more_of(units);
    format!(in alloc; "{whole}{more}")
}

// The sign of a rate that isn't whole.
fn more_of(units: u64) -> &'static str
    ensures { result.now ≡ spec.more_of units }
{
    if units % 512 == 0 { "" } else { "+" }
}

/// What is told of a rate: what it is of, the rate, and its unit.
pub(crate) fn told_rate(alloc: Global, what: &str, units: u64) -> Result<String, AllocError>
    ensures { IfOk result (λ words. string_bytes words ≡ spec.told_rate what.now units) }
{
    let rate = short_rate(alloc, units)?;
    format!(in alloc; "{what} {rate} cells/s")
}

/// What is told of the block of a connection.
pub(crate) fn told_hold(alloc: Global, conn: usize, held: u64) -> Result<String, AllocError>
    ensures { IfOk result (λ words. string_bytes words ≡ spec.told_hold conn held) }
{
    let what = format!(in alloc; "c{conn} holds")?;
    told_rate(alloc, what.as_str(), held)
}

/// The answer in the line of an explanation: what stands behind its first colon.
pub(crate) fn answer_in(line: &str) -> &str {
    match line.split_once(": ") {
        Some((_, answer)) => answer,
        None => line,
    }
}

/// The beginning of a text, with a sign behind it if it goes on.
pub(crate) fn clipped(alloc: Global, text: &str) -> Result<String, AllocError> {
    let mut out = String::new(alloc);
    let mut signs: usize = 0;
    for sign in text.chars() {
        if signs == SIGNS_MAX {
            out.push_str("..")?;
            return Ok(out);
        }
        out.push(sign)?;
        signs = signs.saturating_add(1);
    }
    Ok(out)
}
