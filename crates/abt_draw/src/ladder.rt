//! Runs as text: ladder diagrams, a line for each event.
ghost use Rattle.std.specs.Prelude.{◌≡◌, ◌++◌, ◌≤◌, Some, IfOk, IfSome, OnOk, option_map, string_bytes};
ghost use Rattle.abt_draw.specs.Ladders as spec;
ghost use Rattle.abt_draw.specs.Ladders.{IsLadder};
ghost use Rattle.abt_draw.specs.Lines.{behind_lines};

use crate::arrow::sender_of;
use crate::level::has_row;
use crate::lifeline::name_of;
use crate::mark::{actor_of, mark_of};
use crate::page::title_of;
use crate::rung::{Marked, Sign, Stroke, bar_at, push_rung};
use crate::sheet::{Sheet, line_of};
use crate::visible::shown_in;
use crate::{Actor, actor_at, level_of};
use abt_chart::{Arrival, Crossing, Departure, Message, Told};
use std::alloc::AllocError;

// What the signs mean.
const KEYS: &str = "
---> request  ===> yes  ~~~> no  - -> again, or late  ---x never came
o start  X crash  * ask  + cell leaves, comes  # capacity  ? not enabled
! refused or dropped  @ a journal is stuck
times in picoseconds; rates behind refuses and capacity in 1/512 cell/s
";

/// A run as text. The explanation is that of the whole run.
///
/// # Errors
/// If memory is refused.
pub(crate) fn ladder_of(sheet: &Sheet<'_>, explanation: &str) -> Result<String, AllocError>
    ensures { IfOk result (λ text. IsLadder sheet.now explanation.now (string_bytes text)) }
{
    let mut out = title_of(sheet)?;
    out.push_str("\n\n")?;
    push_names(sheet, &mut out)?;
    push_events(sheet, &mut out, explanation)?;
    push_stuck(sheet, &mut out)?;
    out.push_str(KEYS)?;
    Ok(out)
}

// Adds what the lifelines are, and their numbers.
fn push_names(sheet: &Sheet<'_>, out: &mut String) -> Result<(), AllocError>
    ensures { OnOk result (string_bytes out.new ≡ string_bytes out.old ++ spec.names_text sheet.now.columns.now) }
{
    push_kinds(out, sheet.columns)?;
    out.push_str("\n")?;
    push_numbers(sheet, out)?;
    out.push_str("\n")
}

fn push_kinds(out: &mut String, columns: &[Actor]) -> Result<(), AllocError>
    ensures { OnOk result (string_bytes out.new ≡ string_bytes out.old ++ spec.kinds_text columns.now) }
{
    for actor in columns {
        let (kind, _) = name_of(*actor);
        push_ending(out, kind)?;
    }
    Ok(())
}

fn push_numbers(sheet: &Sheet<'_>, out: &mut String) -> Result<(), AllocError>
    ensures { OnOk result (string_bytes out.new ≡ string_bytes out.old ++ spec.numbers_text sheet.now.columns.now) }
{
    for actor in sheet.columns {
        let (_, number) = name_of(*actor);
        let number = format!(in sheet.alloc; "{number}")?;
        push_ending(out, number.as_str())?;
    }
    Ok(())
}

// Adds a text that ends at a lifeline.
fn push_ending(out: &mut String, text: &str) -> Result<(), AllocError>
    ensures { OnOk result (string_bytes out.new ≡ string_bytes out.old ++ spec.ending_text text.now) }
{
    push_blanks(out, 8usize.saturating_sub(text.len()))?;
    out.push_str(text)
}

fn push_blanks(out: &mut String, count: usize) -> Result<(), AllocError>
    ensures { OnOk result (string_bytes out.new ≡ string_bytes out.old ++ spec.blanks count) }
{
    for blank in 0..count {
        out.push_str(" ")?;
    }
    Ok(())
}

// Adds the lines of the events that are shown.
fn push_events(sheet: &Sheet<'_>, out: &mut String, explanation: &str) -> Result<(), AllocError>
    ensures { OnOk result (string_bytes out.new ≡ string_bytes out.old ++
        spec.shown_text sheet.now explanation.now) }
{
    let mut rest = lines_behind(explanation, sheet.rows.first);
    let tolds = shown_in(sheet);
    let crossings = sheet.chart.crossings.as_slice();
    for index in 0..tolds.len().min(crossings.len()) {
        let (line, behind) = line_of(rest);
        push_event_if_shown(sheet, out, &tolds[index], &crossings[index], line)?;
        rest = behind;
    }
    Ok(())
}

// What stands behind so many lines.
fn lines_behind(text: &str, count: usize) -> &str
    ensures { result.now ≡ behind_lines text.now count }
{
    let mut rest = text;
    for line in 0..count {
        rest = line_of(rest).1;
    }
    rest
}

// Adds the lines of an event, if it has a row.
fn push_event_if_shown(
    sheet: &Sheet<'_>,
    out: &mut String,
    told: &Told,
    crossing: &Crossing,
    line: &str,
) -> Result<(), AllocError>
    ensures { OnOk result (string_bytes out.new ≡ string_bytes out.old ++
        spec.event_if_shown sheet.now told.now crossing.now line.now) }
{
    if !has_row(sheet.only, sheet.net, sheet.columns, &told.event) {
        return Ok(());
    }
    let stroke = match &crossing.arrival {
        Some(arrival) => stroke_of(sheet, arrival),
        None => None,
    };
    push_rung(sheet, out, stroke, marked_of(sheet, told), line)?;
    match &crossing.departure {
        Some(departure) => push_stump(sheet, out, departure),
        None => Ok(()),
    }
}

// The line of the message that an event brings, if its sender and receiver are shown.
fn stroke_of(sheet: &Sheet<'_>, arrival: &Arrival) -> Option<Stroke>
    ensures { result ≡ spec.stroke_of sheet.now arrival.now }
{
    let from = sender_bar(sheet, &arrival.message)?;
    let bar = receiver_bar(sheet, &arrival.message)?;
    Some(Stroke {
        from,
        to: before_bar(from, bar),
        kind: arrival.message.kind,
        is_broken: arrival.again || arrival.late,
        is_lost: false,
    })
}

fn before_bar(from: usize, bar: usize) -> usize
    requires { bar ≤ 8191 }
    ensures { result ≡ spec.before_bar from bar }
{
    if from < bar { bar - 1 } else { bar + 1 }
}

// Adds the line of a message that an event sends and that comes in no row, if its sender and receiver are shown.
fn push_stump(sheet: &Sheet<'_>, out: &mut String, departure: &Departure) -> Result<(), AllocError>
    ensures { OnOk result (string_bytes out.new ≡ string_bytes out.old ++
        spec.stump_text sheet.now (Some departure.now)) }
{
    let Some(words) = stump_words(sheet, departure.came) else {
        return Ok(());
    };
    match stump_of(sheet, departure) {
        Some(stroke) => push_rung(sheet, out, Some(stroke), None, words),
        None => Ok(()),
    }
}

// What is told of a message that comes in no row.
fn stump_words(sheet: &Sheet<'_>, came: Option<usize>) -> Option<&'static str>
    ensures { option_map (λ words. words.now) result ≡ spec.stump_words sheet.now came }
{
    match came {
        None => Some("never came"),
        Some(came) if level_of(&sheet.rows, came) > sheet.rows.count => {
            Some("comes behind these events")
        }
        Some(_) => None,
    }
}

fn stump_of(sheet: &Sheet<'_>, departure: &Departure) -> Option<Stroke>
    ensures { result ≡ spec.stump_of sheet.now departure.now }
{
    let from = sender_bar(sheet, &departure.message)?;
    let bar = receiver_bar(sheet, &departure.message)?;
    Some(Stroke {
        from,
        to: half_to(from, bar),
        kind: departure.message.kind,
        is_broken: false,
        is_lost: departure.came.is_none(),
    })
}

fn half_to(from: usize, bar: usize) -> usize
    requires { from ≤ 8191 }
    ensures { result ≡ spec.half_to from bar }
{
    if from < bar {
        from + 4
    } else {
        from.saturating_sub(4)
    }
}

// The lifelines from which a message is sent, and to which it goes.
fn sender_bar(sheet: &Sheet<'_>, message: &Message) -> Option<usize>
    ensures bar { result ≡ spec.sender_bar sheet.now message.now }
    ensures few { IfSome result (λ bar. bar ≤ 8191) }
{
    bar_at(sheet.columns, sender_of(sheet.net, message))
}

fn receiver_bar(sheet: &Sheet<'_>, message: &Message) -> Option<usize>
    ensures bar { result ≡ spec.receiver_bar sheet.now message.now }
    ensures few { IfSome result (λ bar. bar ≤ 8191) }
{
    let receiver = actor_at(sheet.net, message.conn, message.stop);
    bar_at(sheet.columns, receiver)
}

// The mark of an event, if it has one.
fn marked_of(sheet: &Sheet<'_>, told: &Told) -> Option<Marked>
    ensures { result ≡ spec.marked_of sheet.now told.now }
{
    let mark = mark_of(&told.outcome)?;
    Some(marked_at(sheet, actor_of(sheet.net, &told.event), Sign::Of(mark)))
}

// A sign on somebody's lifeline, or at the left edge, if that isn't shown.
fn marked_at(sheet: &Sheet<'_>, who: Option<Actor>, sign: Sign) -> Marked
    ensures { result ≡ spec.marked_at sheet.now who sign }
{
    let place = bar_at(sheet.columns, who).unwrap_or(0);
    Marked { place, sign }
}

// Adds the lines of the entries at which journals are stuck.
fn push_stuck(sheet: &Sheet<'_>, out: &mut String) -> Result<(), AllocError>
    ensures { OnOk result (string_bytes out.new ≡ string_bytes out.old ++
        spec.stuck_text sheet.now sheet.now.stuck.now) }
{
    for mark in sheet.stuck {
        let (line, _) = line_of(mark.text);
        let words = format!(in sheet.alloc; "stuck: {line}")?;
        let marked = marked_at(sheet, Some(mark.actor), Sign::Stuck);
        push_rung(sheet, out, None, Some(marked), words.as_str())?;
    }
    Ok(())
}
