//! The cells of a picture, below its bands: a strip for each source, with an arrow along an axis of time for each cell that arrives.
ghost use Rattle.std.specs.Prelude.{◌≡◌, ◌++◌, OnOk, IfOk, string_bytes};
ghost use Rattle.abt_draw.specs.Cells as spec;
ghost use Rattle.abt_draw.specs.Visible.{shown_in as events_shown};

use crate::moment::{AXIS_LEFT, AXIS_RIGHT, Scale, scale_of, x_at};
use crate::sheet::Sheet;
use crate::visible::shown_in;
use crate::way::{DROP, push_way, way_of};
use crate::{Actor, Point, push_label, push_line};
use abt_chart::Told;
use abt_world::{Event, Outcome};
use std::alloc::{AllocError, Global};

// From one strip to the next, in tenths of a unit.
const STRIP_STEP: u64 = 700;

/// Adds the strips of the sources of which cells leave or arrive, if there are such, and returns their lower edge.
///
/// # Errors
/// If memory is refused.
pub(crate) fn push_cells(sheet: &Sheet<'_>, out: &mut String, upper: u64) -> Result<u64, AllocError>
    ensures { OnOk result (string_bytes out.new ≡ string_bytes out.old ++ spec.cells_text sheet.now upper) }
{
    let shown = shown_in(sheet);
    let Some(scale) = scale_of(sheet.only, shown) else {
        return Ok(upper);
    };
    push_scale(sheet.alloc, out, scale, upper)?;
    push_strips(sheet, out, shown, scale, upper.saturating_add(300))
}

// Adds what the strips are, and from which moment to which they go.
fn push_scale(alloc: Global, out: &mut String, scale: Scale, upper: u64) -> Result<(), AllocError>
    ensures { OnOk result (string_bytes out.new ≡ string_bytes out.old ++ spec.head_text upper scale) }
{
    let words = scale_words(alloc, scale)?;
    let at = Point {
        x: 60,
        y: upper.saturating_add(100),
    };
    push_label(alloc, out, "key", at, words.as_str())
}

fn scale_words(alloc: Global, scale: Scale) -> Result<String, AllocError>
    ensures { IfOk result (λ words. string_bytes words ≡ spec.scale_words scale) }
{
    let (first, last) = (scale.first, scale.last);
    format!(in alloc;
        "Cells, emitted above and arrived below, from {first} to {last} ps. A dashed line is a cell that was found nonconforming."
    )
}

// Adds the strips from a place on, and returns the lower edge of the last one.
fn push_strips(
    sheet: &Sheet<'_>,
    out: &mut String,
    shown: &[Told],
    scale: Scale,
    upper: u64,
) -> Result<u64, AllocError>
    requires { shown.now ≡ events_shown sheet.now }
    ensures { OnOk result (string_bytes out.new ≡ string_bytes out.old ++
        spec.strips_text sheet.now scale upper sheet.now.columns.now) }
{
    let columns = sheet.columns;
    let mut y = upper;
    for column in 0..columns.len() {
        y = push_strip_of(sheet, out, shown, scale, y, columns[column])?;
    }
    Ok(y)
}

// Adds the strip of an actor, if it is a source of which cells leave or arrive, and returns where the next one stands.
fn push_strip_of(
    sheet: &Sheet<'_>,
    out: &mut String,
    shown: &[Told],
    scale: Scale,
    y: u64,
    actor: Actor,
) -> Result<u64, AllocError>
    requires { shown.now ≡ events_shown sheet.now }
    ensures text { OnOk result (string_bytes out.new ≡ string_bytes out.old ++
        spec.strip_of sheet.now scale y actor) }
    ensures next { IfOk result (λ next. next ≡ spec.next_of sheet.now y actor) }
{
    match actor {
        Actor::Source(conn) if is_busy(shown, conn) => {
            push_strip(sheet.alloc, out, shown, scale, y, conn)?;
            Ok(y.saturating_add(STRIP_STEP))
        }
        _ => Ok(y),
    }
}

// Whether a cell of a connection leaves or arrives.
fn is_busy(shown: &[Told], conn: u16) -> bool
    ensures { result ≡ spec.is_busy conn shown.now }
{
    for told in shown {
        if is_of(told, conn) {
            return true;
        }
    }
    false
}

fn is_of(told: &Told, conn: u16) -> bool
    ensures { result ≡ spec.is_of conn told.now.event told.now.outcome }
{
    match (told.event, told.outcome) {
        (Event::Emit { conn: own, .. }, Outcome::Emitted { .. }) => own == conn,
        (Event::Arrive { conn: own, .. }, Outcome::Arrived(_)) => own == conn,
        _ => false,
    }
}

// Adds the strip of a source: its name, the line of what leaves, that of what arrives, and its cells.
fn push_strip(
    alloc: Global,
    out: &mut String,
    shown: &[Told],
    scale: Scale,
    y: u64,
    conn: u16,
) -> Result<(), AllocError>
    ensures { OnOk result (string_bytes out.new ≡ string_bytes out.old ++ spec.strip_text scale y conn shown.now) }
{
    push_frame(alloc, out, y, conn)?;
    push_all(alloc, out, shown, scale, y, conn)
}

// Adds the name of a strip and its two lines.
fn push_frame(alloc: Global, out: &mut String, y: u64, conn: u16) -> Result<(), AllocError>
    ensures { OnOk result (string_bytes out.new ≡ string_bytes out.old ++ spec.frame_text y conn) }
{
    push_name(alloc, out, y, conn)?;
    push_across(alloc, out, y)?;
    push_across(alloc, out, y.saturating_add(DROP))
}

#[tactic(auto, unfolding(crate::specs::Cells::name_text))]
fn push_name(alloc: Global, out: &mut String, y: u64, conn: u16) -> Result<(), AllocError>
    ensures { OnOk result (string_bytes out.new ≡ string_bytes out.old ++ spec.name_text y conn) }
{
    let name = format!(in alloc; "cells {conn}")?;
    let at = Point {
        x: 60,
        y: y.saturating_add(230),
    };
    push_label(alloc, out, "band", at, name.as_str())
}

// Adds the cells of a connection.
fn push_all(
    alloc: Global,
    out: &mut String,
    shown: &[Told],
    scale: Scale,
    y: u64,
    conn: u16,
) -> Result<(), AllocError>
    ensures { OnOk result (string_bytes out.new ≡ string_bytes out.old ++
        spec.cells_of scale y conn shown.now shown.now) }
{
    for told in shown {
        push_cell(alloc, out, shown, scale, y, conn, told)?;
    }
    Ok(())
}

// Adds a line from the beginning of the axis to its end.
#[tactic(auto, unfolding(crate::specs::Cells::line_across))]
fn push_across(alloc: Global, out: &mut String, y: u64) -> Result<(), AllocError>
    ensures { OnOk result (string_bytes out.new ≡ string_bytes out.old ++ spec.line_across y) }
{
    let from = Point { x: AXIS_LEFT, y };
    let to = Point { x: AXIS_RIGHT, y };
    push_line(alloc, out, "ground", from, to)
}

// Adds what is drawn of an event for a connection.
fn push_cell(
    alloc: Global,
    out: &mut String,
    shown: &[Told],
    scale: Scale,
    y: u64,
    conn: u16,
    told: &Told,
) -> Result<(), AllocError>
    ensures { OnOk result (string_bytes out.new ≡ string_bytes out.old ++
        spec.cell_text scale y conn shown.now told.now) }
{
    push_left(alloc, out, scale, y, leaving(told, conn))?;
    push_way(alloc, out, scale, y, way_of(shown, conn, told))
}

// The moment at which an event let a cell of a connection leave.
fn leaving(told: &Told, conn: u16) -> Option<u64>
    ensures { result ≡ spec.leaving conn told.now.event told.now.outcome }
{
    match (told.event, told.outcome) {
        (Event::Emit { conn: own, now }, Outcome::Emitted { .. }) if own == conn => Some(now),
        _ => None,
    }
}

// Adds the stroke of a cell that left.
fn push_left(
    alloc: Global,
    out: &mut String,
    scale: Scale,
    y: u64,
    left: Option<u64>,
) -> Result<(), AllocError>
    ensures { OnOk result (string_bytes out.new ≡ string_bytes out.old ++ spec.left_text scale y left) }
{
    let Some(moment) = left else {
        return Ok(());
    };
    let x = x_at(scale, moment);
    let from = Point {
        x,
        y: y.saturating_sub(60),
    };
    push_line(alloc, out, "mark cell", from, Point { x, y })
}
