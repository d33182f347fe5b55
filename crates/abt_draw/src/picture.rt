//! Whole pictures.
ghost use Rattle.std.specs.Prelude.{◌≡◌, ◌+◌, ◌<◌, ℕ, IsTrue, Some, OnOk, slice_get, string_bytes};
ghost use Rattle.abt_chart.specs.declared.crossings.Crossing.{Crossing};
ghost use Rattle.abt_draw.specs.Bands.{HasBands, HasPortBand, HasPortBands, HasSourceBand, HasSourceBands};
ghost use Rattle.abt_draw.specs.Cells.{HasCells};
ghost use Rattle.abt_draw.specs.Legend.{HasLegend};
ghost use Rattle.abt_draw.specs.Levels as levels;
ghost use Rattle.abt_draw.specs.Lifelines.{HasLifelines};
ghost use Rattle.abt_draw.specs.Rows.{HasRow, HasRows};
ghost use Rattle.abt_draw.specs.Stuck.{HasStuckRows};
ghost use Rattle.abt_draw.specs.Within.{Grows};
ghost use Rattle.abt_draw.specs.declared.actor.Actor.TheVariants.{Port, Source};

use crate::band::{BAND_STEP, Band, edge_of, push_ground};
use crate::cells::push_cells;
use crate::legend::push_legend;
use crate::level::has_row;
use crate::lifeline::push_lifelines;
use crate::rates::{most_of, push_rates};
use crate::row::push_row;
use crate::sheet::{Sheet, line_of};
use crate::stack::{most_at, push_stacks};
use crate::stuck::push_stuck;
use crate::{Actor, BAND_HEIGHT, Point, push_label, push_line};
use abt_chart::Told;
use std::alloc::AllocError;

/// Adds all of a picture, and returns its lower edge. The explanation is that of the whole run.
pub(crate) fn push_picture(
    sheet: &Sheet<'_>,
    out: &mut String,
    explanation: &str,
) -> Result<u64, AllocError>
    ensures lifelines { OnOk result (HasLifelines sheet.now (string_bytes out.new)) }
    ensures rows { OnOk result (HasRows sheet.now explanation.now (string_bytes out.new)) }
    ensures stuck { OnOk result (HasStuckRows sheet.now (string_bytes out.new)) }
    ensures bands { OnOk result (HasBands sheet.now (string_bytes out.new)) }
    ensures cells { OnOk result (HasCells sheet.now (string_bytes out.new)) }
    ensures legend { OnOk result (HasLegend (string_bytes out.new)) }
{
    push_lifelines(sheet, out)?;
    push_rows(sheet, out, explanation)?;
    push_stuck(sheet, out)?;
    let bottom = push_bands(sheet, out)?;
    let lower = push_cells(sheet, out, bottom)?;
    push_legend(sheet, out, lower)
}

// The rows of the events that are shown, and above all their lines the words of their arrows.
fn push_rows(sheet: &Sheet<'_>, out: &mut String, explanation: &str) -> Result<(), AllocError>
    ensures grows { OnOk result (Grows (string_bytes out.old) (string_bytes out.new)) }
    ensures rows { OnOk result (HasRows sheet.now explanation.now (string_bytes out.new)) }
{
    let events = sheet.chart.told.as_slice();
    let mut notes = String::new(sheet.alloc);
    let mut rest = explanation;
    for (event, told) in events.iter().enumerate() {
        let (line, behind) = line_of(rest);
        push_shown(sheet, out, &mut notes, event, told, line)?;
        rest = behind;
    }
    out.push_str(notes.as_str())
}

// The row of an event, if it is shown and has one.
#[tactic(auto, using(crate::proofs::Within::growing))]
fn push_shown(
    sheet: &Sheet<'_>,
    out: &mut String,
    notes: &mut String,
    event: usize,
    told: &Told,
    line: &str,
) -> Result<(), AllocError>
    requires { event < usize.MAX }
    ensures grows { OnOk result (Grows (string_bytes out.old) (string_bytes out.new)) }
    ensures row { (k : ℕ) (crossing : Crossing) → sheet.now.rows.first + k ≡ event →
        slice_get sheet.now.chart.now.crossings k ≡ Some crossing →
        IsTrue (levels.has_row sheet.now.only.now sheet.now.net.now sheet.now.columns.now told.now.event) →
        OnOk result (HasRow sheet.now event told.now crossing line.now (string_bytes out.new)) }
{
    if event < sheet.rows.first || !has_row(sheet.only, sheet.net, sheet.columns, &told.event) {
        return Ok(());
    }
    let crossings = sheet.chart.crossings.as_slice();
    match crossings.get(event - sheet.rows.first) {
        Some(crossing) => push_row(sheet, out, notes, event, told, crossing, line),
        None => Ok(()),
    }
}

// The axis, over it the bands of the ports, then those of the sources; the lower edge of all.
fn push_bands(sheet: &Sheet<'_>, out: &mut String) -> Result<u64, AllocError>
    ensures grows { OnOk result (Grows (string_bytes out.old) (string_bytes out.new)) }
    ensures bands { OnOk result (HasBands sheet.now (string_bytes out.new)) }
{
    let lower = axis_of(sheet);
    push_axis(sheet, out, lower)?;
    let base = sheet.bottom().saturating_add(BAND_STEP);
    let base = push_ports(sheet, out, base)?;
    push_sources(sheet, out, base)?;
    Ok(lower.saturating_add(320))
}

/// Where the axis is: at the base of the last band. Ports and sources have a band.
pub(crate) fn axis_of(sheet: &Sheet<'_>) -> u64 {
    let mut lower = sheet.bottom();
    for actor in sheet.columns {
        match actor {
            Actor::Port(_) | Actor::Source(_) => lower = lower.saturating_add(BAND_STEP),
            Actor::End(_) => {}
        }
    }
    lower
}

// The bands of the ports, from this base on; the base behind them.
fn push_ports(sheet: &Sheet<'_>, out: &mut String, base: u64) -> Result<u64, AllocError>
    ensures grows { OnOk result (Grows (string_bytes out.old) (string_bytes out.new)) }
    ensures bands { OnOk result (HasPortBands sheet.now (string_bytes out.new)) }
{
    let columns = sheet.columns;
    let mut base = base;
    for (column, actor) in columns.iter().enumerate() {
        base = push_port(sheet, out, *actor, base)?;
    }
    Ok(base)
}

// The bands of the sources, from this base on; the base behind them.
fn push_sources(sheet: &Sheet<'_>, out: &mut String, base: u64) -> Result<u64, AllocError>
    ensures grows { OnOk result (Grows (string_bytes out.old) (string_bytes out.new)) }
    ensures bands { OnOk result (HasSourceBands sheet.now (string_bytes out.new)) }
{
    let columns = sheet.columns;
    let mut base = base;
    for (column, actor) in columns.iter().enumerate() {
        base = push_source(sheet, out, *actor, base)?;
    }
    Ok(base)
}

// The band of an actor, if it is a port; the base behind it.
#[tactic(auto, using(crate::proofs::Within::growing))]
fn push_port(
    sheet: &Sheet<'_>,
    out: &mut String,
    actor: Actor,
    base: u64,
) -> Result<u64, AllocError>
    ensures grows { OnOk result (Grows (string_bytes out.old) (string_bytes out.new)) }
    ensures band { (port : ℕ) → actor ≡ Port port →
        OnOk result (HasPortBand sheet.now port (string_bytes out.new)) }
{
    let Actor::Port(port) = actor else {
        return Ok(base);
    };
    let most = most_at(sheet.chart.frames.as_slice(), port);
    let band = Band { most, base };
    push_ground(sheet, out, actor, band)?;
    push_stacks(sheet, out, port, band)?;
    Ok(base.saturating_add(BAND_STEP))
}

// The band of an actor, if it is a source; the base of the next band.
#[tactic(auto, using(crate::proofs::Within::growing))]
fn push_source(
    sheet: &Sheet<'_>,
    out: &mut String,
    actor: Actor,
    base: u64,
) -> Result<u64, AllocError>
    ensures grows { OnOk result (Grows (string_bytes out.old) (string_bytes out.new)) }
    ensures band { (conn : ℕ) → actor ≡ Source conn →
        OnOk result (HasSourceBand sheet.now conn (string_bytes out.new)) }
{
    let Actor::Source(conn) = actor else {
        return Ok(base);
    };
    let most = most_of(sheet.chart.frames.as_slice(), conn);
    let band = Band { most, base };
    push_ground(sheet, out, actor, band)?;
    push_rates(sheet, out, conn, band)?;
    Ok(base.saturating_add(BAND_STEP))
}

// The numbers of the events along the axis, as many as have room.
#[tactic(auto, using(crate::proofs::Within::growing))]
fn push_axis(sheet: &Sheet<'_>, out: &mut String, lower: u64) -> Result<(), AllocError>
    ensures { OnOk result (Grows (string_bytes out.old) (string_bytes out.new)) }
{
    let alloc = sheet.alloc;
    let upper = sheet.bottom().saturating_add(BAND_STEP - BAND_HEIGHT);
    let mut free = 0;
    for place in 0..sheet.rows.levels.len() {
        let x = edge_of(sheet, place.saturating_add(1));
        if x < free {
            continue;
        }
        let number = (sheet.rows.first as u64)
            .saturating_add(place as u64)
            .saturating_add(1);
        let words = format!(in alloc; "{number}")?;
        let from = Point { x, y: upper };
        let to = Point {
            x,
            y: lower.saturating_add(40),
        };
        push_line(alloc, out, "grid", from, to)?;
        let at = Point {
            x,
            y: lower.saturating_add(140),
        };
        push_label(alloc, out, "tick", at, words.as_str())?;
        free = x
            .saturating_add((words.len() as u64).saturating_mul(50))
            .saturating_add(80);
    }
    Ok(())
}
