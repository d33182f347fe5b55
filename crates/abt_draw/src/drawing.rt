//! Scenarios from any reader, pictures as texts.
ghost use Rattle.std.specs.Prelude.{◌≡◌, ◌↔◌, ◌++◌, ◌+◌, ◌<◌, ◌≤◌, length, string_bytes, IfOk, IfErr, IfSome, IfNone, OnOk, IsErrOf};
ghost use Rattle.abt_text.specs.Streams.{ConsumesAtMost, text_max};
ghost use Rattle.abt_draw.specs.Columns.{columns_of as columns_shown};
ghost use Rattle.abt_draw.specs.Drawn.{IsSpan, IsUndrawn, IsUnplaced, IsUndrawnRange, IsShownRange, IsFoundFirst, AreKnown, IsUnknown};
ghost use Rattle.abt_draw.specs.Drawn as drawn;
ghost use Rattle.abt_draw.specs.Drawings.{IsDrawing, IsNoDrawing};
ghost use Rattle.abt_draw.specs.Levels.{AreRows};
ghost use Rattle.abt_draw.specs.Pictures.{IsPicture, IsSheetFile, IsInWords, events_in, stuck_lines};
ghost use Rattle.abt_draw.specs.declared.fault.DrawFault.{DrawFault as FaultSpec};

use crate::fault::DrawFault;
use crate::level::levels_of;
use crate::page::file_of;
use crate::sheet::{Sheet, left_most, left_of, step_of};
use crate::{Actor, Rows, Scene, Span, StuckMark, columns_of};
use abt_chart::{Chart, chart_of};
use abt_model::Event;
use abt_net::Net;
use abt_places::read_placed;
use abt_plans::PicturePlan;
use abt_reason::explanation_of;
use std::alloc::{AllocError, Global};
use std::io::Read;

/// How many events are drawn at once.
pub const EVENTS_MAX: usize = 2000;

// How many numbers the bands of a picture have at most.
const NUMBERS_MAX: usize = 1 << 26;

/// Draws the picture that a plan asks for, for the scenario that a reader has left.
///
/// # Errors
/// Why there is no scenario, or why it isn't drawn.
pub fn drawing_of<R: Read>(
    alloc: Global,
    plan: &PicturePlan,
    reader: &mut R,
) -> Result<String, DrawFault>
    ensures ok { IfOk result
        (λ text. IfSome (R.remaining reader.old) (IsDrawing plan.now (string_bytes text))) }
    ensures err { IfErr result (λ fault. IfSome (R.remaining reader.old) (IsNoDrawing plan.now fault)) }
    ensures stops { ConsumesAtMost (R.remaining reader.old) (R.remaining reader.new) (text_max + 1) }
{
    let placed = read_placed(alloc, reader)?;
    let scenario = &placed.scenario;
    let scene = Scene {
        net: &scenario.net,
        events: scenario.events.as_slice(),
        lines: placed.lines.as_slice(),
        stuck: &[],
    };
    picture_of(alloc, plan, &scene)
}

/// The text of the picture that a plan asks for, of events over a net to which nothing happened before, and of the entries at which journals
/// are stuck behind them.
///
/// # Errors
/// A connection or events that are named and aren't there, too much for one picture, or want of memory.
pub fn picture_of(alloc: Global, plan: &PicturePlan, scene: &Scene<'_>) -> Result<String, DrawFault>
    ensures ok { IfOk result (λ text. IsPicture plan.now scene.now (string_bytes text)) }
    ensures err { IfErr result (IsUndrawn plan.now scene.now.net.now scene.now.events.now) }
    ensures faults { (fault : FaultSpec) → IsFoundFirst fault →
        IsErrOf result fault ↔ IsUndrawn plan.now scene.now.net.now scene.now.events.now fault }
{
    let span = span_of(plan, scene.net, scene.events.len())?;
    drawn_in(alloc, plan, scene, span)
}

// The span that a plan asks for, of so many events over a net, if there is room for its bands.
fn span_of(plan: &PicturePlan, net: &Net, events: usize) -> Result<Span, DrawFault>
    ensures ok { IfOk result (IsSpan plan.now net.now events) }
    ensures err { IfErr result (IsUnplaced plan.now net.now events) }
{
    if let Some(conn) = unknown_in(plan.only.as_slice(), net.conns().len()) {
        return Err(DrawFault::Only(conn));
    }
    let (first, last) = range_of(plan, events)?;
    if numbers_of(net, last - first) > NUMBERS_MAX {
        return Err(DrawFault::Numbers);
    }
    Ok(Span {
        first,
        count: (last - first) as u32,
    })
}

// The text of the picture of a span of the events.
fn drawn_in(
    alloc: Global,
    plan: &PicturePlan,
    scene: &Scene<'_>,
    span: Span,
) -> Result<String, DrawFault>
    requires { IsSpan plan.now scene.now.net.now (length scene.now.events.now) span }
    ensures ok { IfOk result (λ text. IsPicture plan.now scene.now (string_bytes text)) }
    ensures err { IfErr result (IsUndrawn plan.now scene.now.net.now scene.now.events.now) }
{
    let (before, rest) = scene.events.split_at(span.first);
    let (shown, after) = rest.split_at(span.count as usize);
    let chart = chart_of(alloc, scene.net, before, shown, after)?;
    let words = words_of(alloc, scene)?;
    match text_of(alloc, plan, scene, &chart, span, shown, words.as_str())? {
        Some(text) => Ok(text),
        None => Err(DrawFault::Columns),
    }
}

// A picture in words: each event with its reason, and behind them the entries at which journals are stuck.
fn words_of(alloc: Global, scene: &Scene<'_>) -> Result<String, AllocError>
    ensures { IfOk result (λ words. IsInWords scene.now (string_bytes words)) }
{
    let mut words = explanation_of(alloc, scene.net, scene.events, scene.lines)?;
    push_stuck_lines(&mut words, scene.stuck)?;
    Ok(words)
}

// Adds what is told of the entries at which journals are stuck.
fn push_stuck_lines(words: &mut String, stuck: &[StuckMark<'_>]) -> Result<(), AllocError>
    ensures { OnOk result (string_bytes words.new ≡ string_bytes words.old ++ stuck_lines stuck.now) }
{
    for mark in stuck {
        words.push_str("stuck: ")?;
        words.push_str(mark.text)?;
        words.push_str("\n")?;
    }
    Ok(())
}

// The first connection that is named and isn't one of so many.
fn unknown_in(only: &[u16], conns: usize) -> Option<u16>
    ensures some { IfSome result (IsUnknown only.now conns) }
    ensures none { IfNone result (AreKnown only.now conns) }
{
    for place in 0..only.len() {
        if usize::from(only[place]) >= conns {
            return Some(only[place]);
        }
    }
    None
}

// The text of a picture of a span of the events, which are these; None if there are too many columns.
fn text_of(
    alloc: Global,
    plan: &PicturePlan,
    scene: &Scene<'_>,
    chart: &Chart,
    span: Span,
    shown: &[Event],
    explanation: &str,
) -> Result<Option<String>, AllocError>
    requires few { length shown.now ≤ 2000 }
    requires shown { shown.now ≡ events_in span scene.now.events.now }
    ensures some { IfOk result (λ found. IfSome found
        (λ text. IsSheetFile plan.now scene.now chart.now span explanation.now (string_bytes text))) }
    ensures few { IfOk result (λ found. IfSome found
        (λ _. length (columns_shown scene.now.net.now plan.now.only.items) ≤ 1024)) }
    ensures none { IfOk result (λ found. IfNone found
        (1024 < length (columns_shown scene.now.net.now plan.now.only.items))) }
{
    let only = plan.only.as_slice();
    let Some(columns) = columns_of(alloc, scene.net, only)? else {
        return Ok(None);
    };
    let columns = columns.as_slice();
    let (levels, count) = levels_of(alloc, only, scene.net, columns, shown)?;
    let rows = Rows {
        first: span.first,
        count,
        levels: levels.as_slice(),
    };
    let text = sheet_text(alloc, plan, scene, chart, columns, rows, span, explanation)?;
    Ok(Some(text))
}

// The text of a picture of a span of the events, whose columns and rows these are.
fn sheet_text<'a>(
    alloc: Global,
    plan: &'a PicturePlan,
    scene: &'a Scene<'a>,
    chart: &'a Chart,
    columns: &'a [Actor],
    rows: Rows<'a>,
    span: Span,
    explanation: &str,
) -> Result<String, AllocError>
    requires few { (length columns.now ≤ 1024) × (rows.count ≤ 2000) }
    requires columns { columns.now ≡ columns_shown scene.now.net.now plan.now.only.items }
    requires rows { AreRows plan.now.only.items scene.now.net.now columns.now span.first
        (events_in span scene.now.events.now) rows }
    ensures { IfOk result
        (λ text. IsSheetFile plan.now scene.now chart.now span explanation.now (string_bytes text)) }
{
    let step = step_of(columns.len());
    let left = if scene.stuck.is_empty() {
        left_of(alloc, chart, span, step, explanation)?
    } else {
        left_most(step)
    };
    let sheet = Sheet {
        alloc,
        net: scene.net,
        chart,
        columns,
        rows,
        only: plan.only.as_slice(),
        stuck: scene.stuck,
        left,
        step,
    };
    file_of(&sheet, plan.form, explanation)
}

// The first event that is shown, counted from 0, and the one behind the last.
fn range_of(plan: &PicturePlan, events: usize) -> Result<(usize, usize), DrawFault>
    ensures ok { IfOk result (λ range. IsShownRange plan.now events range.0 range.1) }
    ensures err { IfErr result (IsUndrawnRange plan.now events) }
{
    let count = events as u64;
    let from = plan.from.unwrap_or(1);
    let to = plan.to.unwrap_or(count);
    let is_named = plan.from.is_some() || plan.to.is_some();
    if from == 0 || to > count || (is_named && from > to) {
        return Err(DrawFault::Range(count));
    }
    let first = from as usize - 1;
    let last = to as usize;
    if last - first > EVENTS_MAX {
        return Err(DrawFault::Events(last as u64 - first as u64));
    }
    Ok((first, last))
}

// The count of numbers in the bands of so many events.
fn numbers_of(net: &Net, events: usize) -> usize
    requires { events ≤ 2000 }
    ensures { result ≡ drawn.numbers_of net.now events }
{
    let (ports, conns) = (net.capacities().len(), net.conns().len());
    (events + 1) * (ports * conns + ports + conns)
}
