//! The bands of ports: stacks of what connections hold, under the capacity.
ghost use Rattle.std.specs.Prelude.{◌≡◌, ◌≢◌, ◌≤◌, ℕ, IsTrue, OnOk, Some, slice_get, string_bytes, sum, unwrap_or};
ghost use Rattle.abt_chart.specs.declared.frame.Frame.{Frame as FrameSpec};
ghost use Rattle.abt_draw.specs.Bands as spec;
ghost use Rattle.abt_draw.specs.Bands.{DrawsPort, HasBlock, HasLevel, HasStack};
ghost use Rattle.abt_draw.specs.Within.{Grows};

use crate::band::{Band, edge_of};
use crate::sheet::Sheet;
use crate::words::{short_rate, told_hold, told_rate};
use crate::{
    Block, Point, Size, blocks_of, height_of, push_label, push_line, push_rect, push_told_line,
    push_told_rect,
};
use abt_chart::Frame;
use std::alloc::AllocError;

// How wide a sign of a block's words is at most, in tenths of a unit.
const SIGN_WIDTH: u64 = 46;

// The rates that connections hold on a port, and its capacity.
fn stack_in(frame: &Frame, port: u16) -> &[u64]
    ensures { result.now ≡ spec.stack_in frame.now port }
{
    match frame.stacks.as_slice().get(usize::from(port)) {
        Some(stack) => stack.as_slice(),
        None => &[],
    }
}

fn capacity_in(frame: &Frame, port: u16) -> u64
    ensures { result ≡ spec.capacity_in frame.now port }
{
    match frame.capacities.as_slice().get(usize::from(port)) {
        Some(capacity) => *capacity,
        None => 0,
    }
}

/// The greatest capacity that a port has in a picture.
pub(crate) fn most_at(frames: &[Frame], port: u16) -> u64
    ensures { result ≡ spec.most_at frames.now port }
{
    match frames.split_first() {
        Some((frame, rest)) => capacity_in(frame, port).max(most_at(rest, port)),
        None => 0,
    }
}

fn is_same(one: &Frame, other: &Frame, port: u16) -> bool
    ensures { IsTrue result → (spec.stack_in one.now port ≡ spec.stack_in other.now port) ×
        (spec.capacity_in one.now port ≡ spec.capacity_in other.now port) }
{
    stack_in(one, port) == stack_in(other, port)
        && capacity_in(one, port) == capacity_in(other, port)
}

/// Adds the stacks of a port: a part for each time in which nothing of them changes.
pub(crate) fn push_stacks(
    sheet: &Sheet<'_>,
    out: &mut String,
    port: u16,
    band: Band,
) -> Result<(), AllocError>
    requires { band.most ≡ spec.most_at sheet.now.chart.now.frames port }
    ensures grows { OnOk result (Grows (string_bytes out.old) (string_bytes out.new)) }
    ensures drawn { OnOk result ((k : ℕ) (frame : FrameSpec) →
        slice_get sheet.now.chart.now.frames k ≡ Some frame →
        DrawsPort band.base band.most (spec.stack_in frame port) (spec.capacity_in frame port)
        (string_bytes out.new)) }
{
    let frames = sheet.chart.frames.as_slice();
    let mut first = 0;
    let mut line = None;
    for place in 0..frames.len() {
        let next = place + 1;
        if next < frames.len() && is_same(&frames[place], &frames[next], port) {
            continue;
        }
        let part = Part {
            from: edge_of(sheet, first),
            to: edge_of(sheet, next),
        };
        line = Some(push_part(sheet, out, &frames[place], port, band, part, line)?);
        first = next;
    }
    Ok(())
}

/// A part of the axis.
#[derive(Clone, Copy)]
pub(crate) struct Part {
    pub(crate) from: u64,
    pub(crate) to: u64,
}

/// A level of a line that goes in steps: its class, what it is of, its value, and how high the line was before, if it was there.
#[derive(Clone, Copy)]
pub(crate) struct Level<'a> {
    pub(crate) class: &'a str,
    pub(crate) what: &'a str,
    pub(crate) units: u64,
    pub(crate) before: Option<u64>,
}

// A stack and the line of the capacity, and how that comes from where it was; its height.
#[tactic(auto, using(crate::proofs::Within::growing))]
fn push_part(
    sheet: &Sheet<'_>,
    out: &mut String,
    frame: &Frame,
    port: u16,
    band: Band,
    part: Part,
    before: Option<u64>,
) -> Result<u64, AllocError>
    requires { spec.capacity_in frame.now port ≤ band.most }
    ensures grows { OnOk result (Grows (string_bytes out.old) (string_bytes out.new)) }
    ensures drawn { OnOk result (DrawsPort band.base band.most (spec.stack_in frame.now port)
        (spec.capacity_in frame.now port) (string_bytes out.new)) }
{
    let stack = stack_in(frame, port);
    push_stack(sheet, out, stack, band, part)?;
    let capacity = capacity_in(frame, port);
    let level = Level {
        class: "capacity",
        what: "capacity",
        units: capacity,
        before,
    };
    push_step(sheet, out, band, part, &level)?;
    Ok(height_of(capacity, band.most))
}

// The blocks of a stack.
fn push_stack(
    sheet: &Sheet<'_>,
    out: &mut String,
    stack: &[u64],
    band: Band,
    part: Part,
) -> Result<(), AllocError>
    ensures grows { OnOk result (Grows (string_bytes out.old) (string_bytes out.new)) }
    ensures drawn { OnOk result (sum stack.now ≤ band.most →
        HasStack band.base band.most stack.now (string_bytes out.new)) }
{
    let blocks = blocks_of(sheet.alloc, stack, band.most)?;
    for (conn, block) in blocks.as_slice().iter().enumerate() {
        push_block(sheet, out, conn, held_at(stack, conn), *block, band, part)?;
    }
    Ok(())
}

// The rate that a connection holds in a stack.
fn held_at(stack: &[u64], conn: usize) -> u64
    ensures { result ≡ unwrap_or (slice_get stack.now conn) 0 }
{
    stack.get(conn).copied().unwrap_or(0)
}

// The block of a connection, with what it holds, if there is room for that.
#[tactic(auto, using(crate::proofs::Within::growing))]
fn push_block(
    sheet: &Sheet<'_>,
    out: &mut String,
    conn: usize,
    held: u64,
    block: Block,
    band: Band,
    part: Part,
) -> Result<(), AllocError>
    ensures grows { OnOk result (Grows (string_bytes out.old) (string_bytes out.new)) }
    ensures drawn { OnOk result (held ≢ 0 → HasBlock band.base conn held block (string_bytes out.new)) }
{
    if held == 0 {
        return Ok(());
    }
    let at = Point {
        x: part.from,
        y: band.y(block.top),
    };
    let size = Size {
        width: part.to.saturating_sub(part.from),
        height: block.top.saturating_sub(block.bottom),
    };
    let alloc = sheet.alloc;
    let colour = conn % 6;
    let class = format!(in alloc; "hold h{colour}")?;
    let told = told_hold(alloc, conn, held)?;
    push_told_rect(alloc, out, class.as_str(), at, size, told.as_str())?;
    push_held(sheet, out, conn, held, at, size)
}

// What a connection holds, in its block and on a ground without a pattern, if there is room for that.
#[tactic(auto, using(crate::proofs::Within::growing))]
fn push_held(
    sheet: &Sheet<'_>,
    out: &mut String,
    conn: usize,
    held: u64,
    at: Point,
    size: Size,
) -> Result<(), AllocError>
    ensures { OnOk result (Grows (string_bytes out.old) (string_bytes out.new)) }
{
    let alloc = sheet.alloc;
    let rate = short_rate(alloc, held)?;
    let words = format!(in alloc; "c{conn}: {rate}")?;
    let width = (words.len() as u64).saturating_mul(SIGN_WIDTH);
    if size.height < 90 || size.width < width.saturating_add(40) {
        return Ok(());
    }
    let middle = at.y.saturating_add(size.height / 2);
    let corner = Point {
        x: at.x.saturating_add(20),
        y: middle.saturating_sub(42),
    };
    let ground = Size { width, height: 84 };
    push_rect(alloc, out, "paper", corner, ground)?;
    let at = Point {
        x: at.x.saturating_add(30),
        y: middle.saturating_add(30),
    };
    push_label(alloc, out, "note", at, words.as_str())
}

/// Adds a part of a line that goes in steps.
#[tactic(auto, using(crate::proofs::Within::growing))]
pub(crate) fn push_step(
    sheet: &Sheet<'_>,
    out: &mut String,
    band: Band,
    part: Part,
    level: &Level<'_>,
) -> Result<(), AllocError>
    requires { level.now.units ≤ band.most }
    ensures grows { OnOk result (Grows (string_bytes out.old) (string_bytes out.new)) }
    ensures drawn { OnOk result (HasLevel level.now.class.now level.now.what.now band.base band.most level.now.units
        (string_bytes out.new)) }
{
    let alloc = sheet.alloc;
    let height = height_of(level.units, band.most);
    push_rise(
        sheet,
        out,
        level.class,
        band,
        part.from,
        height,
        level.before,
    )?;
    let told = told_rate(alloc, level.what, level.units)?;
    let y = band.y(height);
    let (from, to) = (Point { x: part.from, y }, Point { x: part.to, y });
    push_told_line(alloc, out, level.class, from, to, told.as_str())
}

// How a line comes to a height from where it was before, if that is elsewhere.
#[tactic(auto, using(crate::proofs::Within::growing))]
fn push_rise(
    sheet: &Sheet<'_>,
    out: &mut String,
    class: &str,
    band: Band,
    x: u64,
    height: u64,
    before: Option<u64>,
) -> Result<(), AllocError>
    ensures { OnOk result (Grows (string_bytes out.old) (string_bytes out.new)) }
{
    match before {
        Some(before) if before != height => {
            let old = Point {
                x,
                y: band.y(before),
            };
            let new = Point {
                x,
                y: band.y(height),
            };
            push_line(sheet.alloc, out, class, old, new)
        }
        _ => Ok(()),
    }
}
