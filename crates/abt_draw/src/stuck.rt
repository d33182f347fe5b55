//! The rows of the entries at which journals are stuck, below those of the events.
ghost use Rattle.std.specs.Prelude.{◌<◌, OnOk, string_bytes};
ghost use Rattle.abt_draw.specs.Stuck.{DrawsStuck, HasStuckRow, HasStuckRows};
ghost use Rattle.abt_draw.specs.Within.{Grows};

use crate::mark::{push_cross, x_beside};
use crate::sheet::{Sheet, line_of};
use crate::words::clipped;
use crate::{Actor, Point, Size, StuckMark, push_circle, push_group, push_label, push_rect};
use std::alloc::AllocError;

/// Adds a row for each entry at which a journal is stuck.
pub(crate) fn push_stuck(sheet: &Sheet<'_>, out: &mut String) -> Result<(), AllocError>
    ensures grows { OnOk result (Grows (string_bytes out.old) (string_bytes out.new)) }
    ensures rows { OnOk result (HasStuckRows sheet.now (string_bytes out.new)) }
{
    for (place, mark) in sheet.stuck.iter().enumerate() {
        push_row(sheet, out, place, mark)?;
    }
    Ok(())
}

// The row of such an entry, which is numbered from 1.
#[tactic(auto, using(crate::proofs::Within::growing))]
fn push_row(
    sheet: &Sheet<'_>,
    out: &mut String,
    place: usize,
    mark: &StuckMark<'_>,
) -> Result<(), AllocError>
    requires { place < usize.MAX }
    ensures grows { OnOk result (Grows (string_bytes out.old) (string_bytes out.new)) }
    ensures row { OnOk result (HasStuckRow sheet.now place mark.now (string_bytes out.new)) }
{
    let alloc = sheet.alloc;
    let number = place as u64 + 1;
    let mut content = String::new(alloc);
    push_words(sheet, &mut content, number, mark)?;
    push_shape(sheet, &mut content, number, mark)?;
    let name = format!(in alloc; "s{number}")?;
    push_group(
        alloc,
        out,
        "stuck",
        name.as_str(),
        mark.text,
        content.as_str(),
    )
}

// The mark of such an entry on the lifeline of whose journal it is, or, if that isn't shown, beside the lifelines.
fn push_shape(
    sheet: &Sheet<'_>,
    out: &mut String,
    number: u64,
    mark: &StuckMark<'_>,
) -> Result<(), AllocError>
    ensures { OnOk result (DrawsStuck sheet.now mark.now (string_bytes out.new)) }
{
    let at = Point {
        x: x_beside(sheet, Some(mark.actor)),
        y: sheet.stuck_y(number),
    };
    push_circle(sheet.alloc, out, "mark stuck", at, 70)?;
    push_cross(sheet, out, "stuck", at, 40)
}

// The name of the actor whose journal is stuck, and below that the entry, as far as there is room.
fn push_words(
    sheet: &Sheet<'_>,
    out: &mut String,
    number: u64,
    mark: &StuckMark<'_>,
) -> Result<(), AllocError> {
    let alloc = sheet.alloc;
    let y = sheet.stuck_y(number);
    let corner = Point {
        x: 0,
        y: y.saturating_sub(120),
    };
    let size = Size {
        width: sheet.width(),
        height: 240,
    };
    push_rect(alloc, out, "row", corner, size)?;
    let words = match mark.actor {
        Actor::Source(conn) => format!(in alloc; "stuck: source {conn}")?,
        Actor::Port(port) => format!(in alloc; "stuck: port {port}")?,
        Actor::End(conn) => format!(in alloc; "stuck: end {conn}")?,
    };
    let at = Point {
        x: 60,
        y: y.saturating_sub(15),
    };
    push_label(alloc, out, "told", at, words.as_str())?;
    let (entry, _) = line_of(mark.text);
    let entry = clipped(alloc, entry)?;
    let at = Point {
        x: 160,
        y: y.saturating_add(80),
    };
    push_label(alloc, out, "answer", at, entry.as_str())
}
