//! The bands below the chart of messages: over the axis of the events, what each port holds, and at which rate each source shapes.
ghost use Rattle.std.specs.Prelude.{◌≡◌, ◌-◌, OnOk, string_bytes};
ghost use Rattle.abt_draw.specs.Bands.{HasName};
ghost use Rattle.abt_draw.specs.Within.{Grows};

use crate::lifeline::name_of;
use crate::sheet::Sheet;
use crate::words::short_rate;
use crate::{Actor, BAND_HEIGHT, Point, push_label, push_line};
use std::alloc::{AllocError, Global};

// Where the axis begins, and what is left free behind its end, in tenths of a unit.
const AXIS_LEFT: u64 = 1000;

const AXIS_RIGHT: u64 = 200;

/// From the upper edge of a band to that of the next.
pub(crate) const BAND_STEP: u64 = 860;

/// A band: its port or source, its name, the greatest value that it shows, and the line at which it begins.
#[derive(Clone, Copy)]
pub(crate) struct Band {
    pub(crate) most: u64,
    pub(crate) base: u64,
}

impl Band {
    /// The height of a value above the line at which the band begins, as a place of the picture.
    pub(crate) fn y(self, height: u64) -> u64
        ensures { result ≡ self.base - height }
    {
        self.base.saturating_sub(height)
    }
}

/// The place on the axis behind so many of the shown events.
pub(crate) fn edge_of(sheet: &Sheet<'_>, frame: usize) -> u64 {
    let width = sheet
        .width()
        .saturating_sub(AXIS_LEFT)
        .saturating_sub(AXIS_RIGHT);
    let frames = (sheet.rows.levels.len() as u64).saturating_add(1);
    AXIS_LEFT.saturating_add(width.saturating_mul(frame as u64) / frames)
}

/// Adds the name of a band, its base and what it has room for.
#[tactic(auto, using(crate::proofs::Within::growing))]
pub(crate) fn push_ground(
    sheet: &Sheet<'_>,
    out: &mut String,
    actor: Actor,
    band: Band,
) -> Result<(), AllocError>
    ensures grows { OnOk result (Grows (string_bytes out.old) (string_bytes out.new)) }
    ensures name { OnOk result (HasName actor (string_bytes out.new)) }
{
    push_name(sheet.alloc, out, actor, band)?;
    push_scale(sheet, out, band)
}

// The name of a band's port or source, beside the band.
#[tactic(auto, using(crate::proofs::Within::growing))]
fn push_name(alloc: Global, out: &mut String, actor: Actor, band: Band) -> Result<(), AllocError>
    ensures grows { OnOk result (Grows (string_bytes out.old) (string_bytes out.new)) }
    ensures name { OnOk result (HasName actor (string_bytes out.new)) }
{
    let (kind, number) = name_of(actor);
    let words = format!(in alloc; "{kind} {number}")?;
    let x = 60;
    let y = band.y(BAND_HEIGHT / 2);
    push_label(alloc, out, "band", Point { x, y }, words.as_str())
}

// The line at which a band begins, and what it has room for.
#[tactic(auto, using(crate::proofs::Within::growing))]
fn push_scale(sheet: &Sheet<'_>, out: &mut String, band: Band) -> Result<(), AllocError>
    ensures { OnOk result (Grows (string_bytes out.old) (string_bytes out.new)) }
{
    let alloc = sheet.alloc;
    let rate = short_rate(alloc, band.most)?;
    let most = format!(in alloc; "{rate} cells/s")?;
    let x = AXIS_LEFT.saturating_sub(40);
    let y = band.y(BAND_HEIGHT).saturating_add(60);
    push_label(alloc, out, "scale", Point { x, y }, most.as_str())?;
    let y = band.base;
    push_label(alloc, out, "scale", Point { x, y }, "0")?;
    let from = Point { x: AXIS_LEFT, y };
    let to = Point {
        x: edge_of(sheet, sheet.rows.levels.len().saturating_add(1)),
        y,
    };
    push_line(alloc, out, "ground", from, to)
}
