//! The legend of a picture, below its bands.
ghost use Rattle.std.specs.Prelude.{◌≡◌, OnOk, string_bytes};
ghost use Rattle.abt_draw.specs.Legend as spec;
ghost use Rattle.abt_draw.specs.Legend.{HasKey, HasLegend, HasStuckKey, HasWords};
ghost use Rattle.abt_draw.specs.Within.{Grows};
ghost use Rattle.abt_draw.specs.declared.mark.Mark.{Mark as MarkSpec};

use crate::mark::{Mark, push_cross, push_shape};
use crate::sheet::Sheet;
use crate::{Point, Size, push_circle, push_label, push_line, push_rect};
use std::alloc::AllocError;

// From one column or row of the legend to the next, in tenths of a unit, and how high it is.
const COLUMN: u64 = 1450;

const ROW: u64 = 130;

const HEIGHT: u64 = 1050;

/// Adds the legend, and returns its lower edge.
#[tactic(auto, using(crate::proofs::Within::growing))]
pub(crate) fn push_legend(
    sheet: &Sheet<'_>,
    out: &mut String,
    upper: u64,
) -> Result<u64, AllocError>
    ensures grows { OnOk result (Grows (string_bytes out.old) (string_bytes out.new)) }
    ensures legend { OnOk result (HasLegend (string_bytes out.new)) }
{
    push_messages(sheet, out, upper)?;
    push_bands(sheet, out, upper)?;
    push_marks(sheet, out, upper)?;
    push_stuck_key(sheet, out, place(upper, 2, 3))?;
    push_words(sheet, out, place(upper, 0, 6), rates())?;
    push_words(sheet, out, place(upper, 0, 7), times())?;
    Ok(upper.saturating_add(HEIGHT))
}

// The units of the rates of a picture, and of its times.
fn rates() -> &'static str
    ensures { result.now ≡ spec.rates_are }
{
    "c0 r1 is request 1 of connection 0. Rates are in cells/s; a + stands for a fraction. Behind refuses and capacity they are in 1/512 cell/s."
}

fn times() -> &'static str
    ensures { result.now ≡ spec.times_are }
{
    "Times are in picoseconds, unless an s for seconds stands behind them."
}

// A place of the legend.
fn place(upper: u64, column: u64, row: u64) -> Point {
    Point {
        x: COLUMN.saturating_mul(column).saturating_add(60),
        y: ROW.saturating_mul(row).saturating_add(upper),
    }
}

// A place so far to the right of another one, and so far below it.
fn beside(at: Point, right: u64, below: u64) -> Point {
    Point {
        x: at.x.saturating_add(right),
        y: at.y.saturating_add(below),
    }
}

// What a mark means.
fn meaning_of(mark: Mark) -> &'static str
    ensures { result.now ≡ spec.meaning_of mark }
{
    match mark {
        Mark::Start => "a source starts",
        Mark::Crash => "a source crashes",
        Mark::Ask => "a request is sent",
        Mark::Cell => "a cell leaves or comes",
        Mark::Set => "a capacity is set",
        Mark::Refused => "refused or dropped",
        Mark::Idle => "couldn't happen",
    }
}

// Words of the legend.
#[tactic(auto, using(crate::proofs::Within::growing))]
fn push_words(sheet: &Sheet<'_>, out: &mut String, at: Point, words: &str) -> Result<(), AllocError>
    ensures grows { OnOk result (Grows (string_bytes out.old) (string_bytes out.new)) }
    ensures words { OnOk result (HasWords words.now (string_bytes out.new)) }
{
    push_label(sheet.alloc, out, "key", at, words)
}

// The keys of the marks.
#[tactic(auto, using(crate::proofs::Within::growing))]
fn push_marks(sheet: &Sheet<'_>, out: &mut String, upper: u64) -> Result<(), AllocError>
    ensures grows { OnOk result (Grows (string_bytes out.old) (string_bytes out.new)) }
    ensures keys { OnOk result ((mark : MarkSpec) → HasKey mark (string_bytes out.new)) }
{
    push_mark(sheet, out, place(upper, 1, 0), Mark::Start)?;
    push_mark(sheet, out, place(upper, 1, 1), Mark::Crash)?;
    push_mark(sheet, out, place(upper, 1, 2), Mark::Ask)?;
    push_mark(sheet, out, place(upper, 1, 3), Mark::Cell)?;
    push_mark(sheet, out, place(upper, 1, 4), Mark::Set)?;
    push_mark(sheet, out, place(upper, 2, 0), Mark::Refused)?;
    push_mark(sheet, out, place(upper, 2, 1), Mark::Idle)
}

// The key of a mark.
#[tactic(auto, using(crate::proofs::Within::growing))]
fn push_mark(sheet: &Sheet<'_>, out: &mut String, at: Point, mark: Mark) -> Result<(), AllocError>
    ensures grows { OnOk result (Grows (string_bytes out.old) (string_bytes out.new)) }
    ensures key { OnOk result (HasKey mark (string_bytes out.new)) }
{
    push_shape(sheet, out, mark, beside(at, 110, 0))?;
    push_words(sheet, out, beside(at, 300, 30), meaning_of(mark))
}

// The key of an entry at which a journal is stuck.
#[tactic(auto, using(crate::proofs::Within::growing))]
fn push_stuck_key(sheet: &Sheet<'_>, out: &mut String, place: Point) -> Result<(), AllocError>
    ensures grows { OnOk result (Grows (string_bytes out.old) (string_bytes out.new)) }
    ensures key { OnOk result (HasStuckKey (string_bytes out.new)) }
{
    let at = beside(place, 110, 0);
    push_circle(sheet.alloc, out, "mark stuck", at, 70)?;
    push_cross(sheet, out, "stuck", at, 40)?;
    push_words(sheet, out, beside(place, 300, 30), stuck())
}

// What that mark means.
fn stuck() -> &'static str
    ensures { result.now ≡ spec.stuck_is }
{
    "a journal is stuck"
}

// The keys of the lines of messages.
#[tactic(auto, using(crate::proofs::Within::growing))]
fn push_messages(sheet: &Sheet<'_>, out: &mut String, upper: u64) -> Result<(), AllocError>
    ensures { OnOk result (Grows (string_bytes out.old) (string_bytes out.new)) }
{
    push_stroke(sheet, out, place(upper, 0, 0), "arrow request", "request")?;
    push_stroke(sheet, out, place(upper, 0, 1), "arrow yes", "yes")?;
    push_stroke(sheet, out, place(upper, 0, 2), "arrow no", "no")?;
    let old = place(upper, 0, 3);
    push_stroke(sheet, out, old, "arrow request old", "came again or late")?;
    let lost = place(upper, 0, 4);
    push_stroke(sheet, out, lost, "stump request", "never came")?;
    push_cross(sheet, out, "lost", beside(lost, 220, 0), 35)
}

// The keys of what stands on lifelines and in bands.
#[tactic(auto, using(crate::proofs::Within::growing))]
fn push_bands(sheet: &Sheet<'_>, out: &mut String, upper: u64) -> Result<(), AllocError>
    ensures { OnOk result (Grows (string_bytes out.old) (string_bytes out.new)) }
{
    push_stroke(sheet, out, place(upper, 2, 2), "up", "the source is up")?;
    let block = place(upper, 3, 0);
    let corner = Point {
        x: block.x,
        y: block.y.saturating_sub(45),
    };
    let size = Size {
        width: 220,
        height: 90,
    };
    push_rect(sheet.alloc, out, "hold h0", corner, size)?;
    let words = "held by a connection";
    push_words(sheet, out, beside(block, 300, 30), words)?;
    push_stroke(
        sheet,
        out,
        place(upper, 3, 1),
        "capacity",
        "capacity of the port",
    )?;
    push_stroke(sheet, out, place(upper, 3, 2), "rate", "rate of the source")?;
    push_stroke(
        sheet,
        out,
        place(upper, 3, 3),
        "least",
        "least held along its path",
    )
}

// The key of a line.
#[tactic(auto, using(crate::proofs::Within::growing))]
fn push_stroke(
    sheet: &Sheet<'_>,
    out: &mut String,
    at: Point,
    class: &str,
    words: &str,
) -> Result<(), AllocError>
    ensures { OnOk result (Grows (string_bytes out.old) (string_bytes out.new)) }
{
    push_line(sheet.alloc, out, class, at, beside(at, 220, 0))?;
    push_words(sheet, out, beside(at, 300, 30), words)
}
