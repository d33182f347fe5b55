//! The bands of sources: the rate at which each shapes, under the least that its path holds for it.
ghost use Rattle.std.specs.Prelude.{◌≡◌, ◌≤◌, ℕ, OnOk, Some, slice_get, string_bytes};
ghost use Rattle.abt_chart.specs.declared.frame.Frame.{Frame as FrameSpec};
ghost use Rattle.abt_draw.specs.Bands as spec;
ghost use Rattle.abt_draw.specs.Bands.{DrawsSource};
ghost use Rattle.abt_draw.specs.Within.{Grows};

use crate::band::{Band, edge_of};
use crate::height_of;
use crate::sheet::Sheet;
use crate::stack::{Level, Part, push_step};
use abt_chart::Frame;
use std::alloc::AllocError;

// The rate of a source, and the least that is held for it.
fn rate_in(frame: &Frame, conn: u16) -> (u64, u64)
    ensures { (result.0 ≡ spec.rate_in frame.now conn) × (result.1 ≡ spec.least_in frame.now conn) }
{
    let place = usize::from(conn);
    let rate = frame.rates.as_slice().get(place).copied();
    let least = frame.leasts.as_slice().get(place).copied();
    (rate.unwrap_or(0), least.unwrap_or(0))
}

/// The greatest of these in a picture.
pub(crate) fn most_of(frames: &[Frame], conn: u16) -> u64
    ensures { result ≡ spec.most_of frames.now conn }
{
    match frames.split_first() {
        Some((frame, rest)) => {
            let (rate, least) = rate_in(frame, conn);
            rate.max(least).max(most_of(rest, conn))
        }
        None => 0,
    }
}

/// Adds the lines of a source: a part for each time in which neither changes.
pub(crate) fn push_rates(
    sheet: &Sheet<'_>,
    out: &mut String,
    conn: u16,
    band: Band,
) -> Result<(), AllocError>
    requires { band.most ≡ spec.most_of sheet.now.chart.now.frames conn }
    ensures grows { OnOk result (Grows (string_bytes out.old) (string_bytes out.new)) }
    ensures drawn { OnOk result ((k : ℕ) (frame : FrameSpec) →
        slice_get sheet.now.chart.now.frames k ≡ Some frame →
        DrawsSource band.base band.most (spec.rate_in frame conn) (spec.least_in frame conn)
        (string_bytes out.new)) }
{
    let frames = sheet.chart.frames.as_slice();
    let mut first = 0;
    let mut before = None;
    for place in 0..frames.len() {
        let next = place + 1;
        let rates = rate_in(&frames[place], conn);
        if next < frames.len() && rate_in(&frames[next], conn) == rates {
            continue;
        }
        let part = Part {
            from: edge_of(sheet, first),
            to: edge_of(sheet, next),
        };
        before = Some(push_pair(sheet, out, band, part, rates, before)?);
        first = next;
    }
    Ok(())
}

// A part of both lines, and how they come from where they were; their heights.
#[tactic(auto, using(crate::proofs::Within::growing))]
fn push_pair(
    sheet: &Sheet<'_>,
    out: &mut String,
    band: Band,
    part: Part,
    rates: (u64, u64),
    before: Option<(u64, u64)>,
) -> Result<(u64, u64), AllocError>
    requires { (rates.0 ≤ band.most) × (rates.1 ≤ band.most) }
    ensures grows { OnOk result (Grows (string_bytes out.old) (string_bytes out.new)) }
    ensures drawn { OnOk result (DrawsSource band.base band.most rates.0 rates.1 (string_bytes out.new)) }
{
    let (old_rate, old_least) = match before {
        Some((rate, least)) => (Some(rate), Some(least)),
        None => (None, None),
    };
    let least = Level {
        class: "least",
        what: "held along the path: at least",
        units: rates.1,
        before: old_least,
    };
    push_step(sheet, out, band, part, &least)?;
    let rate = Level {
        class: "rate",
        what: "shapes at",
        units: rates.0,
        before: old_rate,
    };
    push_step(sheet, out, band, part, &rate)?;
    Ok((height_of(rates.0, band.most), height_of(rates.1, band.most)))
}
