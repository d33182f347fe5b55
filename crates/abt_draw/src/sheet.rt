//! The sheets of pictures.
ghost use Rattle.std.specs.Prelude.{◌≡◌, ◌≤◌, length};
ghost use Rattle.abt_draw.specs.Lines.{first_line, behind_line};

use crate::words::answer_in;
use crate::{Actor, Point, Rows, Span, Spot, StuckMark, x_of, y_of};
use abt_chart::Chart;
use abt_format::push_event;
use abt_net::Net;
use std::alloc::{AllocError, Global};

// How far the columns are apart, in tenths of a unit, if there are few, some and many.
const STEP_WIDE: u32 = 1100;

const STEP_MIDDLE: u32 = 720;

const STEP_NARROW: u32 = 460;

// How many signs of a row's words have room, and how wide a sign is.
const SIGNS_MAX: usize = 66;

const SIGN_WIDTH: u32 = 42;

// From the row of a stuck entry to the next, in tenths of a unit.
const ROW_HEIGHT: u64 = 260;

// How wide a picture is at least.
const WIDTH_MIN: u64 = 6000;

/// A scene, and the places of its columns and rows.
#[derive(Clone, Copy)]
pub(crate) struct Sheet<'a> {
    pub(crate) alloc: Global,
    pub(crate) net: &'a Net,
    pub(crate) chart: &'a Chart,
    pub(crate) columns: &'a [Actor],
    pub(crate) rows: Rows<'a>,
    /// The connections that are shown; all, if none is named.
    pub(crate) only: &'a [u16],
    /// The entries at which journals are stuck, each with a row below those of the events.
    pub(crate) stuck: &'a [StuckMark<'a>],
    /// The middle of the first column.
    pub(crate) left: u32,
    /// From one column to the next.
    pub(crate) step: u32,
    ghost columns_few: { length columns.now ≤ 1024 },
    ghost rows_few: { rows.count ≤ 2000 },
}

/// The distance between two of so many columns.
pub(crate) fn step_of(columns: usize) -> u32
    ensures { 460 ≤ result }
{
    if columns <= 6 {
        STEP_WIDE
    } else if columns <= 12 {
        STEP_MIDDLE
    } else {
        STEP_NARROW
    }
}

impl Sheet<'_> {
    ghost use Rattle.std.specs.Prelude.{◌≡◌, ◌≤◌, ◌+◌, ◌-◌, ◌/◌};
    ghost use Rattle.abt_draw.specs.Places as places;
    ghost use Rattle.abt_draw.specs.Rows.{point_of};

    /// The point of a column and a level.
    pub(crate) fn point(&self, spot: Spot) -> Point
        ensures { result ≡ point_of self.now spot }
    {
        Point {
            x: self.x(spot.column),
            y: y_of(spot.level),
        }
    }

    /// The middle of a column.
    pub(crate) fn x(&self, column: u32) -> u64
        ensures { result ≡ places.x_of self.now.left self.now.step column }
    {
        x_of(self.left, self.step, column)
    }

    /// A place beside the lifelines, between them and the words of the rows.
    pub(crate) fn beside(&self) -> u64
        ensures { result ≡ self.now.left - self.now.step / 2 - 20 }
    {
        u64::from(self.left.saturating_sub(self.step / 2).saturating_sub(20))
    }

    /// The right edge of the picture. Behind the last column there is room for words.
    pub(crate) fn width(&self) -> u64 {
        let columns = self.columns.len() as u32;
        let more = STEP_WIDE.saturating_sub(self.step);
        self.x(columns)
            .saturating_add(u64::from(more))
            .max(WIDTH_MIN)
    }

    /// The lower edge of the rows of events.
    fn edge(&self) -> u64
        ensures { result ≡ places.y_of (self.now.rows.count + 1) }
    {
        y_of(self.rows.count.saturating_add(1))
    }

    /// The middle of the row of a stuck entry, which counts from 1.
    pub(crate) fn stuck_y(&self, number: u64) -> u64
        ensures { places.y_of self.now.rows.count ≤ result }
    {
        self.edge()
            .saturating_add(ROW_HEIGHT.saturating_mul(number))
    }

    /// The lower edge of the chart of messages.
    pub(crate) fn bottom(&self) -> u64
        ensures { places.y_of self.now.rows.count ≤ result }
    {
        match self.stuck.len() {
            0 => self.edge(),
            count => self.stuck_y((count as u64).saturating_add(1)),
        }
    }
}

/// Where the middle of the first column is: behind the words of the rows.
pub(crate) fn left_of(
    alloc: Global,
    chart: &Chart,
    span: Span,
    step: u32,
    explanation: &str,
) -> Result<u32, AllocError> {
    let mut signs: usize = 16;
    for (event, told) in chart.told.as_slice().iter().enumerate() {
        if event < span.first || event - span.first >= span.count as usize {
            continue;
        }
        let mut words = String::new(alloc);
        push_event(&mut words, &told.event)?;
        signs = signs.max(words.len().saturating_add(6));
    }
    let mut rest = explanation;
    for event in 0..chart.told.len() {
        let (line, behind) = line_of(rest);
        rest = behind;
        if event >= span.first && event - span.first < span.count as usize {
            signs = signs.max(answer_in(line).len());
        }
    }
    Ok(left_behind(signs, step))
}

/// Where the middle of the first column is if the words of the rows take all the room that there is.
pub(crate) fn left_most(step: u32) -> u32 {
    left_behind(SIGNS_MAX, step)
}

// Where the middle of the first column is behind words of so many signs.
fn left_behind(signs: usize, step: u32) -> u32 {
    let signs = signs.min(SIGNS_MAX) as u32;
    signs * SIGN_WIDTH + step / 2 + 100
}

/// The first line of a text, and what stands behind it.
pub(crate) fn line_of(text: &str) -> (&str, &str)
    ensures line { result.0.now ≡ first_line text.now }
    ensures behind { result.1.now ≡ behind_line text.now }
{
    match text.split_once('\n') {
        Some(cut) => cut,
        None => (text, ""),
    }
}
