//! The ways of cells: from where each left to where it arrived.
ghost use Rattle.std.specs.Prelude.{◌≡◌, ◌++◌, OnOk, IfOk, string_bytes};
ghost use Rattle.abt_draw.specs.Cells as spec;

use crate::moment::{Scale, x_at};
use crate::{Point, push_told_line};
use abt_chart::Told;
use abt_gcra::Verdict;
use abt_world::{Event, Outcome};
use std::alloc::{AllocError, Global};

/// From the line of what leaves to that of what arrives, in tenths of a unit.
pub(crate) const DROP: u64 = 400;

// The way of a cell that arrived.
#[derive(Clone, Copy, Debug)]
pub(crate) struct Way {
    /// Its number.
    pub(crate) cell: u64,
    /// When it left, if it left in an event that is shown.
    pub(crate) left: Option<u64>,
    /// When it arrived.
    pub(crate) came: u64,
    /// Whether the policer found it conforming.
    pub(crate) is_conforming: bool,
}

/// The way of a cell of a connection that an event had arrive.
pub(crate) fn way_of(shown: &[Told], conn: u16, told: &Told) -> Option<Way>
    ensures { result ≡ spec.way_of conn shown.now told.now.event told.now.outcome }
{
    match (told.event, told.outcome) {
        (
            Event::Arrive {
                conn: own,
                cell,
                at,
            },
            Outcome::Arrived(verdict),
        ) if own == conn => {
            Some(Way {
                cell,
                left: left_in(shown, conn, cell),
                came: at,
                is_conforming: verdict == Verdict::Conforming,
            })
        }
        _ => None,
    }
}

// The moment at which a cell left, if it left in one of these events.
fn left_in(shown: &[Told], conn: u16, cell: u64) -> Option<u64>
    ensures { result ≡ spec.left_in conn cell shown.now }
{
    for told in shown {
        let left = left_at(told, conn, cell);
        if left.is_some() {
            return left;
        }
    }
    None
}

fn left_at(told: &Told, conn: u16, cell: u64) -> Option<u64>
    ensures { result ≡ spec.left_at conn cell told.now.event told.now.outcome }
{
    match (told.event, told.outcome) {
        (Event::Emit { conn: own, now }, Outcome::Emitted { cell: number, .. })
            if own == conn && number == cell => { Some(now) }
        _ => None,
    }
}

/// Adds the arrow of a cell that arrived.
pub(crate) fn push_way(
    alloc: Global,
    out: &mut String,
    scale: Scale,
    y: u64,
    way: Option<Way>,
) -> Result<(), AllocError>
    ensures { OnOk result (string_bytes out.new ≡ string_bytes out.old ++ spec.way_text scale y way) }
{
    let Some(way) = way else {
        return Ok(());
    };
    let from = Point {
        x: x_at(scale, way.left.unwrap_or(scale.first)),
        y,
    };
    let to = Point {
        x: x_at(scale, way.came),
        y: y.saturating_add(DROP),
    };
    let words = way_words(alloc, way)?;
    push_told_line(
        alloc,
        out,
        way_class(way.is_conforming),
        from,
        to,
        words.as_str(),
    )
}

// One that the policer found nonconforming is dashed.
fn way_class(is_conforming: bool) -> &'static str
    ensures { result.now ≡ spec.way_class is_conforming }
{
    if is_conforming { "way" } else { "way bad" }
}

// What is told of a cell.
fn way_words(alloc: Global, way: Way) -> Result<String, AllocError>
    ensures { IfOk result (λ words. string_bytes words ≡ spec.way_words way) }
{
    let (cell, came) = (way.cell, way.came);
    match way.left {
        Some(left) => format!(in alloc; "cell {cell} at {came}, emitted at {left}"),
        None => format!(in alloc; "cell {cell} at {came}"),
    }
}
