//! The axis of time of a picture's cells.
ghost use Rattle.std.specs.Prelude.{◌≡◌, ◌≤◌, None, fold};
ghost use Rattle.abt_draw.specs.Cells as spec;

use crate::actor::is_shown;
use abt_chart::Told;
use abt_world::{Event, Outcome};

/// Where an axis begins and ends, in tenths of a unit; the length between is that of every axis of time.
pub(crate) const AXIS_LEFT: u64 = 1000;

pub(crate) const AXIS_RIGHT: u64 = 5800;

// The first and the last moment of a picture's cells, in picoseconds.
#[derive(Clone, Copy, Debug)]
pub(crate) struct Scale {
    pub(crate) first: u64,
    pub(crate) last: u64,
}

/// The first and the last moment at which cells of connections that are shown leave or arrive.
pub(crate) fn scale_of(only: &[u16], shown: &[Told]) -> Option<Scale>
    ensures { result ≡ fold (spec.with_event only.now) None shown.now }
{
    let mut scale = None;
    for told in shown {
        scale = match moment_of(only, told) {
            Some(moment) => Some(widened(scale, moment)),
            None => scale,
        };
    }
    scale
}

// A scale that has room for a moment more.
fn widened(scale: Option<Scale>, moment: u64) -> Scale
    ensures { result ≡ spec.widened scale moment }
{
    match scale {
        Some(scale) => Scale {
            first: scale.first.min(moment),
            last: scale.last.max(moment),
        },
        None => Scale {
            first: moment,
            last: moment,
        },
    }
}

// The moment at which an event had a cell of a connection that is shown leave or arrive.
fn moment_of(only: &[u16], told: &Told) -> Option<u64>
    ensures { result ≡ spec.moment_of only.now told.now.event told.now.outcome }
{
    match (told.event, told.outcome) {
        (Event::Emit { conn, now }, Outcome::Emitted { .. }) if is_shown(only, conn) => Some(now),
        (Event::Arrive { conn, at, .. }, Outcome::Arrived(_)) if is_shown(only, conn) => Some(at),
        _ => None,
    }
}

/// Where a moment stands along the axis.
pub(crate) fn x_at(scale: Scale, moment: u64) -> u64
    ensures { result ≡ spec.x_at scale moment }
{
    let part = moment.min(scale.last).saturating_sub(scale.first);
    let span = scale.last.saturating_sub(scale.first);
    AXIS_LEFT + along_axis(part, span)
}

// How far along the axis a part of a span is.
fn along_axis(part: u64, span: u64) -> u64
    requires { part ≤ span }
    ensures value { result ≡ spec.along_axis part span }
    ensures within { result ≤ 4800 }
{
    if span == 0 {
        return 0;
    }
    let place = u128::from(part) * u128::from(AXIS_RIGHT - AXIS_LEFT) / u128::from(span);
    place as u64
}
