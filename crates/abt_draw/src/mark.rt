//! The marks of events on the lifelines.
ghost use Rattle.std.specs.Prelude.{◌≡◌, ◌++◌, IfSome, OnOk, string_bytes};
ghost use Rattle.abt_draw.specs.Marks as spec;
ghost use Rattle.abt_draw.specs.Rows.{DrawsMark, IsBeside};
ghost use Rattle.abt_draw.specs.Within.{Grows};

use crate::arrow::standing;
use crate::sheet::Sheet;
use crate::{Actor, Point, Size, actor_at, level_of, push_circle, push_line, push_rect, y_of};
use abt_chart::{Stop, Told};
use abt_gcra::Verdict;
use abt_net::Net;
use abt_node::{Back, Onward};
use abt_world::{Event, Heard, Outcome};
use std::alloc::AllocError;

// What an event looks like on its lifeline.
#[derive(Clone, Copy, PartialEq, Eq)]
pub(crate) enum Mark {
    Start,
    Crash,
    Ask,
    Cell,
    Set,
    Refused,
    Idle,
}

/// The mark of an event's outcome, if it has one.
pub(crate) fn mark_of(outcome: &Outcome) -> Option<Mark>
    ensures { result ≡ spec.mark_of outcome.now }
{
    match *outcome {
        Outcome::Started => Some(Mark::Start),
        Outcome::Crashed => Some(Mark::Crash),
        Outcome::Asked(_) | Outcome::Repeated(_) => Some(Mark::Ask),
        Outcome::Emitted { .. } | Outcome::Arrived(Verdict::Conforming) => Some(Mark::Cell),
        Outcome::CapacitySet => Some(Mark::Set),
        Outcome::NotEnabled(_) => Some(Mark::Idle),
        Outcome::StartRefused(_)
        | Outcome::AskRefused(_)
        | Outcome::EmitRefused(_)
        | Outcome::CapacityRefused(_)
        | Outcome::Arrived(_)
        | Outcome::Requested(Onward::Refuse(_))
        | Outcome::Requested(Onward::Drop(_))
        | Outcome::Answered(Back::Drop(_))
        | Outcome::Told(Heard::Ignored) => Some(Mark::Refused),
        Outcome::Requested(Onward::Pass)
        | Outcome::Answered(Back::Pass)
        | Outcome::Turned
        | Outcome::Told(_) => None,
    }
}

/// The class of a mark.
pub(crate) fn class_of(mark: Mark) -> &'static str
    ensures { result.now ≡ spec.class_of mark }
{
    match mark {
        Mark::Start => "mark start",
        Mark::Crash => "mark crash",
        Mark::Ask => "mark ask",
        Mark::Cell => "mark cell",
        Mark::Set => "mark set",
        Mark::Refused => "mark refused",
        Mark::Idle => "mark idle",
    }
}

/// The actor on whose lifeline an event happens.
pub(crate) fn actor_of(net: &Net, event: &Event) -> Option<Actor>
    ensures { result ≡ spec.actor_of net.now event.now }
{
    match *event {
        Event::Start { conn, .. }
        | Event::Ask { conn, .. }
        | Event::Again { conn }
        | Event::Crash { conn }
        | Event::Emit { conn, .. }
        | Event::Told { conn, .. } => Some(Actor::Source(conn)),
        Event::Arrive { conn, .. } => actor_at(net, conn, Stop::Hop(1)),
        Event::Request { conn, hop, .. } | Event::Answer { conn, hop, .. } => {
            actor_at(net, conn, Stop::Hop(hop))
        }
        Event::Turn { conn, .. } => Some(Actor::End(conn)),
        Event::Capacity { port, .. } => Some(Actor::Port(port)),
    }
}

/// Adds the mark of an event, if it has one. What happens on no lifeline of the picture is marked beside them, on the left.
#[tactic(auto, using(crate::proofs::Within::growing))]
pub(crate) fn push_mark(
    sheet: &Sheet<'_>,
    out: &mut String,
    event: usize,
    told: &Told,
) -> Result<(), AllocError>
    ensures grows { OnOk result (Grows (string_bytes out.old) (string_bytes out.new)) }
    ensures drawn { OnOk result (IfSome (spec.mark_of told.now.outcome)
        (λ mark. DrawsMark sheet.now event told.now mark (string_bytes out.new))) }
{
    let Some(mark) = mark_of(&told.outcome) else {
        return Ok(());
    };
    let x = x_beside(sheet, actor_of(sheet.net, &told.event));
    let y = y_of(level_of(&sheet.rows, event));
    push_shape(sheet, out, mark, Point { x, y })
}

/// The middle of an actor's column, or a place beside all columns if it has none.
pub(crate) fn x_beside(sheet: &Sheet<'_>, who: Option<Actor>) -> u64
    ensures { IsBeside sheet.now who result }
{
    match standing(sheet.columns, who) {
        Some(column) => sheet.x(column),
        None => sheet.beside(),
    }
}

/// Adds the shape of a mark.
pub(crate) fn push_shape(
    sheet: &Sheet<'_>,
    out: &mut String,
    mark: Mark,
    at: Point,
) -> Result<(), AllocError>
    ensures { OnOk result (string_bytes out.new ≡ string_bytes out.old ++ spec.shape_text mark at) }
{
    let alloc = sheet.alloc;
    let class = class_of(mark);
    match mark {
        Mark::Start => push_circle(alloc, out, class, at, 45),
        Mark::Ask => push_circle(alloc, out, class, at, 30),
        Mark::Idle => push_circle(alloc, out, class, at, 40),
        Mark::Crash => push_cross(sheet, out, class, at, 60),
        Mark::Cell => push_tick(sheet, out, class, at),
        Mark::Set | Mark::Refused => push_box(sheet, out, class, at),
    }
}

/// Adds a cross.
#[tactic(auto, unfolding(crate::specs::Marks::cross_text))]
pub(crate) fn push_cross(
    sheet: &Sheet<'_>,
    out: &mut String,
    class: &str,
    at: Point,
    arm: u64,
) -> Result<(), AllocError>
    ensures { OnOk result (string_bytes out.new ≡ string_bytes out.old ++ spec.cross_text class.now at arm) }
{
    push_line(
        sheet.alloc,
        out,
        class,
        above_left(at, arm),
        below_right(at, arm),
    )?;
    push_line(
        sheet.alloc,
        out,
        class,
        below_left(at, arm),
        above_right(at, arm),
    )
}

// The points so far from another one to both sides.
fn above_left(at: Point, far: u64) -> Point
    ensures { result ≡ spec.above_left at far }
{
    Point {
        x: at.x.saturating_sub(far),
        y: at.y.saturating_sub(far),
    }
}

fn below_right(at: Point, far: u64) -> Point
    ensures { result ≡ spec.below_right at far }
{
    Point {
        x: at.x.saturating_add(far),
        y: at.y.saturating_add(far),
    }
}

fn below_left(at: Point, far: u64) -> Point
    ensures { result ≡ spec.below_left at far }
{
    Point {
        x: at.x.saturating_sub(far),
        y: at.y.saturating_add(far),
    }
}

fn above_right(at: Point, far: u64) -> Point
    ensures { result ≡ spec.above_right at far }
{
    Point {
        x: at.x.saturating_add(far),
        y: at.y.saturating_sub(far),
    }
}

#[tactic(auto, unfolding(crate::specs::Marks::tick_text))]
fn push_tick(sheet: &Sheet<'_>, out: &mut String, class: &str, at: Point) -> Result<(), AllocError>
    ensures { OnOk result (string_bytes out.new ≡ string_bytes out.old ++ spec.tick_text class.now at) }
{
    let from = Point {
        x: at.x.saturating_sub(60),
        y: at.y,
    };
    let to = Point {
        x: at.x.saturating_add(60),
        y: at.y,
    };
    push_line(sheet.alloc, out, class, from, to)
}

#[tactic(auto, unfolding(crate::specs::Marks::box_text))]
fn push_box(sheet: &Sheet<'_>, out: &mut String, class: &str, at: Point) -> Result<(), AllocError>
    ensures { OnOk result (string_bytes out.new ≡ string_bytes out.old ++ spec.box_text class.now at) }
{
    let size = Size {
        width: 80,
        height: 80,
    };
    push_rect(sheet.alloc, out, class, above_left(at, 40), size)
}
