//! The lifelines: one for each column, with its name above.
ghost use Rattle.std.specs.Prelude.{◌≡◌, ◌<◌, OnOk, string_bytes};
ghost use Rattle.abt_draw.specs.Lifelines as spec;
ghost use Rattle.abt_draw.specs.Lifelines.{HasLifeline, HasLifelines};
ghost use Rattle.abt_draw.specs.Within.{Grows};

use crate::sheet::Sheet;
use crate::{Actor, Point, level_of, push_label, push_line, y_of};
use abt_world::Outcome;
use std::alloc::AllocError;

/// Adds all lifelines.
pub(crate) fn push_lifelines(sheet: &Sheet<'_>, out: &mut String) -> Result<(), AllocError>
    ensures { OnOk result (HasLifelines sheet.now (string_bytes out.new)) }
{
    let columns = sheet.columns;
    for (column, actor) in columns.iter().enumerate() {
        push_lifeline(sheet, out, column as u32, *actor)?;
    }
    Ok(())
}

#[tactic(auto, using(crate::proofs::Within::growing))]
fn push_lifeline(
    sheet: &Sheet<'_>,
    out: &mut String,
    column: u32,
    actor: Actor,
) -> Result<(), AllocError>
    ensures grows { OnOk result (Grows (string_bytes out.old) (string_bytes out.new)) }
    ensures drawn { OnOk result (HasLifeline sheet.now column actor (string_bytes out.new)) }
{
    let alloc = sheet.alloc;
    let x = sheet.x(column);
    let (kind, number) = name_of(actor);
    push_label(alloc, out, "name", Point { x, y: 150 }, kind)?;
    let number = format!(in alloc; "{number}")?;
    push_label(alloc, out, "name", Point { x, y: 260 }, number.as_str())?;
    let from = Point { x, y: y_of(0) };
    let to = Point {
        x,
        y: sheet.bottom(),
    };
    push_line(alloc, out, "life", from, to)?;
    push_work(sheet, out, x, actor)
}

// Where an actor is up, if it is one that may be down.
#[tactic(auto, using(crate::proofs::Within::growing))]
fn push_work(sheet: &Sheet<'_>, out: &mut String, x: u64, actor: Actor) -> Result<(), AllocError>
    ensures { OnOk result (Grows (string_bytes out.old) (string_bytes out.new)) }
{
    match actor {
        Actor::Source(conn) => push_up(sheet, out, x, conn),
        Actor::Port(_) | Actor::End(_) => Ok(()),
    }
}

/// What an actor is, and its number.
pub(crate) fn name_of(actor: Actor) -> (&'static str, u16)
    ensures kind { result.0.now ≡ spec.kind_name actor }
    ensures number { result.1 ≡ spec.number_of actor }
{
    match actor {
        Actor::Source(conn) => ("source", conn),
        Actor::Port(port) => ("port", port),
        Actor::End(conn) => ("end", conn),
    }
}

// Where a source is up: from each start to the next crash.
#[tactic(auto, using(crate::proofs::Within::growing))]
fn push_up(sheet: &Sheet<'_>, out: &mut String, x: u64, conn: u16) -> Result<(), AllocError>
    ensures { OnOk result (Grows (string_bytes out.old) (string_bytes out.new)) }
{
    let mut up = None;
    for (event, told) in sheet.chart.told.as_slice().iter().enumerate() {
        if told.event.conn() != Some(conn) {
            continue;
        }
        let y = y_of(level_of(&sheet.rows, event));
        match (told.outcome, up) {
            (Outcome::Started, _) => up = Some(y),
            (Outcome::Crashed, Some(from)) => {
                push_up_part(sheet, out, x, from, y)?;
                up = None;
            }
            _ => {}
        }
    }
    match up {
        Some(from) => push_up_part(sheet, out, x, from, sheet.bottom()),
        None => Ok(()),
    }
}

// Such a part, if any of it is in the picture.
#[tactic(auto, using(crate::proofs::Within::growing))]
fn push_up_part(
    sheet: &Sheet<'_>,
    out: &mut String,
    x: u64,
    from: u64,
    to: u64,
) -> Result<(), AllocError>
    ensures { OnOk result (Grows (string_bytes out.old) (string_bytes out.new)) }
{
    if from >= to {
        return Ok(());
    }
    let (from, to) = (Point { x, y: from }, Point { x, y: to });
    push_line(sheet.alloc, out, "up", from, to)
}
