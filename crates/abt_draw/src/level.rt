//! How far down the events of a picture are.
ghost use Rattle.std.specs.Prelude.{◌≡◌, ◌≤◌, length, IfOk};
ghost use Rattle.abt_draw.specs.Levels as spec;
ghost use Rattle.abt_draw.specs.Levels.{levels_from, rows_after};

use crate::Actor;
use crate::mark::actor_of;
use abt_model::Sequence;
use abt_net::Net;
use abt_world::Event;
use std::alloc::{AllocError, Global};

/// Whether an event has a row: if connections are named, those on lifelines that aren't shown have none.
pub(crate) fn has_row(only: &[u16], net: &Net, columns: &[Actor], event: &Event) -> bool
    ensures { result ≡ spec.has_row only.now net.now columns.now event.now }
{
    only.is_empty() || has_column(columns, actor_of(net, event))
}

fn has_column(columns: &[Actor], who: Option<Actor>) -> bool
    ensures { result ≡ spec.has_column columns.now who }
{
    match who {
        Some(who) => columns.contains(&who),
        None => false,
    }
}

/// How many rows there are up to each of some events and with it, and how many in all.
pub(crate) fn levels_of(
    alloc: Global,
    only: &[u16],
    net: &Net,
    columns: &[Actor],
    events: &[Event],
) -> Result<(Sequence<u32>, u32), AllocError>
    requires { length events.now ≤ 2000 }
    ensures levels { IfOk result
        (λ found. found.0 ≡ levels_from (spec.has_row only.now net.now columns.now) 0 events.now) }
    ensures count { IfOk result
        (λ found. found.1 ≡ rows_after (spec.has_row only.now net.now columns.now) 0 events.now) }
    ensures few { IfOk result (λ found. found.1 ≤ 2000) }
{
    let mut levels = Sequence::new(alloc);
    let mut rows = 0;
    for event in events {
        rows = rows_with(has_row(only, net, columns, event), rows);
        levels.push(rows)?;
    }
    Ok((levels, rows))
}

// How many rows there are with one event more.
fn rows_with(has_row: bool, rows: u32) -> u32
    requires { rows ≤ 2000 }
    ensures { result ≡ spec.rows_with has_row rows }
{
    if has_row { rows + 1 } else { rows }
}
