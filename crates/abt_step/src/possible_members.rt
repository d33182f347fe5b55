//! What can happen next as members of an object.
ghost use Rattle.std.specs.Prelude.{OnOk, ◌∷◌, ◌++◌, []};
ghost use Rattle.json.specs.Token.{begin_object, end_object, string};
ghost use Rattle.abt_entry.specs.ObjectMembers.{Adds};
ghost use Rattle.abt_format.specs.EventText.{event_text};
ghost use Rattle.abt_step.specs.PossibleMembers as spec;
ghost use Rattle.abt_step.specs.StateMembers.{array_member};

use crate::possible::{CellWindow, Possible};
use abt_entry::push_number;
use abt_format::push_event;
use abt_json::push_exact;
use abt_model::{Event, Sequence};
use json::Writer;
use std::alloc::{AllocError, Global};

// Adds the members of what can happen next.
pub(crate) fn push_possible_members(
    alloc: Global,
    object: &mut Writer,
    possible: &Possible,
) -> Result<(), AllocError>
    ensures { OnOk result (Adds (spec.possible_members possible.now) object.old object.new) }
{
    push_event_array(alloc, object, "messages", possible.messages.as_slice())?;
    push_cell_array(object, "cells", possible.cells.as_slice())
}

fn push_event_array(
    alloc: Global,
    object: &mut Writer,
    name: &str,
    events: &[Event],
) -> Result<(), AllocError>
    ensures { OnOk result
        (Adds (array_member name.now (spec.event_strings events.now)) object.old object.new) }
{
    object.key(name)?;
    object.begin_array()?;
    push_events(alloc, object, events)?;
    object.end_array()
}

fn push_events(alloc: Global, object: &mut Writer, events: &[Event]) -> Result<(), AllocError>
    ensures { OnOk result (Adds (spec.event_strings events.now) object.old object.new) }
{
    for event in events {
        push_event_string(alloc, object, event)?;
    }
    Ok(())
}

fn push_event_string(alloc: Global, object: &mut Writer, event: &Event) -> Result<(), AllocError>
    ensures { OnOk result (Adds (string (event_text event.now) ∷ []) object.old object.new) }
{
    let mut said = String::new(alloc);
    push_event(&mut said, event)?;
    object.string(said.as_str())
}

fn push_cell_array(
    object: &mut Writer,
    name: &str,
    cells: &[Sequence<CellWindow>],
) -> Result<(), AllocError>
    ensures { OnOk result
        (Adds (array_member name.now (spec.cell_tokens cells.now)) object.old object.new) }
{
    object.key(name)?;
    object.begin_array()?;
    push_cells(object, cells)?;
    object.end_array()
}

fn push_cells(object: &mut Writer, cells: &[Sequence<CellWindow>]) -> Result<(), AllocError>
    ensures { OnOk result (Adds (spec.cell_tokens cells.now) object.old object.new) }
{
    for windows in cells {
        push_windows(object, windows.as_slice())?;
    }
    Ok(())
}

fn push_windows(object: &mut Writer, windows: &[CellWindow]) -> Result<(), AllocError>
    ensures { OnOk result (Adds (spec.window_tokens windows.now) object.old object.new) }
{
    for window in windows {
        push_window(object, *window)?;
    }
    Ok(())
}

// Adds the object of a window.
fn push_window(object: &mut Writer, window: CellWindow) -> Result<(), AllocError>
    ensures { OnOk result (Adds
        (begin_object ∷ (spec.window_members window ++ end_object ∷ [])) object.old object.new) }
{
    object.begin_object()?;
    push_window_members(object, window)?;
    object.end_object()
}

fn push_window_members(object: &mut Writer, window: CellWindow) -> Result<(), AllocError>
    ensures { OnOk result (Adds (spec.window_members window) object.old object.new) }
{
    push_number(object, "connection", u64::from(window.conn))?;
    push_number(object, "cell", window.cell)?;
    push_exact(object, "from", "from_text", window.from)?;
    push_exact(object, "to", "to_text", window.to)
}
