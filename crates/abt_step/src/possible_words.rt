//! What can happen next in words.
ghost use Rattle.std.specs.Prelude.{◌≡◌, OnOk, string_bytes};
ghost use Rattle.abt_text.specs.Text.{◌⋅◌};
ghost use Rattle.abt_step.specs.PossibleWords as spec;

use crate::possible::{CellWindow, Possible};
use crate::state_words::push_number;
use abt_format::push_event;
use abt_model::{Event, Sequence};
use std::alloc::AllocError;

// Adds the line of what can happen next to a text.
pub(crate) fn push_possible_line(text: &mut String, possible: &Possible) -> Result<(), AllocError>
    ensures { OnOk result
        (string_bytes text.new ≡ string_bytes text.old ⋅ spec.possible_line possible.now) }
{
    text.push_str("possible")?;
    push_events(text, possible.messages.as_slice())?;
    push_cells(text, possible.cells.as_slice())?;
    text.push_str("\n")
}

fn push_events(text: &mut String, events: &[Event]) -> Result<(), AllocError>
    ensures { OnOk result (string_bytes text.new ≡ string_bytes text.old ⋅ spec.events_text events.now) }
{
    for event in events {
        text.push_str("; ")?;
        push_event(text, event)?;
    }
    Ok(())
}

fn push_cells(text: &mut String, cells: &[Sequence<CellWindow>]) -> Result<(), AllocError>
    ensures { OnOk result (string_bytes text.new ≡ string_bytes text.old ⋅ spec.cells_text cells.now) }
{
    for windows in cells {
        push_windows(text, windows.as_slice())?;
    }
    Ok(())
}

fn push_windows(text: &mut String, windows: &[CellWindow]) -> Result<(), AllocError>
    ensures { OnOk result
        (string_bytes text.new ≡ string_bytes text.old ⋅ spec.windows_text windows.now) }
{
    for window in windows {
        push_window(text, *window)?;
    }
    Ok(())
}

fn push_window(text: &mut String, window: CellWindow) -> Result<(), AllocError>
    ensures { OnOk result (string_bytes text.new ≡ string_bytes text.old ⋅ spec.window_text window) }
{
    let arrival = Event::Arrive {
        conn: window.conn,
        cell: window.cell,
        at: window.from,
    };
    text.push_str("; ")?;
    push_event(text, &arrival)?;
    text.push_str(" to ")?;
    push_number(text, window.to)
}
