//! What the lines and cells of a switch ask for.
ghost use Rattle.std.specs.Prelude.{◌≡◌, IfOk};
ghost use Rattle.std.specs.Option.{option_map};
ghost use Rattle.abt_live.specs.Marks.{port_of};
ghost use Rattle.abt_live.specs.SwitchRecords.{cell_asked, cell_for, record_asked};

use crate::fault::LiveFault;
use crate::marks::port_of;
use crate::switch_asked::{SwitchAsked, asked_on, input_of};
use abt_cell::{Cell, read_rm};
use abt_perform::Fault;
use abt_records::is_cell;
use std::alloc::{AllocError, Global};

// What a line or a cell asks for, which is a line that is too long if there is `None`.
pub(crate) fn record_asked(alloc: Global, seen: Option<&[u8]>) -> Result<SwitchAsked, AllocError>
    ensures { IfOk result (λ asked. asked ≡ record_asked (option_map (λ octets. octets.now) seen.entry)) }
{
    match seen {
        Some(octets) if is_cell(octets) => Ok(cell_asked(octets)),
        line => asked_on(alloc, line),
    }
}

// What a cell behind an octet asks for.
fn cell_asked(octets: &[u8]) -> SwitchAsked
    ensures { result ≡ cell_asked octets.now }
{
    let Some((mark, octets)) = octets.split_first() else {
        return SwitchAsked::Wrong(LiveFault::Cut);
    };
    match Cell::from_octets(octets) {
        Ok(cell) => cell_for(*mark, &cell),
        Err(_) => SwitchAsked::Wrong(LiveFault::Cut),
    }
}

// That the message of a cell comes to the port of the octet before it.
fn cell_for(mark: u8, cell: &Cell) -> SwitchAsked
    ensures { result ≡ cell_for (port_of mark) cell.now }
{
    let Some(port) = port_of(mark) else {
        return SwitchAsked::Wrong(LiveFault::Port);
    };
    match read_rm(cell) {
        Ok(rm) => SwitchAsked::Step {
            port,
            input: input_of(&rm),
            cell: None,
        },
        Err(fault) => SwitchAsked::Wrong(LiveFault::Cell(Fault::Rm(fault))),
    }
}
