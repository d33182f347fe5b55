//! The objects of `abt port --json` for cells that are words.
ghost use Rattle.std.specs.Prelude.{◌≡◌, ◌≤◌, ◌⊎◌, Ok, IfErr, IfOk, OnOk, string_bytes};
ghost use Rattle.std.specs.Io.KnownBytes.{Appends, Keeps};
ghost use Rattle.abt_rate.specs.Limits.{capacity_max};
ghost use Rattle.abt_perform.specs.Plans.{EndsTextBy, texts_of};
ghost use Rattle.abt_parts.specs.PortObjects.{AreUnprinted, port_objects};

use crate::serve_objects::{push_line, push_total};
use abt_node::Port;
use abt_perform::{Fault, tell_fault};
use abt_text::put;
use std::alloc::{AllocError, Global};
use std::io::Write;

/// Prints the objects of some cells, which a new port serves in turn, and that of the total that it then holds, and gives the exit
/// status: 0 if all of them went out to `writer`, and 1 if a line on `errors` tells why not. A line that can't be written there changes
/// no status.
pub fn perform_port_objects<W: Write, E: Write>(
    alloc: Global,
    capacity: u64,
    cells: &[String],
    writer: &mut W,
    errors: &mut E,
) -> u8
    requires { capacity ≤ capacity_max }
    ensures status { (result ≡ 0) ⊎ (result ≡ 1) }
    ensures ok { result ≡ 0 → Appends (W.contents writer.old) (W.contents writer.new)
        (port_objects capacity (texts_of cells.now)) }
    ensures quiet { result ≡ 0 → Keeps (E.contents errors.old) (E.contents errors.new) }
    ensures err { result ≡ 1 → AreUnprinted capacity (texts_of cells.now)
        (W.contents writer.old) (W.contents writer.new) (E.contents errors.old) (E.contents errors.new) }
{
    match print(alloc, capacity, cells, writer) {
        Ok(()) => 0,
        Err(fault) => {
            tell_fault(fault, errors);
            1
        }
    }
}

fn print<W: Write>(
    alloc: Global,
    capacity: u64,
    cells: &[String],
    writer: &mut W,
) -> Result<(), Fault>
    requires { capacity ≤ capacity_max }
    ensures ok { OnOk result (Appends (W.contents writer.old) (W.contents writer.new)
        (port_objects capacity (texts_of cells.now))) }
    ensures err { IfErr result (λ fault. EndsTextBy fault (Ok (port_objects capacity (texts_of cells.now)))
        (W.contents writer.old) (W.contents writer.new)) }
{
    let text = port_objects(alloc, capacity, cells)?;
    match put(writer, text.as_bytes()) {
        Ok(()) => Ok(()),
        Err(_) => Err(Fault::Write),
    }
}

/// The objects of some cells, which a new port serves in turn, and that of the total that it then holds. A connection is added when its
/// first readable cell comes.
pub fn port_objects(alloc: Global, capacity: u64, cells: &[String]) -> Result<String, AllocError>
    requires { capacity ≤ capacity_max }
    ensures { IfOk result (λ text. string_bytes text ≡ port_objects capacity (texts_of cells.now)) }
{
    let mut port = Port::new(alloc, 0, capacity)?;
    let mut text = String::new(alloc);
    for (index, cell) in cells.iter().enumerate() {
        push_line(
            alloc,
            &mut text,
            index as u64 + 1,
            &mut port,
            Some(cell.as_bytes()),
        )?;
    }
    push_total(alloc, &mut text, &port)?;
    Ok(text)
}
