//! The lines of entries to a writer.
ghost use Rattle.std.specs.Prelude.{◌≤◌, [], ◌∷◌, map, length, Vec};
ghost use Rattle.std.specs.declared.alloc.Global.{Global as GlobalSpec};
ghost use Rattle.abt_journal.specs.declared.entry.Entry.{Entry as EntrySpec};
ghost use Rattle.abt_rate.specs.Limits.{ports_max, net_connections_max};
ghost use Rattle.abt_journal_text.specs.Lines.{Writes, step_lines, ports_lines, entry_lines, sources_lines};

use crate::put_line::put_line;
use crate::write_fault::WriteFault;
use abt_entry::{entry_line, step_line};
use abt_journal::Entry;
use abt_model::{SourceEntry, SourceJournal};
use std::alloc::Global;
use std::io::Write;

#[tactic(auto, using(crate::proofs::Sending::line_unmade))]
fn put_step<W: Write>(
    alloc: Global,
    port: u16,
    entry: &Entry,
    writer: &mut W,
) -> Result<(), WriteFault>
    ensures { Writes result (step_lines port (entry.now ∷ [])) (W.contents writer.old)
        (W.contents writer.new) }
{
    match step_line(alloc, port, entry) {
        Ok(line) => put_line(writer, line),
        Err(_) => Err(WriteFault::Memory),
    }
}

fn put_steps<W: Write>(
    alloc: Global,
    port: u16,
    entries: &[Entry],
    writer: &mut W,
) -> Result<(), WriteFault>
    ensures { Writes result (step_lines port entries.now) (W.contents writer.old) (W.contents writer.new) }
{
    for entry in entries {
        if let Err(fault) = put_step(alloc, port, entry, writer) {
            return Err(fault);
        }
    }
    Ok(())
}

// Writes the lines of all ports.
pub(crate) fn put_ports<W: Write>(
    alloc: Global,
    ports: &[Vec<Entry>],
    writer: &mut W,
) -> Result<(), WriteFault>
    requires { length ports.now ≤ ports_max }
    ensures { Writes result (ports_lines 0
        (map (λ (entries : Vec EntrySpec GlobalSpec). entries.items) ports.now))
        (W.contents writer.old) (W.contents writer.new) }
{
    let mut port = 0;
    for entries in ports {
        if let Err(fault) = put_steps(alloc, port, entries.as_slice(), writer) {
            return Err(fault);
        }
        port += 1;
    }
    Ok(())
}

#[tactic(auto, using(crate::proofs::Sending::line_unmade))]
fn put_entry<W: Write>(
    alloc: Global,
    conn: u16,
    entry: &SourceEntry,
    writer: &mut W,
) -> Result<(), WriteFault>
    ensures { Writes result (entry_lines conn (entry.now ∷ [])) (W.contents writer.old)
        (W.contents writer.new) }
{
    match entry_line(alloc, conn, entry) {
        Ok(line) => put_line(writer, line),
        Err(_) => Err(WriteFault::Memory),
    }
}

fn put_entries<W: Write>(
    alloc: Global,
    conn: u16,
    entries: &[SourceEntry],
    writer: &mut W,
) -> Result<(), WriteFault>
    ensures { Writes result (entry_lines conn entries.now) (W.contents writer.old) (W.contents writer.new) }
{
    for entry in entries {
        if let Err(fault) = put_entry(alloc, conn, entry, writer) {
            return Err(fault);
        }
    }
    Ok(())
}

// Writes the lines of all sources.
pub(crate) fn put_sources<W: Write>(
    alloc: Global,
    sources: &[SourceJournal],
    writer: &mut W,
) -> Result<(), WriteFault>
    requires { length sources.now ≤ net_connections_max }
    ensures { Writes result (sources_lines 0 sources.now) (W.contents writer.old) (W.contents writer.new) }
{
    let mut conn = 0;
    for journal in sources {
        if let Err(fault) = put_entries(alloc, conn, journal.entries.as_slice(), writer) {
            return Err(fault);
        }
        conn += 1;
    }
    Ok(())
}
