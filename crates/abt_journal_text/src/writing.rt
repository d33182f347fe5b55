//! Whole journals, written.
ghost use Rattle.std.specs.Prelude.{◌≡◌, ◌≤◌, [], ◌∷◌, length};
ghost use Rattle.abt_rate.specs.Limits.{ports_max, net_connections_max};
ghost use Rattle.abt_journal_text.specs.NetJson.{line_of, end_json};
ghost use Rattle.abt_journal_text.specs.Lines.{Writes, journal_lines, body_lines, rest_lines};

use crate::entry_lines::{put_ports, put_sources};
use crate::net_line::{end_line, net_line};
use crate::put_line::put_line;
use crate::write_fault::WriteFault;
use abt_journal::Journals;
use abt_model::SourceJournal;
use abt_net::Net;
use std::alloc::Global;
use std::io::Write;

#[tactic(auto, using(crate::proofs::Sending::line_unmade))]
/// Writes the text of a net and of its journals (docs/JOURNALS.md): the line of the net, those of the steps of each port, those of the
/// entries of each source, and the end. What is in memory at a time is one line.
///
/// # Errors
/// [`WriteFault::Write`] if the writer failed; [`WriteFault::Memory`] if memory for a line was refused; [`WriteFault::TooLong`] if
/// the next line has more than 16,777,215 octets. The lines before it went out, and of it at most a part that isn't all of it.
pub fn write_journals<W: Write>(
    alloc: Global,
    net: &Net,
    journals: &Journals,
    sources: &[SourceJournal],
    writer: &mut W,
) -> Result<(), WriteFault>
    requires ports { length journals.now ≡ length net.now.capacities }
    requires sources { length sources.now ≡ length net.now.conns }
    ensures { Writes result (journal_lines net.now journals.now sources.now) (W.contents writer.old)
        (W.contents writer.new) }
{
    // The rules of nets say how many ports and connections there are at most.
    let _ = net.capacities();
    let Ok(line) = net_line(alloc, net) else {
        return Err(WriteFault::Memory);
    };
    if let Err(fault) = put_line(writer, line) {
        return Err(fault);
    }
    put_bodies(alloc, journals, sources, writer)
}

#[tactic(auto, using(crate::proofs::Sending::writes_behind, crate::proofs::Sending::stops_first))]
// Writes all lines behind that of the net.
fn put_bodies<W: Write>(
    alloc: Global,
    journals: &Journals,
    sources: &[SourceJournal],
    writer: &mut W,
) -> Result<(), WriteFault>
    requires ports { length journals.now ≤ ports_max }
    requires sources { length sources.now ≤ net_connections_max }
    ensures { Writes result (body_lines journals.now sources.now) (W.contents writer.old)
        (W.contents writer.new) }
{
    if let Err(fault) = put_ports(alloc, journals.ports.as_slice(), writer) {
        return Err(fault);
    }
    put_rest(alloc, sources, writer)
}

#[tactic(auto, using(crate::proofs::Sending::writes_behind, crate::proofs::Sending::stops_first))]
// Writes the lines of sources, and the end.
fn put_rest<W: Write>(
    alloc: Global,
    sources: &[SourceJournal],
    writer: &mut W,
) -> Result<(), WriteFault>
    requires { length sources.now ≤ net_connections_max }
    ensures { Writes result (rest_lines sources.now) (W.contents writer.old) (W.contents writer.new) }
{
    if let Err(fault) = put_sources(alloc, sources, writer) {
        return Err(fault);
    }
    put_end(alloc, writer)
}

#[tactic(auto, using(crate::proofs::Sending::line_unmade))]
// Writes the end.
fn put_end<W: Write>(alloc: Global, writer: &mut W) -> Result<(), WriteFault>
    ensures { Writes result (line_of end_json ∷ []) (W.contents writer.old) (W.contents writer.new) }
{
    match end_line(alloc) {
        Ok(line) => put_line(writer, line),
        Err(_) => Err(WriteFault::Memory),
    }
}
