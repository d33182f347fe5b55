//! Lines of any reader, answered in words.
ghost use Rattle.std.specs.Prelude.{◌≤◌, OnOk, OnErr};
ghost use Rattle.std.specs.Io.KnownBytes.{IsAtEnd};
ghost use Rattle.abt_rate.specs.Limits.{capacity_max, tau_max};
ghost use Rattle.abt_lines.specs.Served.{IsServed, IsServedPart};
ghost use Rattle.abt_parts.specs.Answered.{IsAllowedPlan, answers_to};
ghost use Rattle.abt_parts.specs.declared.plan.PartsPlan.TheVariants as parts;

use crate::cells::ReadLines;
use crate::plan::PartsPlan;
use crate::police::PolicedLines;
use crate::serve::ServedLines;
use crate::shape::ShapedLines;
use abt_gcra::Policer;
use abt_lines::{LinesFault, serve_lines};
use abt_node::Port;
use abt_rate::Rate;
use abt_shaper::Shaper;
use std::alloc::Global;
use std::io::{Read, Write};

// Answers all lines of a reader in words.
pub(crate) fn answer_in_words<R: Read, W: Write>(
    alloc: Global,
    plan: &PartsPlan,
    reader: &mut R,
    writer: &mut W,
) -> Result<(), LinesFault>
    requires { IsAllowedPlan plan.now }
    ensures end { OnOk result (IsAtEnd (R.remaining reader.new)) }
    ensures ok { OnOk result (IsServed (answers_to plan.now) (R.remaining reader.old)
        (W.contents writer.old) (W.contents writer.new)) }
    ensures err { OnErr result (IsServedPart (answers_to plan.now) (R.remaining reader.old)
        (W.contents writer.old) (W.contents writer.new)) }
{
    match *plan {
        PartsPlan::Police { tau, rate } => police_lines(alloc, tau, rate, reader, writer),
        PartsPlan::Shape { rate } => shape_lines(alloc, rate, reader, writer),
        PartsPlan::Cells => read_lines(alloc, reader, writer),
        PartsPlan::Port { capacity } => serve_cells(alloc, capacity, reader, writer),
    }
}

// Answers all lines as a policer does that has taken no cell yet.
fn police_lines<R: Read, W: Write>(
    alloc: Global,
    tau: u64,
    rate: Rate,
    reader: &mut R,
    writer: &mut W,
) -> Result<(), LinesFault>
    requires { tau ≤ tau_max }
    ensures end { OnOk result (IsAtEnd (R.remaining reader.new)) }
    ensures ok { OnOk result (IsServed (answers_to (parts.Police tau rate)) (R.remaining reader.old)
        (W.contents writer.old) (W.contents writer.new)) }
    ensures err { OnErr result (IsServedPart (answers_to (parts.Police tau rate)) (R.remaining reader.old)
        (W.contents writer.old) (W.contents writer.new)) }
{
    let policer = Policer::new(tau);
    let mut lines = PolicedLines {
        policer,
        held: rate,
    };
    serve_lines(alloc, &mut lines, reader, writer)
}

// Answers all lines as a shaper does that may send at once.
fn shape_lines<R: Read, W: Write>(
    alloc: Global,
    rate: Rate,
    reader: &mut R,
    writer: &mut W,
) -> Result<(), LinesFault>
    ensures end { OnOk result (IsAtEnd (R.remaining reader.new)) }
    ensures ok { OnOk result (IsServed (answers_to (parts.Shape rate)) (R.remaining reader.old)
        (W.contents writer.old) (W.contents writer.new)) }
    ensures err { OnErr result (IsServedPart (answers_to (parts.Shape rate)) (R.remaining reader.old)
        (W.contents writer.old) (W.contents writer.new)) }
{
    let shaper = Shaper::new(0);
    let mut lines = ShapedLines { shaper, rate };
    serve_lines(alloc, &mut lines, reader, writer)
}

// Answers each line by what its cell says.
fn read_lines<R: Read, W: Write>(
    alloc: Global,
    reader: &mut R,
    writer: &mut W,
) -> Result<(), LinesFault>
    ensures end { OnOk result (IsAtEnd (R.remaining reader.new)) }
    ensures ok { OnOk result (IsServed (answers_to parts.Cells) (R.remaining reader.old)
        (W.contents writer.old) (W.contents writer.new)) }
    ensures err { OnErr result (IsServedPart (answers_to parts.Cells) (R.remaining reader.old)
        (W.contents writer.old) (W.contents writer.new)) }
{
    serve_lines(alloc, &mut ReadLines, reader, writer)
}

#[tactic(auto, using(crate::proofs::Unserved::unserved))]
// Answers all lines as a port without connections does.
fn serve_cells<R: Read, W: Write>(
    alloc: Global,
    capacity: u64,
    reader: &mut R,
    writer: &mut W,
) -> Result<(), LinesFault>
    requires { capacity ≤ capacity_max }
    ensures end { OnOk result (IsAtEnd (R.remaining reader.new)) }
    ensures ok { OnOk result (IsServed (answers_to (parts.Port capacity)) (R.remaining reader.old)
        (W.contents writer.old) (W.contents writer.new)) }
    ensures err { OnErr result (IsServedPart (answers_to (parts.Port capacity)) (R.remaining reader.old)
        (W.contents writer.old) (W.contents writer.new)) }
{
    let port = Port::new(alloc, 0, capacity)?;
    let mut lines = ServedLines { port };
    serve_lines(alloc, &mut lines, reader, writer)
}
