//! A net that events happen to line by line.
ghost use Rattle.std.specs.Prelude.{OnOk};
ghost use Rattle.abt_lines.specs.Lines.{seen_lines};
ghost use Rattle.abt_lines.specs.Served.{IsServed};
ghost use Rattle.abt_step.specs.Stepped.{dialogue};

use abt_lines::{LinesFault, serve_lines};
use abt_model::Event;
use abt_net::Net;
use abt_step::{AnswerForm, SteppedLines, a_net_is_stepped};
use std::alloc::Global;
use std::io::{Read, Write};

/// Lets the events on the lines of a reader happen to a net, behind those of its opening, and writes the answers in a form.
pub fn stepped<R: Read, W: Write>(
    alloc: Global,
    form: AnswerForm,
    net: &Net,
    opening: &[Event],
    reader: &mut R,
    writer: &mut W,
) -> Result<(), LinesFault>
    ensures { OnOk result (IsServed (λ source. dialogue form net.now opening.now (seen_lines source))
        (R.remaining reader.old) (W.contents writer.old) (W.contents writer.new)) }
{
    a_net_is_stepped();
    let mut lines = SteppedLines::open(alloc, form, net, opening)?;
    serve_lines(alloc, &mut lines, reader, writer)
}
