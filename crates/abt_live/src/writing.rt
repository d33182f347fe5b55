//! The lines of a switch's journal.
ghost use Rattle.std.specs.Prelude.{◌≡◌, IfOk};
ghost use Rattle.abt_live.specs.Ports.{switch_line};

use abt_entry::step_line;
use abt_journal::Entry;
use itoa::Buffer;
use std::alloc::{AllocError, Global};

// The line of a step of a port. That of a data cell has the cell's number too, as another member.
pub(crate) fn switch_line(
    alloc: Global,
    port: u16,
    entry: &Entry,
    cell: Option<u64>,
) -> Result<Vec<u8>, AllocError>
    ensures { IfOk result (λ line. line.items ≡ switch_line port entry.now cell) }
{
    let mut step = step_line(alloc, port, entry)?;
    let Some(cell) = cell else {
        step.push(b'\n')?;
        return Ok(step);
    };
    let mut digits = Buffer::new();
    let mut line = Vec::new(alloc);
    line.extend_from_slice(b"{\"cell\":")?;
    line.extend_from_slice(digits.format(cell).as_bytes())?;
    line.extend_from_slice(b",")?;
    line.extend_from_slice(&step.as_slice()[step.len().min(1)..])?;
    line.push(b'\n')?;
    Ok(line)
}
