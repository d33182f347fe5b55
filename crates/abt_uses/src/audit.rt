//! Texts of journals, audited.
ghost use Rattle.std.specs.Prelude.{◌≡◌, true, map};
ghost use Rattle.abt_audit.specs.Performing.{IsShownWhole};

use abt_audit::{Form, perform_audit};
use std::alloc::Global;
use std::io::{Read, Write};

/// Audits the texts that some readers have left, and says whether they are the logs of one run, as the output then does too.
pub fn is_one_run<R: Read + Drop, W: Write, E: Write>(
    alloc: Global,
    names: &[String],
    readers: Vec<R>,
    writer: &mut W,
    errors: &mut E,
) -> bool
    ensures { result ≡ true → IsShownWhole Form.Words (map R.remaining readers.items) (W.contents writer.old)
        (W.contents writer.new) }
{
    let status = perform_audit(alloc, Form::Words, names, readers, writer, errors);
    status == 0
}
