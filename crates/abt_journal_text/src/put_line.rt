//! A line to a writer.
ghost use Rattle.std.specs.Prelude.{◌≡◌, ◌<◌, [], ◌∷◌, length, IfOk, Err};
ghost use Rattle.abt_text.specs.Text.{◌⋅◌, newline};
ghost use Rattle.abt_journal_text.specs.Lines.{Writes};
ghost use Rattle.abt_journal_text.specs.Texts.{line_max};
ghost use Rattle.abt_journal_text.specs.declared.write_fault.WriteFault.TheVariants.{TooLong};

use crate::write_fault::WriteFault;
use abt_text::put;
use std::alloc::AllocError;
use std::io::Write;

/// The octets of a line at most, without its line feed.
const LINE_MAX: usize = 16_777_215;

// A line with the line feed that ends it.
fn ended(mut line: Vec<u8>) -> Result<Vec<u8>, AllocError>
    ensures { IfOk result (λ text. text.items ≡ line.items ⋅ newline) }
{
    line.push(b'\n')?;
    Ok(line)
}

#[tactic(auto, using(crate::proofs::Sending::line_sent, crate::proofs::Sending::line_long, crate::proofs::Sending::line_unmade, crate::proofs::Sending::line_cut))]
// Writes a line, and the line feed that ends it.
pub(crate) fn put_line<W: Write>(writer: &mut W, line: Vec<u8>) -> Result<(), WriteFault>
    ensures writes { Writes result (line.items ∷ []) (W.contents writer.old) (W.contents writer.new) }
    ensures long { line_max < length line.items → result ≡ Err TooLong }
{
    if line.len() > LINE_MAX {
        return Err(WriteFault::TooLong);
    }
    let Ok(text) = ended(line) else {
        return Err(WriteFault::Memory);
    };
    match put(writer, text.as_slice()) {
        Ok(()) => Ok(()),
        Err(_) => Err(WriteFault::Write),
    }
}
