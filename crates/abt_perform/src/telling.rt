//! Texts that are told as far as they are taken, without memory.
ghost use Rattle.std.specs.Prelude.{OnOk, OnErr};
ghost use Rattle.std.specs.Io.KnownBytes.{Appends};
ghost use Rattle.abt_text.specs.Streams.{AppendsPrefix};
ghost use Rattle.abt_perform.specs.Names.{fault_line};
ghost use Rattle.abt_perform.specs.Plans.{Tells};
ghost use Rattle.abt_perform.specs.Words.{joined};

use crate::fault::Fault;
use crate::naming::{FaultName, Fields, name_of};
use abt_text::{Unwritten, put};
use itoa::Buffer;
use std::io::Write;

/// The line of want of memory.
pub const MEMORY_LINE: &str = "fault: memory\n";

/// The line of an output that can't be written.
pub const WRITE_LINE: &str = "fault: write\n";

/// The line of a scenario's file that can't be opened.
pub const OPEN_LINE: &str = "fault: open\n";

/// Writes a text as far as the writer takes it.
pub fn tell_text<W: Write>(writer: &mut W, text: &str)
    ensures { Tells text.now (W.contents writer.old) (W.contents writer.new) }
{
    let _ = put(writer, text.as_bytes());
}

/// Writes the line of a fault as far as the writer takes it.
pub fn tell_fault<E: Write>(fault: Fault, errors: &mut E)
    ensures { Tells (fault_line fault) (E.contents errors.old) (E.contents errors.new) }
{
    let FaultName { words, fields } = name_of(fault);
    match fields {
        Fields::None => tell_pieces(errors, &["fault: ", words, "\n"]),
        Fields::Key(key) => tell_pieces(errors, &["fault: ", words, " ", key.name(), "\n"]),
        Fields::One(number) => {
            let mut digits = Buffer::new();
            let number = digits.format(number);
            tell_pieces(errors, &["fault: ", words, " ", number, "\n"])
        }
        Fields::Two(first, second) => {
            let (mut digits, mut others) = (Buffer::new(), Buffer::new());
            let first = digits.format(first);
            let second = others.format(second);
            tell_pieces(errors, &["fault: ", words, " ", first, " ", second, "\n"])
        }
    }
}

// Writes some pieces of a text, as far as the writer takes them.
fn tell_pieces<W: Write>(writer: &mut W, pieces: &[&str])
    ensures { Tells (joined pieces.now) (W.contents writer.old) (W.contents writer.new) }
{
    let _ = put_pieces(writer, pieces);
}

// Writes all of some pieces of a text.
#[tactic(auto, using(crate::proofs::Pieces::appends_both, crate::proofs::Pieces::prefix_of_first, crate::proofs::Pieces::prefix_of_second))]
fn put_pieces<W: Write>(writer: &mut W, pieces: &[&str]) -> Result<(), Unwritten>
    ensures ok { OnOk result (Appends (W.contents writer.old) (W.contents writer.new) (joined pieces.now)) }
    ensures err { OnErr result
        (AppendsPrefix (W.contents writer.old) (W.contents writer.new) (joined pieces.now)) }
{
    let Some((piece, rest)) = pieces.split_first() else {
        return Ok(());
    };
    put(writer, piece.as_bytes())?;
    put_pieces(writer, rest)
}
