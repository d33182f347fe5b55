//! A server of lines of one's own.
ghost use Rattle.std.specs.Prelude.{◌≡◌, true};
ghost use Rattle.abt_lines.specs.Lines.{seen_lines};
ghost use Rattle.abt_lines.specs.Served.{IsServed};
ghost use Rattle.abt_uses.specs.Numbers.{numbers_from};

use abt_lines::{LineServer, serve_lines};
use std::alloc::{AllocError, Global};
use std::io::{Read, Write};

/// Answers each line with its number, from 1.
#[derive(Clone, Copy, Debug, PartialEq, Eq)]
pub struct LineNumbers;

impl LineServer for LineNumbers {
    ghost use Rattle.abt_uses.specs.Numbers.{EndsNumbering, NumbersLine};

    ghost steps = { NumbersLine };

    ghost ends = { EndsNumbering };

    fn answer(
        &mut self,
        alloc: Global,
        number: u64,
        _line: Option<&[u8]>,
        text: &mut String,
    ) -> Result<(), AllocError> {
        let line = format!(in alloc; "{number}\n")?;
        text.push_str(line.as_str())
    }

    fn end(&self, _alloc: Global, _number: u64, _text: &mut String) -> Result<(), AllocError> {
        Ok(())
    }
}

/// Writes the numbers of all lines that a reader has left, and says whether all of them went out.
pub fn numbered<R: Read, W: Write>(alloc: Global, reader: &mut R, writer: &mut W) -> bool
    ensures { result ≡ true → IsServed (λ source. numbers_from 1 (seen_lines source))
        (R.remaining reader.old) (W.contents writer.old) (W.contents writer.new) }
{
    let mut server = LineNumbers;
    serve_lines(alloc, &mut server, reader, writer).is_ok()
}
