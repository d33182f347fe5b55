//! Lines from any reader, answers to any writer.
ghost use Rattle.std.specs.Prelude.{◌≡◌, ◌<◌, ◌+◌, ◌⊎◌, [], ◌∷◌, length, Err, IfErr, IsOk, OnOk, OnErr, string_bytes};
ghost use Rattle.std.specs.Io.KnownBytes.{Appends, IsAtEnd};
ghost use Rattle.abt_text.specs.Streams.{AppendsPrefix};
ghost use Rattle.abt_text.specs.Text.{◌⋅◌, line_feed};
ghost use Rattle.abt_text.specs.Words.{Lacks};
ghost use Rattle.abt_lines.specs.Fed.{EndedPart, Fed, FedPart, IsUnanswered};
ghost use Rattle.abt_lines.specs.Lines.{seen_lines, seen_of};
ghost use Rattle.abt_lines.specs.Runs.{Adds, AnswersAll, Runs};
ghost use Rattle.abt_lines.specs.Served.{AppendsFront, ServesAll, ServesPart};
ghost use Rattle.abt_lines.specs.Stopped.{IsStopped};
ghost use Rattle.abt_lines.specs.declared.fault.LinesFault.TheVariants.{Write as NotWritten};

use crate::answers::Answers;
use crate::begun::{Begun, seen_of};
use crate::cutting::first_line;
use crate::fault::LinesFault;
use crate::server::LineServer;
use abt_text::{put, read_some};
use std::alloc::{AllocError, Global};
use std::io::{Read, Write};

/// Answers the lines of a reader, and writes the answers to all lines that are there before it reads on.
///
/// What is in memory at a time is a read of at most 16,384 octets, the answers to its lines, one answer in the making, and the line that
/// has begun, of which no more is kept than it takes to see that it is too long. A line that lies whole within a read is seen there.
pub fn serve_lines<S: LineServer, R: Read, W: Write>(
    alloc: Global,
    server: &mut S,
    reader: &mut R,
    writer: &mut W,
) -> Result<(), LinesFault>
    ensures ok { OnOk result (ServesAll S.steps S.ends server.old server.new
        (R.remaining reader.old) (W.contents writer.old) (W.contents writer.new)) }
    ensures end { OnOk result (IsAtEnd (R.remaining reader.new)) }
    ensures err { OnErr result (ServesPart S.steps S.ends server.old
        (R.remaining reader.old) (W.contents writer.old) (W.contents writer.new)) }
    ensures fault { IfErr result (IsStopped S.steps S.ends server.old (R.remaining reader.old)
        (R.remaining reader.new) (W.contents writer.old) (W.contents writer.new)) }
{
    let mut begun = Begun::new(alloc);
    let mut answers = Answers::new(alloc);
    let mut piece = [0; 16384];
    for _read in 0..u64::MAX {
        let count = read_some(reader, &mut piece)?;
        if count == 0 {
            let ended = end(alloc, server, &mut begun, &mut answers);
            return write_out(writer, &answers.made, ended);
        }
        let fed = feed(alloc, server, &mut begun, &piece[..count], &mut answers);
        write_out(writer, &answers.made, fed)?;
    }
    Err(LinesFault::TooLong)
}

#[tactic(auto, using(crate::proofs::Pieces::front_of_prefix, crate::proofs::Pieces::front_of_whole))]
// Writes the answers that were made, and then gives what stopped them.
fn write_out<W: Write>(
    writer: &mut W,
    text: &String,
    made: Result<(), LinesFault>,
) -> Result<(), LinesFault>
    ensures made { OnOk result (IsOk made) }
    ensures ok { OnOk result (Appends (W.contents writer.old) (W.contents writer.new)
        (string_bytes text.now)) }
    ensures err { OnErr result (AppendsFront (W.contents writer.old) (W.contents writer.new)
        (string_bytes text.now)) }
    ensures fault { IfErr result (λ fault.
        (fault ≡ NotWritten)
        × AppendsPrefix (W.contents writer.old) (W.contents writer.new) (string_bytes text.now)
        ⊎ (made ≡ Err fault)
        × Appends (W.contents writer.old) (W.contents writer.new) (string_bytes text.now)) }
{
    if put(writer, text.as_bytes()).is_err() {
        return Err(LinesFault::Write);
    }
    made
}

// Takes the next octets, and makes the answers to the lines that end there.
fn feed<S: LineServer>(
    alloc: Global,
    server: &mut S,
    begun: &mut Begun,
    piece: &[u8],
    answers: &mut Answers,
) -> Result<(), LinesFault>
    ensures ok { OnOk result (Fed S.steps server.old begun.old.number begun.old.octets.items piece.now
        server.new begun.new.number begun.new.octets.items [] (string_bytes answers.new.made)) }
    ensures err { IfErr result (FedPart S.steps server.old begun.old.number begun.old.octets.items
        piece.now (string_bytes answers.new.made)) }
{
    answers.made.clear();
    let mut rest = piece;
    while let Some((line, more)) = first_line(rest) {
        answer(alloc, server, begun, line, answers)?;
        rest = more;
    }
    begun.add(rest)?;
    Ok(())
}

// Adds the answer to the line that ends with these octets, and begins the next one.
fn answer<S: LineServer>(
    alloc: Global,
    server: &mut S,
    begun: &mut Begun,
    line: &[u8],
    answers: &mut Answers,
) -> Result<(), LinesFault>
    requires { Lacks line_feed line.now }
    ensures next { OnOk result (begun.new.octets.items ≡ []) }
    ensures ok { OnOk result (Adds (string_bytes answers.old.made) (string_bytes answers.new.made)
        (λ said. S.steps server.old begun.old.number (seen_of (begun.old.octets.items ⋅ line.now))
        said server.new)) }
    ensures number { OnOk result (begun.new.number ≡ begun.old.number + 1) }
    ensures err { OnErr result (string_bytes answers.new.made ≡ string_bytes answers.old.made) }
    ensures fault { IfErr result (IsUnanswered begun.old.number) }
{
    let Some(next) = begun.number.checked_add(1) else {
        return Err(LinesFault::TooLong);
    };
    answer_begun(alloc, server, begun, line, answers)?;
    begun.number = next;
    Ok(())
}

// Adds the answer to the line that ends with these octets. If nothing of it had begun, it is seen where it lies.
fn answer_begun<S: LineServer>(
    alloc: Global,
    server: &mut S,
    begun: &mut Begun,
    line: &[u8],
    answers: &mut Answers,
) -> Result<(), AllocError>
    requires { Lacks line_feed line.now }
    ensures next { OnOk result (begun.new.octets.items ≡ []) }
    ensures ok { OnOk result (Adds (string_bytes answers.old.made) (string_bytes answers.new.made)
        (λ said. S.steps server.old begun.old.number (seen_of (begun.old.octets.items ⋅ line.now))
        said server.new)) }
    ensures number { begun.new.number ≡ begun.old.number }
    ensures err { OnErr result (string_bytes answers.new.made ≡ string_bytes answers.old.made) }
{
    if begun.octets.is_empty() {
        return answer_seen(alloc, server, begun.number, line, answers);
    }
    begun.add(line)?;
    answer_seen(
        alloc,
        server,
        begun.number,
        begun.octets.as_slice(),
        answers,
    )?;
    begun.octets.clear();
    Ok(())
}

// Adds the answer to what is seen of the line of a number.
fn answer_seen<S: LineServer>(
    alloc: Global,
    server: &mut S,
    number: u64,
    line: &[u8],
    answers: &mut Answers,
) -> Result<(), AllocError>
    ensures ok { OnOk result (Adds (string_bytes answers.old.made) (string_bytes answers.new.made)
        (λ said. S.steps server.old number (seen_of line.now) said server.new)) }
    ensures err { OnErr result (string_bytes answers.new.made ≡ string_bytes answers.old.made) }
{
    answers.next.clear();
    server.answer(alloc, number, seen_of(line), &mut answers.next)?;
    answers.add_next()
}

// Makes the answers to what is left at the end of the input.
fn end<S: LineServer>(
    alloc: Global,
    server: &mut S,
    begun: &mut Begun,
    answers: &mut Answers,
) -> Result<(), LinesFault>
    ensures ok { OnOk result (AnswersAll S.steps S.ends server.old begun.old.number
        (seen_lines begun.old.octets.items) (string_bytes answers.new.made) server.new) }
    ensures fault { IfErr result (EndedPart S.steps server.old begun.old.number begun.old.octets.items
        (string_bytes answers.new.made)) }
{
    answers.made.clear();
    end_line(alloc, server, begun, answers)?;
    answers.next.clear();
    server.end(alloc, begun.number, &mut answers.next)?;
    answers.add_next()?;
    Ok(())
}

#[tactic(auto, using(crate::proofs::Lines::text_ends))]
// Adds the answer to the line that ends with the input, if there is one, to those that were made.
fn end_line<S: LineServer>(
    alloc: Global,
    server: &mut S,
    begun: &mut Begun,
    answers: &mut Answers,
) -> Result<(), LinesFault>
    ensures ok { OnOk result (Adds (string_bytes answers.old.made) (string_bytes answers.new.made)
        (λ said. Runs S.steps server.old begun.old.number (seen_lines begun.old.octets.items)
        said server.new)) }
    ensures number { OnOk result
        (begun.new.number ≡ begun.old.number + length (seen_lines begun.old.octets.items)) }
    ensures err { OnErr result (string_bytes answers.new.made ≡ string_bytes answers.old.made) }
    ensures some { OnErr result (0 < length begun.old.octets.items) }
    ensures fault { IfErr result (IsUnanswered begun.old.number) }
{
    if begun.octets.is_empty() {
        return Ok(());
    }
    answer(alloc, server, begun, b"", answers)
}
