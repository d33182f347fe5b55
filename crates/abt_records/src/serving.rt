//! Records from any reader, answers to any writer.
ghost use Rattle.std.specs.Prelude.{◌≡◌, ◌∷◌, [], IsOk, OnOk, OnErr};
ghost use Rattle.std.specs.Io.KnownBytes.{Appends, IsAtEnd};
ghost use Rattle.abt_lines.specs.Served.{AppendsFront};
ghost use Rattle.abt_records.specs.Fed.{Fed, FedPart};
ghost use Rattle.abt_records.specs.Records.{ended_by, ends_with, go_on, record_of, records_behind};
ghost use Rattle.abt_records.specs.Runs.{Adds, AnswersFirst, Runs};
ghost use Rattle.abt_records.specs.Served.{ServesRecords, ServesSome};

use crate::answers::Answers;
use crate::begun::{end_by, ends_with, go_on, record_of};
use crate::server::RecordServer;
use abt_lines::LinesFault;
use abt_text::{put, read_some};
use std::alloc::{AllocError, Global};
use std::io::{Read, Write};

/// Answers the lines and cells of a reader, and writes the answers to all that are there before it reads on.
///
/// What is in memory at a time is a read of at most 16,384 octets, the answers to its records, one answer in the making, and the record that
/// has begun, of which no more is kept than it takes to see that it is too long.
pub fn serve_records<S: RecordServer, R: Read, W: Write>(
    alloc: Global,
    server: &mut S,
    reader: &mut R,
    writer: &mut W,
) -> Result<(), LinesFault>
    ensures ok { OnOk result (ServesRecords S.steps server.old server.new
        (R.remaining reader.old) (W.contents writer.old) (W.contents writer.new)) }
    ensures end { OnOk result (IsAtEnd (R.remaining reader.new)) }
    ensures err { OnErr result (ServesSome S.steps server.old
        (R.remaining reader.old) (W.contents writer.old) (W.contents writer.new)) }
{
    let mut begun = Vec::new(alloc);
    let mut answers = Answers::new(alloc);
    let mut piece = [0; 16384];
    for _read in 0..u64::MAX {
        let count = read_some(reader, &mut piece)?;
        if count == 0 {
            let ended = end(alloc, server, &mut begun, &mut answers);
            return write_out(writer, &answers, ended);
        }
        let fed = feed(alloc, server, &mut begun, &piece[..count], &mut answers);
        write_out(writer, &answers, fed)?;
    }
    Err(LinesFault::TooLong)
}

#[tactic(auto, using(crate::proofs::Pieces::front_of_prefix, crate::proofs::Pieces::front_of_whole))]
// Writes the answers that were made, and then gives what stopped them.
fn write_out<W: Write>(
    writer: &mut W,
    answers: &Answers,
    made: Result<(), AllocError>,
) -> Result<(), LinesFault>
    ensures made { OnOk result (IsOk made) }
    ensures ok { OnOk result (Appends (W.contents writer.old) (W.contents writer.new)
        answers.now.made.items) }
    ensures err { OnErr result
        (AppendsFront (W.contents writer.old) (W.contents writer.new) answers.now.made.items) }
{
    if put(writer, answers.made.as_slice()).is_err() {
        return Err(LinesFault::Write);
    }
    Ok(made?)
}

// Takes the next octets, and makes the answers to the records that end there.
fn feed<S: RecordServer>(
    alloc: Global,
    server: &mut S,
    begun: &mut Vec<u8>,
    piece: &[u8],
    answers: &mut Answers,
) -> Result<(), AllocError>
    ensures ok { OnOk result (Fed S.steps server.old begun.old.items piece.now
        server.new begun.new.items [] answers.new.made.items) }
    ensures err { OnErr result (FedPart S.steps server.old begun.old.items piece.now
        answers.new.made.items) }
{
    answers.made.clear();
    for octet in piece {
        take(alloc, server, begun, *octet, answers)?;
    }
    Ok(())
}

// Takes an octet, and adds the answer to the record that it ends, if it ends one, to those that were made.
fn take<S: RecordServer>(
    alloc: Global,
    server: &mut S,
    begun: &mut Vec<u8>,
    octet: u8,
    answers: &mut Answers,
) -> Result<(), AllocError>
    ensures ok { OnOk result (Fed S.steps server.old begun.old.items (octet ∷ [])
        server.new begun.new.items answers.old.made.items answers.new.made.items) }
    ensures err { OnErr result (answers.new.made.items ≡ answers.old.made.items) }
{
    if !ends_with(begun.as_slice(), octet) {
        return go_on(begun, octet);
    }
    end_by(begun, octet)?;
    answer(alloc, server, begun.as_slice(), answers)?;
    begun.clear();
    Ok(())
}

// Adds the answer to the record of some octets to those that were made.
fn answer<S: RecordServer>(
    alloc: Global,
    server: &mut S,
    octets: &[u8],
    answers: &mut Answers,
) -> Result<(), AllocError>
    ensures ok { OnOk result (Adds answers.old.made.items answers.new.made.items
        (λ said. S.steps server.old (record_of octets.now) said server.new)) }
    ensures err { OnErr result (answers.new.made.items ≡ answers.old.made.items) }
{
    answers.next.clear();
    server.answer(alloc, record_of(octets), &mut answers.next)?;
    answers.add_next()
}

// Makes the answer to what is left at the end of the input, if something is.
fn end<S: RecordServer>(
    alloc: Global,
    server: &mut S,
    begun: &mut Vec<u8>,
    answers: &mut Answers,
) -> Result<(), AllocError>
    ensures ok { OnOk result (Runs S.steps server.old (records_behind begun.old.items [])
        answers.new.made.items server.new) }
    ensures err { OnErr result (answers.new.made.items ≡ []) }
{
    answers.made.clear();
    if begun.is_empty() {
        return Ok(());
    }
    answer(alloc, server, begun.as_slice(), answers)
}
