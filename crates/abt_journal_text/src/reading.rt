//! Texts of any reader, line by line.
ghost use Rattle.std.specs.Prelude.{◌≡◌, ◌⊎◌, [], ◌∷◌, ◌++◌, true, IfErr, OnOk};
ghost use Rattle.std.specs.Io.KnownBytes.{IsAtEnd};
ghost use Rattle.abt_text.specs.Text.{Text, ◌⋅◌, line_feed};
ghost use Rattle.abt_journal_text.specs.Entering.{TakesLine, RefusesLine, IsOwn};
ghost use Rattle.abt_journal_text.specs.Texts.{below, Fails, GoesOn, IsRead, IsUnread, Reads};

use crate::begun::Begun;
use crate::book::Book;
use crate::fault::{Cause, TextFault};
use abt_text::{Unread, read_some};
use json::Scratch;
use std::alloc::Global;
use std::io::Read;

/// Reads the next text of journals, which has this number, into a book, from all that a reader has left.
///
/// What is in memory of the text at a time is a read of at most 16,384 octets, and the line that has begun.
///
/// # Errors
/// The first line that can't come where it stands, or what kept it from being read: see [`Cause`]. The book is then of no use.
pub fn read_text<R: Read>(
    alloc: Global,
    book: &mut Book,
    number: u64,
    reader: &mut R,
) -> Result<(), TextFault>
    ensures ok { OnOk result (IsRead number book.old book.new (R.remaining reader.old)) }
    ensures end { OnOk result (IsAtEnd (R.remaining reader.new)) }
    ensures err { IfErr result
        (λ fault. IsOwn fault.cause ⊎ IsUnread number book.old fault (R.remaining reader.old)) }
{
    book.begin_text();
    let mut begun = Begun::new(alloc, number);
    let mut scratch = Scratch::new(alloc);
    let mut piece = [0; 16384];
    for _read in 0..u64::MAX {
        let count = match read_some(reader, &mut piece) {
            Ok(count) => count,
            Err(Unread) => return Err(fault_at(&begun, Cause::Read)),
        };
        if count == 0 {
            return end_text(book, &begun);
        }
        if let Err(fault) = feed(alloc, book, &mut begun, &piece[..count], &mut scratch) {
            return Err(fault);
        }
    }
    Err(fault_at(&begun, Cause::Endless))
}

// A fault of the line that has begun.
fn fault_at(begun: &Begun, cause: Cause) -> TextFault
    ensures { result ≡ record { spot = begun.now.spot; cause = cause } }
{
    TextFault {
        spot: begun.spot,
        cause,
    }
}

// Takes the next octets.
fn feed(
    alloc: Global,
    book: &mut Book,
    begun: &mut Begun,
    piece: &[u8],
    scratch: &mut Scratch,
) -> Result<(), TextFault>
    ensures ok { OnOk result (GoesOn begun.old.spot book.old begun.old.octets.items piece.now
        begun.new.spot book.new begun.new.octets.items) }
    ensures err { IfErr result (λ fault. IsOwn fault.cause
        ⊎ ((rest : Text) → Fails begun.old.spot book.old (begun.old.octets.items ⋅ piece.now ⋅ rest) fault)) }
{
    for octet in piece {
        if let Err(fault) = take_octet(alloc, book, begun, *octet, scratch) {
            return Err(fault);
        }
    }
    Ok(())
}

#[tactic(auto, using(crate::proofs::Lines::octet_goes_on))]
// Takes the next octet.
fn take_octet(
    alloc: Global,
    book: &mut Book,
    begun: &mut Begun,
    octet: u8,
    scratch: &mut Scratch,
) -> Result<(), TextFault>
    ensures ok { OnOk result (GoesOn begun.old.spot book.old begun.old.octets.items (octet ∷ [])
        begun.new.spot book.new begun.new.octets.items) }
    ensures err { IfErr result (λ fault. IsOwn fault.cause
        ⊎ ((rest : Text) → Fails begun.old.spot book.old (begun.old.octets.items ⋅ octet ∷ rest) fault)) }
{
    if octet == b'\n' {
        return end_line(alloc, book, begun, scratch);
    }
    match begun.add(octet) {
        Ok(()) => Ok(()),
        Err(cause) => Err(fault_at(begun, cause)),
    }
}

// Takes in the line that ends here, and begins the next one.
fn end_line(
    alloc: Global,
    book: &mut Book,
    begun: &mut Begun,
    scratch: &mut Scratch,
) -> Result<(), TextFault>
    ensures ok { OnOk result (GoesOn begun.old.spot book.old begun.old.octets.items (line_feed ∷ [])
        begun.new.spot book.new begun.new.octets.items) }
    ensures err { IfErr result (λ fault. IsOwn fault.cause
        ⊎ ((rest : Text) → Fails begun.old.spot book.old (begun.old.octets.items ⋅ line_feed ∷ rest) fault)) }
{
    if let Err(cause) = book.take_line(alloc, begun.spot, begun.octets.as_slice(), scratch) {
        return Err(fault_at(begun, cause));
    }
    if let Err(cause) = begun.next() {
        return Err(fault_at(begun, cause));
    }
    Ok(())
}

#[tactic(auto, using(crate::proofs::Lines::reads_end, crate::proofs::Lines::reads_cut))]
// Ends a text here. A line in whose middle it ends is left out.
fn end_text(book: &mut Book, begun: &Begun) -> Result<(), TextFault>
    ensures ok { OnOk result (Reads begun.now.spot book.old begun.now.octets.items book.new) }
    ensures err { IfErr result (λ fault. IsOwn fault.cause) }
{
    if begun.octets.is_empty() {
        return Ok(());
    }
    match book.note_cut(begun.spot) {
        Ok(()) => Ok(()),
        Err(cause) => Err(fault_at(begun, cause)),
    }
}
