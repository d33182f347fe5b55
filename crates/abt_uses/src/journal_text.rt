//! Journals as texts, read and written.
ghost use Rattle.std.specs.Prelude.{◌≡◌, ◌⊎◌, length, IfSome, IfOk, IfErr};
ghost use Rattle.abt_journal_text.specs.Books.{blank, IsToldRun};
ghost use Rattle.abt_journal_text.specs.Entering.{IsOwn};
ghost use Rattle.abt_journal_text.specs.Lines.{Writes, journal_lines};
ghost use Rattle.abt_journal_text.specs.Texts.{IsRead, IsUnread};

use abt_journal_text::{Book, Run, TextFault, WriteFault, read_text, write_journals};
use std::alloc::Global;
use std::io::{Read, Write};

/// What the text of journals tells that a reader has left.
pub fn book_of<R: Read>(alloc: Global, reader: &mut R) -> Result<Book, TextFault>
    ensures ok { IfOk result (λ book. IsRead 1 blank book (R.remaining reader.old)) }
    ensures err { IfErr result
        (λ fault. IsOwn fault.cause ⊎ IsUnread 1 blank fault (R.remaining reader.old)) }
{
    let mut book = Book::new(alloc);
    read_text(alloc, &mut book, 1, reader)?;
    Ok(book)
}

/// Writes the net and the journals that a book tells, as one text; `None` if it tells no net, or memory was refused.
pub fn written<W: Write>(
    alloc: Global,
    book: Book,
    writer: &mut W,
) -> Option<(Run, Result<(), WriteFault>)>
    ensures told { IfSome result (λ r. IsToldRun book r.0) }
    ensures lines { IfSome result (λ r. Writes r.1
        (journal_lines r.0.net r.0.journals r.0.sources.items)
        (W.contents writer.old) (W.contents writer.new)) }
{
    let run = book.into_run(alloc).ok()??;
    let sources = run.sources.as_slice();
    let written = write_journals(alloc, &run.net, &run.journals, sources, writer);
    Some((run, written))
}
