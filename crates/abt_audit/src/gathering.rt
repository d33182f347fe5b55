//! Texts of readers, read one after the other.
ghost use Rattle.std.specs.Prelude.{◌⊎◌, map, IfOk, IfErr};
ghost use Rattle.abt_journal_text.specs.Books.{blank};
ghost use Rattle.abt_journal_text.specs.Entering.{IsOwn};
ghost use Rattle.abt_audit.specs.Audits.{AreRead, IsUnreadAmong};

use abt_journal_text::{Book, Cause, Spot, TextFault, read_text};
use std::alloc::Global;
use std::io::Read;

/// What the texts tell that some readers have left, one text each.
///
/// # Errors
/// The first line that can't come where it stands, or what kept it from being read.
pub fn read_all<R: Read + Drop>(alloc: Global, readers: Vec<R>) -> Result<Book, TextFault>
    ensures ok { IfOk result (AreRead 1 blank (map R.remaining readers.items)) }
    ensures err { IfErr result
        (λ fault. IsOwn fault.cause ⊎ IsUnreadAmong 1 blank (map R.remaining readers.items) fault) }
{
    let mut book = Book::new(alloc);
    let mut number = 1;
    for mut reader in readers {
        if let Err(fault) = read_text(alloc, &mut book, number, &mut reader) {
            return Err(fault);
        }
        let Some(next) = number.checked_add(1) else {
            return Err(endless(number));
        };
        number = next;
    }
    Ok(book)
}

// There are more texts than can be counted.
fn endless(text: u64) -> TextFault
    ensures { IsOwn result.cause }
{
    TextFault {
        spot: Spot { text, line: 1 },
        cause: Cause::Endless,
    }
}
