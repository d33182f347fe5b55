//! The text of `abt write`.
ghost use Rattle.std.specs.Prelude.{◌≡◌, ◌⊎◌, Ok, Err, IfOk, IfErr, IsOkAnd, length, string_bytes};
ghost use Rattle.abt_cell.specs.Codec.{read_of, written_of};
ghost use Rattle.abt_text.specs.Text.{◌⋅◌, newline};
ghost use Rattle.abt_perform.specs.CellText.{message_hex, message_of};
ghost use Rattle.abt_codes.specs.Message.{rm_in};
ghost use Rattle.abt_codes.specs.declared.fault.CodesFault.TheVariants.{Memory};

use crate::fault::CodesFault;
use crate::message::{MessageWords, rm_in};
use abt_cell::{Rm, read_rm, write_rm};
use abt_perform::message_hex;
use std::alloc::{AllocError, Global};

/// The cell that is written for the message that words say, as 104 hexadecimal digits on a line.
pub fn write_text(alloc: Global, words: &MessageWords) -> Result<String, CodesFault>
    ensures ok { IfOk result
        (λ text. IsOkAnd (rm_in words.now) (λ rm. string_bytes text ≡ message_hex rm ⋅ newline)) }
    ensures err { IfErr result (λ fault. (fault ≡ Memory) ⊎ (rm_in words.now ≡ Err fault)) }
{
    let rm = rm_in(words)?;
    Ok(cell_line(alloc, &rm)?)
}

fn cell_line(alloc: Global, rm: &Rm) -> Result<String, AllocError>
    ensures { IfOk result (λ line. string_bytes line ≡ message_hex rm.now ⋅ newline) }
{
    let hex = message_hex(alloc, rm)?;
    format!(in alloc; "{hex}\n")
}

/// The text of the cell that is written for a message is read as that message, by `abt cell` and by `abt port`.
pub fn written_is_read(rm: &Rm)
    ensures { message_of (message_hex rm.now) ≡ Ok rm.now }
{
    let cell = write_rm(rm);
    let _read = read_rm(&cell);
    octets_are_read(&cell.to_octets(), rm);
}

// The text of the octets that were written is read as the message, if the octets are.
fn octets_are_read(octets: &[u8], rm: &Rm)
    requires written { octets.now ≡ written_of rm.now }
    requires long { length octets.now ≡ 52 }
    requires read { read_of octets.now ≡ Ok rm.now }
    ensures { message_of (message_hex rm.now) ≡ Ok rm.now }
{
    let _first = octets.first();
}
