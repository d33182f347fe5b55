//! RM cells and their check, for C.
ghost use Rattle.std.specs.Prelude.{◌≡◌, ◌≢◌, ◌<◌, ◌≤◌, ◌↔◌, ℕ, length, MatchResult};
ghost use Rattle.abt_cell.specs.Codec.{read_of, written_of};
ghost use Rattle.abt_cell.specs.Polynomial.{unchecked_part, IsRemainder};
ghost use Rattle.abt_cell.specs.Reading.{Reads, IsWritten, IsFirstFault};
ghost use Rattle.abt_c.specs.Outcome.{done, rm_number, wrong_length, wrong_kind, vpi_range, first_fault};
ghost use Rattle.abt_c.specs.Records.{rm_in, record_of, HasKind, HasVpi, HasSeq, IsMessage};
ghost use Rattle.abt_cell.specs.declared.fault.RmFault.TheVariants.{SeqZero, RateOrder};

use crate::outcome::{self, DONE, WRONG_LENGTH};
use crate::record::AbtRm;
use abt_cell::{Cell, crc10, read_rm, write_rm};

/// The CRC-10 of a payload of 48 octets: of its first 374 bits.
#[unsafe(no_mangle)]
pub extern "C" fn abt_raw_crc10(payload: &[u8], check: &mut u16) -> u32
    ensures done { (result ≡ done) ↔ (length payload.now ≡ 48) }
    ensures wrong_length { (result ≡ wrong_length) ↔ (length payload.now ≢ 48) }
    ensures remainder { result ≡ done → IsRemainder (unchecked_part payload.now) check.new }
    ensures only { (r : ℕ) → result ≡ done → IsRemainder (unchecked_part payload.now) r → r ≡ check.new }
    ensures same { result ≢ done → check.new ≡ check.old }
{
    let Ok(payload) = payload.try_into() else {
        return WRONG_LENGTH;
    };
    *check = crc10(payload);
    DONE
}

/// Reads an RM cell of 52 octets.
#[unsafe(no_mangle)]
pub extern "C" fn abt_raw_rm_read(octets: &[u8], rm: &mut AbtRm) -> u32
    ensures wrong_length { (result ≡ wrong_length) ↔ (length octets.now ≢ 52) }
    ensures value { length octets.now ≡ 52 → MatchResult (read_of octets.now)
        (λ said. (result ≡ done) × (rm.new ≡ record_of said))
        (λ fault. (result ≡ rm_number fault) × (rm.new ≡ rm.old)) }
    ensures same { result ≢ done → rm.new ≡ rm.old }
{
    let Ok(cell) = Cell::from_octets(octets) else {
        return WRONG_LENGTH;
    };
    match read_rm(&cell) {
        Ok(said) => {
            *rm = AbtRm::of(&said);
            DONE
        }
        Err(fault) => outcome::of_rm_fault(fault),
    }
}

/// Writes the one cell of a request or an answer into 52 octets.
#[unsafe(no_mangle)]
pub extern "C" fn abt_raw_rm_write(rm: &AbtRm, octets: &mut [u8]) -> u32
    ensures wrong_length { (result ≡ wrong_length) ↔ (length octets.old ≢ 52) }
    ensures wrong_kind { (result ≡ wrong_kind) ↔ ((length octets.old ≡ 52) × ¬ HasKind rm.now) }
    ensures vpi_range { (result ≡ vpi_range) ↔ ((length octets.old ≡ 52) × HasKind rm.now × ¬ HasVpi rm.now) }
    ensures seq_zero { (result ≡ rm_number SeqZero) ↔
        ((length octets.old ≡ 52) × HasVpi rm.now × ¬ HasSeq rm.now) }
    ensures rate_order { (result ≡ rm_number RateOrder) ↔
        ((length octets.old ≡ 52) × HasSeq rm.now × ¬ IsMessage rm.now) }
    ensures done { (result ≡ done) ↔ ((length octets.old ≡ 52) × IsMessage rm.now) }
    ensures value { result ≡ done → octets.new ≡ written_of (rm_in rm.now) }
    ensures written { result ≡ done → IsWritten (rm_in rm.now) octets.new }
    ensures same { result ≢ done → octets.new ≡ octets.old }
{
    if octets.len() != 52 {
        return WRONG_LENGTH;
    }
    match rm.message() {
        Ok(said) => {
            octets.copy_from_slice(&write_rm(&said).to_octets());
            DONE
        }
        Err(lack) => outcome::of_lack(lack),
    }
}
