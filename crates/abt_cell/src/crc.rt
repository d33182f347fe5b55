//! The check of a payload: a remainder of polynomials over the field of two elements.

ghost use Rattle.std.specs.Prelude.{◌≡◌, ℕ, ◌+◌, ◌*◌, ◌%◌, ◌^◌, ◌<◌, ◌≤◌, ◌↔◌, ◌==◌, IsTrue, length, take};
ghost use Rattle.abt_cell.specs.Division.{remainder_of};
ghost use Rattle.abt_cell.specs.Polynomial.{polynomial_of, unchecked_part, IsMultiple, IsRemainder};

use crate::fold::{below_10, below_14, below_23, below_38, below_64, with_block};
use crate::layout::{CHECK, PAYLOAD, PAYLOAD_LENGTH};

/// The CRC-10 of a payload: of its first 374 bits, for the last ten to hold (docs/FORMATS.md, "The check"). The last ten
/// bits are not read. A payload that holds its check there is divisible by the generator.
pub fn crc10(payload: &[u8; PAYLOAD_LENGTH]) -> u16
    ensures remainder { IsRemainder (unchecked_part payload.now) result }
    ensures only { (r : ℕ) → IsRemainder (unchecked_part payload.now) r → r ≡ result }
{
    without_check(payload, remainder(payload))
}

// The remainder without the last ten bits, which are their own remainder.
fn without_check(payload: &[u8; PAYLOAD_LENGTH], remainder: u16) -> u16
    requires { IsRemainder (polynomial_of payload.now) remainder }
    ensures remainder { IsRemainder (unchecked_part payload.now) result }
    ensures only { (r : ℕ) → IsRemainder (unchecked_part payload.now) r → r ≡ result }
{
    remainder ^ last_ten_bits(payload)
}

// What stands in the place of the check.
#[tactic(auto, using(crate::proofs::Payload::last_ten))]
fn last_ten_bits(payload: &[u8; PAYLOAD_LENGTH]) -> u16
    ensures { result ≡ polynomial_of payload.now % 2 ^ 10 }
{
    let place = CHECK - PAYLOAD;
    u16::from_be_bytes([payload[place], payload[place + 1]]) % 1024
}

// The remainder of the polynomial of a payload.
pub(crate) fn remainder(payload: &[u8]) -> u16
    requires { length payload.now ≡ 48 }
    ensures value { result ≡ remainder_of payload.now }
    ensures remainder { IsRemainder (polynomial_of payload.now) result }
    ensures only { (r : ℕ) → IsRemainder (polynomial_of payload.now) r → r ≡ result }
{
    let mut rest = 0;
    for index in 0..4usize {
        rest = with_block(rest, block_at(payload, 12 * index));
    }
    below_10(below_14(below_23(below_38(below_64(rest)))))
}

// Whether the polynomial of a payload is a multiple of the generator.
pub(crate) fn is_multiple(payload: &[u8]) -> bool
    requires { length payload.now ≡ 48 }
    ensures value { result ≡ (remainder_of payload.now == 0) }
    ensures multiple { IsTrue result ↔ IsMultiple (polynomial_of payload.now) }
{
    remainder(payload) == 0
}

// The polynomial of twelve octets from a place on.
#[tactic(auto, using(crate::proofs::Payload::twelve_more))]
fn block_at(octets: &[u8], place: usize) -> u128
    requires { place + 12 ≤ length octets.now }
    ensures low { result < 2 ^ 96 }
    ensures value { polynomial_of (take (place + 12) octets.now) ≡
        polynomial_of (take place octets.now) * 2 ^ 96 + result }
{
    let high = u32::from_be_bytes([
        octets[place],
        octets[place + 1],
        octets[place + 2],
        octets[place + 3],
    ]);
    let low = u64::from_be_bytes([
        octets[place + 4],
        octets[place + 5],
        octets[place + 6],
        octets[place + 7],
        octets[place + 8],
        octets[place + 9],
        octets[place + 10],
        octets[place + 11],
    ]);
    ((high as u128) << 64) + low as u128
}
