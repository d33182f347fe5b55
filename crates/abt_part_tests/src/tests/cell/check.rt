use super::{A, same};
use abt_cell::crc10;
use std::process::Abort;

fn has_check(rt: &impl Abort, payload: &[u8; 48], check: u16) {
    same(rt, &crc10(payload), &check);
}

#[test]
fn the_check_of_no_bits_is_nothing(rt: HostRuntime) {
    has_check(&rt, &[0; 48], 0);
}

// x^10 and x^11 modulo the generator, by hand.
#[test]
fn the_lowest_bits_give_the_generator_and_its_double(rt: HostRuntime) {
    let mut payload = [0; 48];
    payload[46] = 0x04;
    has_check(&rt, &payload, 0x233);
    payload[46] = 0x08;
    has_check(&rt, &payload, 0x255);
}

// The catalogue of parametrised CRC algorithms gives 199 hex for CRC-10/ATM over the nine digits 123456789. Here they are
// the last 72 of the 374 bits, so each octet is its digit shifted by two; zeros before them change nothing.
#[test]
fn nine_digits_have_the_check_of_the_catalogue(rt: HostRuntime) {
    let mut payload = [0; 48];
    payload[38..47].copy_from_slice(&[0xc4, 0xc8, 0xcc, 0xd0, 0xd4, 0xd8, 0xdc, 0xe0, 0xe4]);
    has_check(&rt, &payload, 0x199);
}

#[test]
fn the_last_ten_bits_are_not_read(rt: HostRuntime) {
    let mut payload = A.cell().payload();
    has_check(&rt, &payload, 0x038c);
    payload[46] ^= 0x03;
    payload[47] ^= 0xff;
    has_check(&rt, &payload, 0x038c);
}
