ghost use Rattle.std.specs.Prelude.{◌<◌};

use super::{A, Spelled, cells_that_read_as_a, request, same, test_cells};
use abt_cell::{Cell, Request, Rm, RmFault, Vc, read_rm};
use std::fmt::Debug;
use std::process::Abort;
use std::test::Fail;

fn reads(rt: &impl Abort, cell: &Cell, expected: Result<Rm, RmFault>) {
    same(rt, &read_rm(cell), &expected);
}

#[test]
fn each_test_cell_says_its_request_or_answer(rt: HostRuntime) -> Result<(), Fail> {
    for (spelled, rm) in test_cells().ok_or("a request")? {
        reads(&rt, &spelled.cell(), Ok(rm));
    }
    Ok(())
}

#[test]
fn a_changed_cell_gives_its_first_fault(rt: HostRuntime) {
    let elastic = Spelled { flags: 0x00, ..A };
    let rows = [
        (
            Spelled {
                header: 0x0010_064a,
                ..A
            },
            RmFault::NotRm,
        ),
        (elastic, RmFault::Crc),
        (
            Spelled {
                check: 0x023d,
                ..elastic
            },
            RmFault::Elastic,
        ),
        (
            Spelled {
                protocol: 0x01,
                check: 0x0085,
                ..A
            },
            RmFault::Protocol,
        ),
        (
            Spelled {
                flags: 0x14,
                check: 0x037b,
                ..A
            },
            RmFault::Maintenance,
        ),
        (
            Spelled {
                flags: 0x84,
                check: 0x0207,
                ..A
            },
            RmFault::Direction,
        ),
        (
            Spelled {
                seq: 0,
                check: 0x0138,
                ..A
            },
            RmFault::SeqZero,
        ),
        (
            Spelled {
                ask: 0x0000,
                floor: 0x5258,
                check: 0x00c7,
                ..A
            },
            RmFault::RateOrder,
        ),
    ];
    for (spelled, fault) in rows {
        reads(&rt, &spelled.cell(), Err(fault));
    }
}

#[test]
fn what_carries_nothing_is_taken_at_any_value(rt: HostRuntime) -> Result<(), Fail> {
    let a = request(100, 1, 0x0000, 0x5258).ok_or("a request")?;
    for cell in cells_that_read_as_a() {
        reads(&rt, &cell, Ok(Rm::Request(a)));
    }
    Ok(())
}

// The check shows up to three changed bits, and bursts of up to ten. By division of polynomials (a script's, not the program's) these
// are divisible by the generator: x^13 + x^9 + x^8 + 1, four bits of the asked rate, and the generator itself, a burst of eleven.
#[test]
fn four_bits_or_a_burst_of_eleven_can_pass(rt: HostRuntime) -> Result<(), Fail> {
    reads(&rt, &Spelled { ask: 0x5259, ..A }.cell(), Err(RmFault::Crc));
    for ask in [0x7159, 0x546b] {
        let other = request(100, 1, 0x0000, ask).ok_or("a request")?;
        reads(&rt, &Spelled { ask, ..A }.cell(), Ok(Rm::Request(other)));
    }
    Ok(())
}

// Each of the 416 bits of cell A changed: 384 of the payload, which the check covers, and of the header 3 of the payload
// type, 1 of the loss priority, and 28 of the channel.
#[test]
fn a_changed_bit_is_told_by_where_it_lies(rt: HostRuntime) -> Result<(), Fail> {
    let a = request(100, 1, 0x0000, 0x5258).ok_or("a request")?;
    for place in 0..52usize {
        for bit in 0..8u32 {
            tells_of_a_bit(&rt, &a, place, bit)?;
        }
    }
    Ok(())
}

fn tells_of_a_bit(rt: &impl Abort, a: &Request, place: usize, bit: u32) -> Result<(), Fail>
    requires place { place < 52 }
    requires bit { bit < 8 }
{
    let octets = a_with_a_bit_changed(place, bit);
    let cell = Cell::from_octets(&octets).ok().ok_or("52 octets")?;
    let expected = told_of_a_bit(a, cell.vc(), place, bit)?;
    same_at(rt, &read_rm(&cell), &expected, place, bit);
    let is_of_the_channel = place < 3 || place == 3 && bit >= 4;
    same_at(rt, &(cell.vc() != a.vc()), &is_of_the_channel, place, bit);
    Ok(())
}

fn a_with_a_bit_changed(place: usize, bit: u32) -> [u8; 52]
    requires place { place < 52 }
    requires bit { bit < 8 }
{
    let mut octets = A.cell().to_octets();
    octets[place] ^= 1 << bit;
    octets
}

// What is read where a bit of request A is changed, which then is one on this channel if it is read at all.
fn told_of_a_bit(a: &Request, vc: Vc, place: usize, bit: u32) -> Result<Result<Rm, RmFault>, Fail> {
    let here = Request::new(vc, a.seq(), a.floor(), a.ask()).ok_or("a request")?;
    Ok(if place >= 4 {
        Err(RmFault::Crc)
    } else if place == 3 && 1 <= bit && bit <= 3 {
        Err(RmFault::NotRm)
    } else {
        Ok(Rm::Request(here))
    })
}

fn same_at<T: PartialEq + Debug>(rt: &impl Abort, found: &T, expected: &T, place: usize, bit: u32) {
    assert_eq!(rt; *found, *expected, "bit {bit} of place {place}");
}
