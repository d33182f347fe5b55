//! Test cells, spelled out octet by octet as docs/FORMATS.md gives them ("Test cells"), and not by the writer.

mod check;
mod fields;
mod reading;
mod writing;

use super::{same, says};
use abt_cell::{Answer, Cell, Request, Rm, Vc};
use abt_rate::Rate;

/// A cell by its fields. The octets that carry nothing are as they are written.
#[derive(Clone, Copy)]
struct Spelled {
    header: u32,
    protocol: u8,
    flags: u8,
    ask: u16,
    floor: u16,
    seq: u32,
    check: u16,
}

/// A request for 600 cells per second on channel 100 of path 1.
const A: Spelled = Spelled {
    header: 0x0010_064c,
    protocol: 0x02,
    flags: 0x04,
    ask: 0x5258,
    floor: 0x0000,
    seq: 1,
    check: 0x038c,
};

impl Spelled {
    fn cell(self) -> Cell {
        let mut octets = [0; 52];
        octets[0..4].copy_from_slice(&self.header.to_be_bytes());
        octets[4] = self.protocol;
        octets[5] = self.flags;
        octets[6..8].copy_from_slice(&self.ask.to_be_bytes());
        octets[8..10].copy_from_slice(&self.floor.to_be_bytes());
        octets[16..20].copy_from_slice(&self.seq.to_be_bytes());
        octets[20..50].fill(0x6a);
        octets[50..52].copy_from_slice(&self.check.to_be_bytes());
        match Cell::from_octets(&octets) {
            Ok(cell) => cell,
            Err(_) => unreachable!(),
        }
    }

    fn on_channel_101(self, check: u16) -> Spelled {
        Spelled {
            header: 0x0010_065c,
            check,
            ..self
        }
    }
}

/// A request on path 1.
fn request(vci: u16, seq: u32, floor: u16, ask: u16) -> Option<Request> {
    Request::new(
        Vc::new(1, vci)?,
        seq,
        Rate::from_code(floor),
        Rate::from_code(ask),
    )
}

/// The six test cells with what each says: A, B, B2, LA, NB and YA.
fn test_cells() -> Option<[(Spelled, Rm); 6]> {
    let a = request(100, 1, 0x0000, 0x5258)?;
    let b = request(101, 1, 0x0000, 0x5258)?;
    let b2 = request(101, 2, 0x0000, 0x5120)?;
    let la = request(100, 2, 0x5120, 0x5120)?;
    let second = Spelled {
        ask: 0x5120,
        seq: 2,
        ..A
    };
    let no = Spelled { flags: 0xac, ..A };
    let yes = Spelled {
        flags: 0x8c,
        check: 0x0165,
        ..A
    };
    let lower = Spelled {
        floor: 0x5120,
        check: 0x0086,
        ..second
    };
    Some([
        (A, Rm::Request(a)),
        (A.on_channel_101(0x038c), Rm::Request(b)),
        (second.on_channel_101(0x0214), Rm::Request(b2)),
        (lower, Rm::Request(la)),
        (no.on_channel_101(0x008b), Rm::Answer(Answer::of(&b, false))),
        (yes, Rm::Answer(Answer::of(&a, true))),
    ])
}

/// Cells that differ from A where a reader takes any value, with the checks that they then have.
fn cells_that_read_as_a() -> [Cell; 5] {
    let congested = Spelled {
        flags: 0x24,
        check: 0x0262,
        ..A
    };
    let managed = Spelled {
        flags: 0x44,
        check: 0x0050,
        ..A
    };
    let reserved = Spelled {
        flags: 0x07,
        check: 0x02b4,
        ..A
    };
    let reserved_code = Spelled {
        ask: 0xd258,
        check: 0x01e9,
        ..A
    };
    let lost_first = Spelled {
        header: 0x0010_064d,
        ..A
    };
    [
        congested.cell(),
        managed.cell(),
        reserved.cell(),
        reserved_code.cell(),
        lost_first.cell(),
    ]
}
