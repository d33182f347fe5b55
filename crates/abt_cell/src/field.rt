//! Fields of a cell, by their places.

ghost use Rattle.std.specs.Prelude.{◌≡◌, ◌<◌, ◌↔◌, slice_index, IsTrue};
ghost use Rattle.abt_cell.specs.Layout.{word_at, long_at, flag};

use crate::cell::Cell;
use crate::layout::FLAGS;

impl Cell {
    // One octet.
    pub(crate) fn octet(&self, place: usize) -> u8
        requires { place < 52 }
        ensures { result ≡ slice_index self.now place }
    {
        self.octets[place]
    }

    // Two octets from a place on, the first the higher.
    pub(crate) fn word_at(&self, place: usize) -> u16
        requires { place < 51 }
        ensures { result ≡ word_at self.now place }
    {
        u16::from_be_bytes([self.octets[place], self.octets[place + 1]])
    }

    // Four octets from a place on, the first the highest.
    pub(crate) fn long_at(&self, place: usize) -> u32
        requires { place < 49 }
        ensures { result ≡ long_at self.now place }
    {
        self.word_at(place) as u32 * 65536 + self.word_at(place + 2) as u32
    }

    // Whether a flag is set.
    pub(crate) fn flag(&self, place: u32) -> bool
        requires { place < 8 }
        ensures { IsTrue result ↔ (flag self.now place ≡ 1) }
    {
        (self.octets[FLAGS] >> place) % 2 == 1
    }
}
