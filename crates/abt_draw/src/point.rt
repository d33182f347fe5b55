//! Where the shapes of a picture stand.
ghost use Rattle.std.specs.Prelude.{Some};

use std::fmt;

/// A point of a picture, in tenths of a unit to the right of its left edge and below its upper edge.
#[derive(Clone, Copy, Debug, PartialEq, Eq)]
pub struct Point {
    /// To the right.
    pub x: u64,
    /// Below.
    pub y: u64,
}

/// How large a shape is, in tenths of a unit.
#[derive(Clone, Copy, Debug, PartialEq, Eq)]
pub struct Size {
    /// From left to right.
    pub width: u64,
    /// From above to below.
    pub height: u64,
}

/// A number of tenths, which shows itself as a decimal fraction.
#[derive(Clone, Copy, Debug, PartialEq, Eq)]
pub struct Tenths(pub u64);

impl fmt::Display for Tenths {
    ghost use Rattle.abt_draw.specs.Elements.{tenths_text};

    ghost output = { λ tenths. Some (tenths_text tenths.0) };

    fn fmt<W: fmt::Write>(&self, f: &mut fmt::Formatter<W>) -> fmt::Result {
        let whole = self.0 / 10;
        let rest = self.0 % 10;
        write!(f, "{whole}.{rest}")
    }
}
