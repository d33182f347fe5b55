//! Sets of hops.
ghost use Rattle.std.specs.Prelude.{◌≡◌, ◌<◌, ◌≤◌, ◌==◌};
ghost use Rattle.std.specs.Int.{bit_at};
ghost use Rattle.abt_index.specs.Hops.{none, with_hop, has_hop};

/// The hops of a path at which something happened. A path has 16 hops at most, and hops count from 1.
#[derive(Clone, Copy, Debug, PartialEq, Eq)]
pub(crate) struct Hops {
    // Bit number `hop` stands for a hop.
    pub(crate) bits: u32,
}

// Whether a bit of a number is set; bits from number 32 on never are.
fn has_bit(bits: u32, number: u16) -> bool
    ensures { result ≡ (bit_at bits number == 1) }
{
    number < 32 && bits >> number & 1 == 1
}

impl Hops {
    // No hop.
    pub(crate) fn none() -> Hops
        ensures { result ≡ none }
    {
        Hops { bits: 0 }
    }

    // The hops with one more, which is one that a path can have.
    pub(crate) fn with(self, hop: u16) -> Hops
        ensures value { hop < 32 → result ≡ with_hop self hop }
        ensures same { 32 ≤ hop → result ≡ self }
    {
        if hop < 32 {
            Hops {
                bits: self.bits | 1 << hop,
            }
        } else {
            self
        }
    }

    // Whether a hop is among them.
    pub(crate) fn has(self, hop: u16) -> bool
        ensures { result ≡ has_hop self hop }
    {
        has_bit(self.bits, hop)
    }
}
