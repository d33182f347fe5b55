//! The blocks of stacks.
ghost use Rattle.std.specs.Prelude.{◌≡◌, ℕ, ◌≤◌, ◌^◌, sum, IfOk};
ghost use Rattle.abt_draw.specs.Blocks as spec;
ghost use Rattle.abt_draw.specs.Blocks.{AreBlocks, AreBelow};

use abt_model::Sequence;
use std::alloc::{AllocError, Global};

/// How high a band is drawn, in tenths of a unit.
pub const BAND_HEIGHT: u64 = 600;

/// What a connection holds in a band, in tenths of a unit above the line at which the band begins.
#[derive(Clone, Copy, Debug, PartialEq, Eq)]
pub struct Block {
    /// Its lower edge.
    pub bottom: u64,
    /// Its upper edge.
    pub top: u64,
}

/// How high a rate is drawn in a band that has room for so much, both in units of 1/512 cell/s; nothing is higher than the band.
pub fn height_of(value: u64, most: u64) -> u64
    ensures value { value ≤ most → result ≡ spec.height_of value most }
    ensures within { result ≤ 600 }
{
    if most == 0 {
        return 0;
    }
    let height = u128::from(value.min(most)) * 600 / u128::from(most);
    height as u64
}

/// The blocks of a stack, the first connection's first. What goes beyond the room of the band isn't drawn.
///
/// # Errors
/// If memory is refused.
pub fn blocks_of(alloc: Global, stack: &[u64], most: u64) -> Result<Sequence<Block>, AllocError>
    ensures blocks { sum stack.now ≤ most → IfOk result (AreBlocks stack.now most) }
    ensures below { (capacity : ℕ) → sum stack.now ≤ capacity → capacity ≤ most →
        IfOk result (λ blocks. AreBelow blocks (spec.height_of capacity most)) }
{
    let mut blocks = Sequence::new(alloc);
    let mut below: u64 = 0;
    for place in 0..stack.len() {
        let above = below.saturating_add(stack[place]);
        blocks.push(Block {
            bottom: height_of(below, most),
            top: height_of(above, most),
        })?;
        below = above;
    }
    Ok(blocks)
}
