//! Messages in order, of which any can be taken.
ghost use Rattle.std.specs.Prelude.{◌≡◌, ◌<◌, ◌≤◌, ◌+◌, ◌++◌, [], ◌∷◌, length, vec_len, slice_index_or, IfSome, IfNone, OnOk, OnErr, take, Vec};
ghost use Rattle.abt_play.specs.UnderWay.{IsTaken, joined};
ghost use Rattle.std.specs.declared.alloc.Global.{Global as Allocator};

use crate::parcel::Parcel;
use std::alloc::{AllocError, Global};
use std::marker::Model;

/// How many messages a block has room for.
const BLOCK: usize = 256;

/// Messages in the order in which they came. They lie in blocks, so that one is found and taken out without going over all.
#[derive(Drop)]
pub(crate) struct Blocks {
    alloc: Global,
    blocks: Vec<Vec<Parcel>>,
    len: usize,
}

impl Model for Blocks {
    ghost use Rattle.std.specs.Prelude.{◌≡◌, List, length};
    ghost use Rattle.abt_play.specs.UnderWay.{joined};
    ghost use Rattle.abt_play.specs.declared.parcel.Parcel.{Parcel};

    ghost Value = { List Parcel };

    ghost view = { λ b. joined b.blocks.items };

    ghost invariant = { λ b. b.len ≡ length (joined b.blocks.items) };
}

impl Blocks {
    // No messages.
    pub(crate) fn new(alloc: Global) -> Blocks
        ensures { result ≡ [] }
    {
        Blocks {
            alloc,
            blocks: Vec::new(alloc),
            len: 0,
        }
    }

    // How many messages there are.
    pub(crate) fn len(&self) -> usize
        ensures { result ≡ length self.now }
    {
        self.len
    }

    // Adds a message behind the others.
    pub(crate) fn push(&mut self, parcel: &Parcel) -> Result<(), AllocError>
        ensures ok { OnOk result (self.new ≡ self.old ++ parcel.now ∷ []) }
        ensures err { OnErr result (self.new ≡ self.old) }
    {
        let Some(len) = self.len.checked_add(1) else {
            return Err(AllocError);
        };
        make_room(&mut self.blocks, self.alloc)?;
        push_last(&mut self.blocks, parcel)?;
        self.len = len;
        Ok(())
    }

    // Takes a message out, by its place.
    pub(crate) fn take(&mut self, place: usize) -> Option<Parcel>
        ensures some { IfSome result (IsTaken place self.old self.new) }
        ensures none { IfNone result (length self.old ≤ place) }
        ensures same { IfNone result (self.new ≡ self.old) }
    {
        let (block, within) = place_in(self.blocks.as_slice(), place)?;
        let parcel = taken(&mut self.blocks, block, within);
        self.len -= 1;
        Some(parcel)
    }
}

// Has a block at the end that has room.
fn make_room(blocks: &mut Vec<Vec<Parcel>>, alloc: Global) -> Result<(), AllocError>
    ensures ok { OnOk result (0 < vec_len blocks.new) }
    ensures same { joined blocks.new.items ≡ joined blocks.old.items }
{
    let is_full = match blocks.last() {
        Some(last) => last.len() >= BLOCK,
        None => true,
    };
    if is_full {
        blocks.push(Vec::with_capacity(alloc, BLOCK)?)?;
    }
    Ok(())
}

// Adds a message to the last block.
fn push_last(blocks: &mut Vec<Vec<Parcel>>, parcel: &Parcel) -> Result<(), AllocError>
    requires { 0 < vec_len blocks.old }
    ensures ok { OnOk result (joined blocks.new.items ≡ joined blocks.old.items ++ parcel.now ∷ []) }
    ensures err { OnErr result (joined blocks.new.items ≡ joined blocks.old.items) }
{
    let last = blocks.len() - 1;
    // Names the type of the event, without which the checker can't follow it.
    let Parcel { event, repeats } = *parcel;
    blocks[last].push(Parcel { event, repeats })?;
    Ok(())
}

// The block that has the message of a place, and its place there; none if there is no such message.
fn place_in(blocks: &[Vec<Parcel>], place: usize) -> Option<(usize, usize)>
    ensures some { IfSome result (λ at. at.0 < length blocks.now) }
    ensures within { IfSome result (λ at. (block : Vec Parcel Allocator) →
        at.1 < length (slice_index_or blocks.now at.0 block).items) }
    ensures sum { IfSome result (λ at. length (joined (take at.0 blocks.now)) + at.1 ≡ place) }
    ensures none { IfNone result (length (joined blocks.now) ≤ place) }
{
    let mut within = place;
    for (number, block) in blocks.iter().enumerate() {
        if within < block.len() {
            return Some((number, within));
        }
        within -= block.len();
    }
    None
}

// Takes a message out of a block, and the block with the last of its messages.
fn taken(blocks: &mut Vec<Vec<Parcel>>, block: usize, within: usize) -> Parcel
    requires block { block < vec_len blocks.old }
    requires within { (none : Vec Parcel Allocator) → within < length (slice_index_or blocks.old.items block none).items }
    ensures { IsTaken (length (joined (take block blocks.old.items)) + within) (joined blocks.old.items)
        (joined blocks.new.items) result }
{
    let parcel = blocks[block].remove(within);
    if blocks[block].is_empty() {
        let _empty = blocks.remove(block);
    }
    parcel
}
