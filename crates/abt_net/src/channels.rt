//! The channels of a net, each of one connection.

ghost use Rattle.std.specs.Prelude.{◌≡◌, ◌↔◌, IsTrue, IfOk, Any};
ghost use Rattle.abt_net.specs.Faults.{RepeatsChannel};
ghost use Rattle.abt_net.specs.Search.{NamesLeast};

use crate::conn::Conn;
use abt_cell::Vc;
use std::alloc::{AllocError, Global};
use std::collections::BTreeSet;

// The lowest connection that has the channel of an earlier one, and whether memory was refused on
// the way to it.
pub(crate) fn first_repeat(alloc: Global, conns: &[Conn]) -> (Option<usize>, bool)
    ensures { NamesLeast (RepeatsChannel conns.now) result.0 }
{
    match first_repeat_by_set(alloc, conns) {
        Ok(repeat) => (repeat, false),
        Err(_) => (first_repeat_by_pairs(conns), true),
    }
}

// The lowest connection that has the channel of an earlier one, by a set of the channels so far.
fn first_repeat_by_set(alloc: Global, conns: &[Conn]) -> Result<Option<usize>, AllocError>
    ensures { IfOk result (NamesLeast (RepeatsChannel conns.now)) }
{
    let mut channels = BTreeSet::new(alloc);
    for (place, conn) in conns.iter().enumerate() {
        if !channels.insert(conn.vc)? {
            return Ok(Some(place));
        }
    }
    Ok(None)
}

// The lowest connection that has the channel of an earlier one, pair by pair and without memory.
fn first_repeat_by_pairs(conns: &[Conn]) -> Option<usize>
    ensures { NamesLeast (RepeatsChannel conns.now) result }
{
    for (place, conn) in conns.iter().enumerate() {
        if has_channel(&conns[..place], conn.vc) {
            return Some(place);
        }
    }
    None
}

// Whether one of the connections has the channel.
fn has_channel(conns: &[Conn], vc: Vc) -> bool
    ensures { IsTrue result ↔ Any (λ conn. conn.vc ≡ vc) conns.now }
{
    conns.iter().any(|conn| conn.vc == vc)
}
