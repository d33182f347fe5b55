//! The index by which a net finds its connections.
ghost use Rattle.std.specs.Prelude.{◌≡◌, ◌≤◌, IfOk, length};
ghost use Rattle.indexmap.specs.IndexMap as index;
ghost use Rattle.abt_cell.specs.Channel.{same_channel};
ghost use Rattle.abt_rate.specs.Limits.{net_connections_max};
ghost use Rattle.abt_net.specs.Places.{IsIndexOf};

use crate::conn::Conn;
use abt_cell::Vc;
use indexmap::IndexMap;
use std::alloc::{AllocError, Global};

// The numbers of the connections, by their channels.
pub(crate) fn places_of(alloc: Global, conns: &[Conn]) -> Result<IndexMap<Vc, u16>, AllocError>
    requires { length conns.now ≤ net_connections_max }
    ensures { IfOk result (λ places. IsIndexOf places conns.now (length conns.now)) }
{
    let mut places = IndexMap::with_capacity(alloc, conns.len())?;
    for (place, conn) in conns.iter().enumerate() {
        places.insert(conn.vc, place as u16)?;
    }
    Ok(places)
}

// The number that the index has for a channel.
pub(crate) fn number_of(places: &IndexMap<Vc, u16>, vc: Vc) -> Option<u16>
    ensures { result ≡ index.get same_channel places.now vc }
{
    places.get(&vc).copied()
}
