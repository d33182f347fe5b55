//! Nets.

ghost use Rattle.std.specs.Prelude.{◌≡◌, ◌≢◌, ◌<◌, ◌↔◌, ◌⊎◌, ℕ, Some, IfOk, IfSome, IsOk, IsErrOf, length};
ghost use Rattle.abt_net.specs.Faults.{IsFirstFault};
ghost use Rattle.abt_net.specs.Topology.{IsWithinRules, channel_at};
ghost use Rattle.abt_net.specs.declared.fault.NetFault.{NetFault};

use crate::conn::Conn;
use crate::fault::NetFault;
use crate::places::{number_of, places_of};
use crate::rules::first_fault;
use abt_cell::Vc;
use indexmap::IndexMap;
use std::alloc::Global;
use std::marker::Model;

/// A net: ports and connections, both numbered from 0 by their place, within the rules that
/// docs/RULES.md, "Limits", gives.
#[derive(Debug, Drop)]
pub struct Net {
    capacities: Vec<u64>,
    conns: Vec<Conn>,
    // The number of each connection, by its channel.
    places: IndexMap<Vc, u16>,
}

impl Model for Net {
    ghost use Rattle.abt_net.specs.Places.{IsIndexed};
    ghost use Rattle.abt_net.specs.Topology.{Topology};

    ghost Value = { Topology };

    ghost view = { λ n. record { capacities = n.capacities.items; conns = n.conns.items } };

    ghost invariant = { λ n. IsIndexed (record { capacities = n.capacities.items; conns = n.conns.items }) n.places };
}

impl Net {
    /// The net of these ports, by their capacities in units of 1/512 cell/s, and of these
    /// connections. Faults are looked for in the order of [`NetFault`], and each at the lowest
    /// connection. Want of memory comes last: the others are found without it too.
    pub fn build(alloc: Global, capacities: Vec<u64>, conns: Vec<Conn>) -> Result<Net, NetFault>
        ensures value { IfOk result
            (λ net. net ≡ record { capacities = capacities.items; conns = conns.items }) }

        // A net within the rules, and no other, is Ok, or else memory was refused.
        ensures ok { (IsOk result ⊎ IsErrOf result NetFault.Memory)
            ↔ IsWithinRules (record { capacities = capacities.items; conns = conns.items }) }
        ensures err { (fault : NetFault) → fault ≢ NetFault.Memory → IsErrOf result fault
            ↔ IsFirstFault (record { capacities = capacities.items; conns = conns.items }) fault }
    {
        if let Some(fault) = first_fault(alloc, &capacities, &conns) {
            return Err(fault);
        }
        let Ok(places) = places_of(alloc, &conns) else {
            return Err(NetFault::Memory);
        };
        Ok(Net {
            capacities,
            conns,
            places,
        })
    }

    /// The capacities of the ports, in units of 1/512 cell/s.
    pub fn capacities(&self) -> &[u64]
        ensures value { result.now ≡ self.now.capacities }
        ensures rules { IsWithinRules self.now }
    {
        self.capacities.as_slice()
    }

    /// The connections.
    pub fn conns(&self) -> &[Conn]
        ensures value { result.now ≡ self.now.conns }
        ensures rules { IsWithinRules self.now }
    {
        self.conns.as_slice()
    }

    /// The number of the connection that has this channel.
    pub fn find(&self, vc: Vc) -> Option<u16>
        ensures value { IfSome result (λ c. channel_at self.now.conns c ≡ Some vc) }
        ensures within { IfSome result (λ c. c < length self.now.conns) }
        ensures only { (c : ℕ) → channel_at self.now.conns c ≡ Some vc → result ≡ Some c }
        ensures rules { IsWithinRules self.now }
    {
        number_of(&self.places, vc)
    }
}
