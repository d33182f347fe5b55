//! What a port keeps of one connection.
ghost use Rattle.std.specs.Prelude.{◌≡◌, ◌≢◌, ◌<◌, ◌≤◌, ◌↔◌, IsNone, IsSomeAnd, IsErrOf};
ghost use Rattle.abt_rate.specs.Limits.{arrive_max, tau_max};

use crate::any_grant::AnyGrant;
use crate::fault::ArriveFault;
use abt_cell::Vc;
use abt_gcra::{Policer, Verdict};
use abt_ledger::Ledger;

/// What a port keeps of one connection: its grant and, if the port is its ingress, its policer.
#[must_use]
#[derive(Debug)]
pub struct Row {
    pub vc: Vc,
    pub grant: AnyGrant,
    pub policer: Option<Policer>,
}

impl Row {
    ghost use Rattle.std.specs.Option.{ForSome, option_map};
    ghost use Rattle.abt_node.specs.Table.{opening, arrival_by, policing_after};
    ghost use Rattle.abt_node.specs.Rows.{connection_of, row_held};

    /// The row of a connection that asked for nothing yet. With a tau the port is its ingress.
    pub fn opening(ledger: &mut Ledger, vc: Vc, tau: Option<u64>) -> Row
        requires { ForSome tau (λ t. t ≤ tau_max) }
        ensures vc { result.vc ≡ vc }
        ensures value { connection_of result ≡ opening tau }
        ensures same { ledger.new ≡ ledger.old }
    {
        Row {
            vc,
            grant: AnyGrant::first(ledger),
            policer: tau.map(|tau| Policer::new(tau)),
        }
    }

    /// Judges a cell by the rate that is held.
    pub fn apply_arrival(&mut self, at: u64) -> Result<Verdict, ArriveFault>
        ensures value { result ≡ arrival_by at (row_held self.old) self.old.policer }
        ensures row { self.new ≡ record self.old
            { policer = option_map (policing_after at (row_held self.old)) self.old.policer } }
        ensures known { result ≢ Err ArriveFault.UnknownVc }
        ensures not_ingress { IsErrOf result ArriveFault.NotIngress ↔ IsNone self.old.policer }
        ensures clock_back { IsErrOf result ArriveFault.ClockBack
            ↔ IsSomeAnd self.old.policer (λ p. at < p.clock) }
        ensures time_range { IsErrOf result ArriveFault.TimeRange
            ↔ IsSomeAnd self.old.policer (λ p. (p.clock ≤ at) × (arrive_max < at)) }
    {
        let held = self.grant.held();
        let Some(policer) = &mut self.policer else {
            return Err(ArriveFault::NotIngress);
        };
        Ok(policer.arrive(at, held)?)
    }
}
