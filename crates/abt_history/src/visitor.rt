//! A source at the first port of its path.
ghost use Rattle.std.specs.Prelude.{◌≡◌, ◌<◌, ◌+◌, ◌^◌, ℕ, length, slice_index, Some, IfOk, OnErr, IsErrOf};
ghost use mathlib.Core.List.{IsPrefix};
ghost use Rattle.abt_net.specs.declared.conn.Conn.{Conn};
ghost use Rattle.abt_net.specs.Topology.{conn_at};
ghost use Rattle.abt_journal.specs.declared.fault.ServeFault.{ServeFault};
ghost use Rattle.abt_journal.specs.Receipts.{seen_at};
ghost use Rattle.abt_history.specs.Modes.{When};
ghost use Rattle.abt_history.specs.Sites.{CanBring, HasBrought, IsHome, input_brought};
ghost use Rattle.abt_history.specs.Stations.{CameTo, HasServed};

use crate::brought::Brought;
use crate::deed::Deed;
use crate::keeping::Keeping;
use crate::station::StationOf;
use abt_cell::Vc;
use abt_journal::{PortReply, Seat, ServeFault};
use std::sync::Wait;

/// A source that brings something to its first port: its connection's number and channel, how many turns it has had, and what it has seen.
#[derive(Drop)]
pub(crate) struct Visitor<'site, K: Keeping> {
    pub(crate) conn: u16,
    pub(crate) vc: Vc,
    pub(crate) turns: u64,
    pub(crate) tally: &'site K::Tally,
    pub(crate) front: &'site K::Front,
}

impl<K: Keeping> StationOf<K> {
    // Has the port step with what a source brings, and notes first that the source came, and then the step. Its front is then what both
    // have seen.
    pub(crate) fn meet<R: Wait>(
        &mut self,
        rt: &R,
        seat: &mut Seat,
        visitor: &Visitor<K>,
        brought: &Brought,
    ) -> Result<(u64, PortReply), ServeFault>
        requires key { When K.kept
            (K.key visitor.now.tally.now ≡ length K.net.capacities + visitor.now.conn) }
        requires room { visitor.now.turns + 1 < 2 ^ 64 }
        requires home { When K.kept
            (IsHome K.net visitor.now.conn visitor.now.turns (K.log visitor.now.front.now)) }
        requires channel { When K.kept
            ((line : Conn) → conn_at K.net visitor.now.conn ≡ Some line → visitor.now.vc ≡ line.vc) }
        requires first { When K.kept ((line : Conn) → conn_at K.net visitor.now.conn ≡ Some line →
            self.old.port ≡ slice_index line.path 0) }
        requires can { When K.kept
            (CanBring K.net visitor.now.conn visitor.now.vc (K.log visitor.now.front.now) brought.now) }
        ensures served { IfOk result (λ r.
            HasServed self.old self.new seat.old seat.new
            (input_brought visitor.now.vc brought.now) r.0 r.1) }
        ensures came { IfOk result (λ r. When K.kept
            (CameTo K.net self.new.front self.old.port (input_brought visitor.now.vc brought.now) r.1)) }
        ensures back { IfOk result (λ r. When K.kept
            (HasBrought K.net visitor.now.conn (K.log visitor.now.front.now) self.new.front r.0
            brought.now)) }
        ensures own { IfOk result (λ r. When K.kept (IsPrefix self.old.front self.new.front)) }
        ensures wound { (seen found : ℕ) → IsErrOf result (ServeFault.Wound seen found)
            → (seen ≡ seen_at self.old.port seat.old.receipts) × (found ≡ length self.old.state.entries) ×
            (found < seen) }
        ensures same { OnErr result ((self.new ≡ self.old) × (seat.new ≡ seat.old)) }
    {
        let port = self.state.id();
        let deeds = self.state.entries().len() as u64;
        let input = brought.input(visitor.vc);
        let (place, reply) = seat.step(port, &mut self.state, input)?;
        let conn = visitor.conn;
        let going = Deed::Goes { conn };
        let out = K::note(
            rt,
            visitor.tally,
            visitor.front,
            &self.front,
            visitor.turns,
            &going,
        );
        let event = brought.event(conn);
        self.front = K::note(
            rt,
            &self.tally,
            &self.front,
            &out,
            deeds,
            &Deed::Happens(event),
        );
        Ok((place, reply))
    }
}
