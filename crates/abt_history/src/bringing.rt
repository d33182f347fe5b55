//! What a source brings to its first port, noted in both journals.
ghost use Rattle.std.specs.Prelude.{◌≡◌, ◌<◌, ◌∷◌, ◌++◌, ℕ, [], length, slice_index, Some, IfOk, OnErr, IsErrOf};
ghost use mathlib.Core.List.{IsPrefix};
ghost use Rattle.abt_cell.specs.Message.{Terms};
ghost use Rattle.abt_cell.specs.declared.message.Rm.TheVariants as rm;
ghost use Rattle.abt_net.specs.declared.conn.Conn.{Conn};
ghost use Rattle.abt_net.specs.Topology.{conn_at};
ghost use Rattle.abt_journal.specs.declared.fault.ServeFault.{ServeFault};
ghost use Rattle.abt_journal.specs.Receipts.{seen_at};
ghost use Rattle.abt_weave.specs.Projections.{past_of};
ghost use Rattle.abt_serving.specs.Followed.{FollowsOn};
ghost use Rattle.abt_history.specs.Histories.{happened};
ghost use Rattle.abt_history.specs.Modes.{When};
ghost use Rattle.abt_history.specs.Sites.{CanBring, input_brought, entry_brought, arrived_with};
ghost use Rattle.abt_history.specs.Stations.{HasServed};

use crate::brought::Brought;
use crate::keeping::Keeping;
use crate::site::SiteOf;
use crate::station::StationOf;
use crate::visitor::Visitor;
use abt_journal::{PortReply, Seat, ServeFault};
use std::sync::Wait;

impl<K: Keeping> SiteOf<K> {
    /// Has the first port of the path serve what the source brings, and notes that in both journals. The result is the place of the
    /// port's step, and its reply.
    ///
    /// # Errors
    /// As [`Seat::step`], and want of memory, which leave all as it was.
    pub fn bring<R: Wait>(
        &mut self,
        rt: &R,
        station: &mut StationOf<K>,
        seat: &mut Seat,
        brought: &Brought,
    ) -> Result<(u64, PortReply), ServeFault>
        requires first { When K.kept ((line : Conn) → conn_at K.net self.old.conn ≡ Some line →
            station.old.port ≡ slice_index line.path 0) }
        requires can { When K.kept (CanBring K.net self.old.conn self.old.vc self.old.front brought.now) }
        ensures site { IfOk result (λ r. self.new ≡ record {
          conn = self.old.conn;
          vc = self.old.vc;
          actor = self.old.actor;
          entries = self.old.entries ++ entry_brought r.0 brought.now ∷ [];
          arrived = arrived_with self.old.arrived brought.now;
          front = station.new.front;
        }) }
        ensures served { IfOk result (λ r.
            HasServed station.old station.new seat.old seat.new
            (input_brought self.old.vc brought.now) r.0 r.1) }
        ensures seen { IfOk result (λ r. When K.kept
            (IsPrefix self.old.front self.new.front × IsPrefix station.old.front station.new.front)) }
        ensures follows { IfOk result (λ r. When K.kept
            ((request : Terms) → brought.now ≡ Brought.Request request →
            FollowsOn K.net (past_of K.net (happened station.new.front)) station.old.port
            (rm.Request request) r.1)) }
        ensures wound { (seen found : ℕ) → IsErrOf result (ServeFault.Wound seen found)
            → (seen ≡ seen_at station.old.port seat.old.receipts) ×
            (found ≡ length station.old.state.entries) × (found < seen) }
        ensures same { OnErr result ((self.new ≡ self.old) × (station.new ≡ station.old) × (seat.new ≡
            seat.old)) }
    {
        self.entries.reserve(1)?;
        let visitor = Visitor {
            conn: self.conn,
            vc: self.vc,
            turns: self.entries.as_slice().len() as u64,
            tally: &self.tally,
            front: &self.front,
        };
        let (place, reply) = station.meet(rt, seat, &visitor, brought)?;
        self.front = station.front();
        self.arrived = brought.arrived(self.arrived);
        self.entries.push_reserved(brought.entry(place));
        Ok((place, reply))
    }
}
