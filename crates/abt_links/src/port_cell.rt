//! A port under a lock.
ghost use Rattle.std.specs.Prelude.{◌≡◌, ◌+◌, ◌<◌, ◌≤◌, ◌∷◌, ◌++◌, ℕ, [], IfOk, OnErr, IsErrOf, Some, slice_index};
ghost use Rattle.std.specs.Sync.Mutex.{mutex_guard_value};
ghost use Rattle.abt_cell.specs.Message.{Terms};
ghost use Rattle.abt_cell.specs.declared.message.Rm.TheVariants as rm;
ghost use Rattle.abt_net.specs.Topology.{conn_at};
ghost use Rattle.abt_net.specs.declared.conn.Conn.{Conn};
ghost use Rattle.abt_journal.specs.Receipts.{seen_at};
ghost use Rattle.abt_journal.specs.declared.fault.ServeFault.{ServeFault};
ghost use Rattle.abt_journal.specs.declared.input.PortInput.TheVariants.{Capacity};
ghost use Rattle.abt_weave.specs.Projections.{past_of};
ghost use Rattle.abt_serving.specs.Followed.{FollowsOn};
ghost use Rattle.abt_serving.specs.Messages as messages;
ghost use Rattle.abt_history.specs.Histories.{happened};
ghost use Rattle.abt_history.specs.Modes.{When};
ghost use Rattle.abt_history.specs.Sites.{CanBring, input_brought, entry_brought, arrived_with};
ghost use Rattle.abt_links.specs.Receiving.{HasReceipt};

use crate::gate::Gate;
use abt_history::{Brought, Keeping, LetterOf, NotKept, SiteOf, StationOf};
use abt_journal::{PortInput, PortReply, PortState, Seat, ServeFault};
use std::sync::{Mutex, MutexGuard, Wait};

/// A port with its journal under a lock, beside the port's number (docs/RULES.md, "Journals"), in a run that keeps its history, or
/// keeps none.
///
/// No contract can say what the lock holds. What a call did there is told by the caller's receipts, once
/// [`gather`] has found them all in the journals.
///
/// [`gather`]: abt_journal::gather
#[derive(Drop)]
pub struct PortCellOf<K: Keeping> {
    port: u16,
    station: Mutex<StationOf<K>>,
}

/// A port of a run that keeps no history.
pub type PortCell = PortCellOf<NotKept>;

impl PortCellOf<NotKept> {
    /// The port of this state, with its journal.
    pub fn new(state: PortState) -> PortCell
        ensures { result.port ≡ state.table.id }
    {
        PortCellOf {
            port: state.id(),
            station: Mutex::new(StationOf::not_kept(state)),
        }
    }

    /// The port with its journal as the last call left it.
    pub fn into_state(self) -> PortState {
        self.station.into_inner().into_port()
    }

    /// Has one step done by the port while its lock is held, and keeps the receipt in the caller's seat. It may wait for
    /// the lock. A journal that is shorter than what the caller has seen of it is refused before memory is looked for.
    pub fn serve<R: Wait, G: Gate>(
        &self,
        rt: &R,
        seat: &mut Seat,
        gate: &G,
        input: PortInput,
    ) -> Result<(u64, PortReply), ServeFault>
        ensures receipt { IfOk result (λ r. seat.new ≡ record {
          caller = seat.old.caller;
          receipts = seat.old.receipts ++ record {
            port = self.now.port;
            entry = record { place = r.0; caller = seat.old.caller; input = input; reply = r.1 };
          } ∷ [];
        }) }
        ensures place { IfOk result (λ r. seen_at self.now.port seat.old.receipts ≤ r.0) }
        ensures seen { IfOk result (λ r. seen_at self.now.port seat.new.receipts ≡ r.0 + 1) }
        ensures wound { (seen found : ℕ) → IsErrOf result (ServeFault.Wound seen found)
            → (seen ≡ seen_at self.now.port seat.old.receipts) × (found < seen) }
        ensures same { OnErr result (seat.new ≡ seat.old) }
    {
        let mut station = self.enter(rt, seat.caller(), gate);
        station.take(seat, input)
    }
}

impl<K: Keeping> PortCellOf<K> {
    /// The port of this station.
    pub(crate) fn of(station: StationOf<K>) -> PortCellOf<K>
        ensures { result.port ≡ station.port }
    {
        PortCellOf {
            port: station.port(),
            station: Mutex::new(station),
        }
    }

    /// The number of the port.
    pub fn port(&self) -> u16
        ensures { result ≡ self.now.port }
    {
        self.port
    }

    /// The port with its journal as the last call left it.
    pub(crate) fn into_station(self) -> StationOf<K> {
        self.station.into_inner()
    }

    // Takes the lock for a caller. The lock holds the port of this number: that is looked at, since no contract says so.
    fn enter<R: Wait, G: Gate>(&self, rt: &R, caller: u16, gate: &G) -> MutexGuard<'_, StationOf<K>>
        ensures { (mutex_guard_value result).port ≡ self.now.port }
    {
        gate.before(caller, self.port);
        for _ in rt.forever() {
            let station = self.station.lock(rt);
            if station.port() == self.port {
                gate.inside(caller, self.port);
                return station;
            }
        }
        unreachable!()
    }

    /// Has the port serve a message that was sent to it. The result is its reply, and what was seen then.
    pub(crate) fn deliver<R: Wait, G: Gate>(
        &self,
        rt: &R,
        seat: &mut Seat,
        gate: &G,
        letter: &LetterOf<K>,
    ) -> Result<(PortReply, K::Front), ServeFault>
        requires port { letter.now.port ≡ self.now.port }
        ensures receipt { IfOk result (λ r. HasReceipt seat.old seat.new self.now.port
            (messages.input_of letter.now.message)) }
        ensures follows { IfOk result (λ r. When K.kept
            (FollowsOn K.net (past_of K.net (happened (K.log r.1))) self.now.port letter.now.message r.0)) }
        ensures wound { (seen found : ℕ) → IsErrOf result (ServeFault.Wound seen found) → found < seen }
        ensures same { OnErr result (seat.new ≡ seat.old) }
    {
        let mut station = self.enter(rt, seat.caller(), gate);
        let (_, reply) = station.serve(rt, seat, letter)?;
        Ok((reply, station.front()))
    }

    /// Has the port take a capacity of an operator, in units, or refuse it.
    pub(crate) fn set_capacity<R: Wait, G: Gate>(
        &self,
        rt: &R,
        seat: &mut Seat,
        gate: &G,
        capacity: u64,
    ) -> Result<(), ServeFault>
        ensures receipt { IfOk result (λ done. HasReceipt seat.old seat.new self.now.port
            (Capacity capacity)) }
        ensures wound { (seen found : ℕ) → IsErrOf result (ServeFault.Wound seen found) → found < seen }
    {
        let mut station = self.enter(rt, seat.caller(), gate);
        station.set_capacity(rt, seat, capacity)?;
        Ok(())
    }

    /// Has the port serve what a source brings to it, and notes that in both journals. The result is the port's reply, and what was seen
    /// then.
    pub(crate) fn receive<R: Wait, G: Gate>(
        &self,
        rt: &R,
        site: &mut SiteOf<K>,
        seat: &mut Seat,
        gate: &G,
        brought: &Brought,
    ) -> Result<(u64, PortReply, K::Front), ServeFault>
        requires first { When K.kept ((line : Conn) → conn_at K.net site.old.conn ≡ Some line →
            self.now.port ≡ slice_index line.path 0) }
        requires can { When K.kept (CanBring K.net site.old.conn site.old.vc site.old.front brought.now) }
        ensures site { IfOk result (λ r. site.new ≡ record {
          conn = site.old.conn;
          vc = site.old.vc;
          actor = site.old.actor;
          entries = site.old.entries ++ entry_brought r.0 brought.now ∷ [];
          arrived = arrived_with site.old.arrived brought.now;
          front = K.log r.2;
        }) }
        ensures receipt { IfOk result (λ r. seat.new ≡ record {
          caller = seat.old.caller;
          receipts = seat.old.receipts ++ record {
            port = self.now.port;
            entry = record {
              place = r.0;
              caller = seat.old.caller;
              input = input_brought site.old.vc brought.now;
              reply = r.1;
            };
          } ∷ [];
        }) }
        ensures follows { IfOk result (λ r. When K.kept
            ((request : Terms) → brought.now ≡ Brought.Request request →
            FollowsOn K.net (past_of K.net (happened (K.log r.2))) self.now.port (rm.Request request) r.1)) }
        ensures wound { (seen found : ℕ) → IsErrOf result (ServeFault.Wound seen found) → found < seen }
    {
        let mut station = self.enter(rt, seat.caller(), gate);
        let (place, reply) = site.bring(rt, &mut station, seat, brought)?;
        Ok((place, reply, station.front()))
    }
}
