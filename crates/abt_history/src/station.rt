//! What lies under a port's lock.
ghost use Rattle.std.specs.Prelude.{◌≡◌, ◌<◌, ◌≤◌, ◌+◌, ◌↔◌, ℕ, List, [], length, IfOk, OnErr, IsErrOf};
ghost use mathlib.Core.List.{IsPrefix};
ghost use Rattle.abt_net.specs.Topology.{IsWithinRules};
ghost use Rattle.abt_journal.specs.declared.fault.ServeFault.{ServeFault};
ghost use Rattle.abt_journal.specs.declared.input.PortInput.TheVariants.{Capacity};
ghost use Rattle.abt_journal.specs.Receipts.{seen_at};
ghost use Rattle.abt_model.specs.PortTable.{port_table};
ghost use Rattle.abt_weave.specs.Projections.{past_of};
ghost use Rattle.abt_serving.specs.Followed.{FollowsOn};
ghost use Rattle.abt_serving.specs.Messages as messages;
ghost use Rattle.abt_serving.specs.Messages.{ComesNow};
ghost use Rattle.abt_history.specs.declared.deed.Deed.{Deed};
ghost use Rattle.abt_history.specs.Ended.{HasPortEnded};
ghost use Rattle.abt_history.specs.Histories.{happened};
ghost use Rattle.abt_history.specs.Legal.{IsLegal};
ghost use Rattle.abt_history.specs.Modes.{When};
ghost use Rattle.abt_history.specs.Stations.{CameTo, HasServed};

use crate::deed::Deed;
use crate::keeping::{Keeping, Kept, NotKept};
use crate::letter::LetterOf;
use abt_cell::Rm;
use abt_journal::{Entry, PortInput, PortReply, PortState, Seat, ServeFault};
use std::marker::Model;
use std::sync::Wait;

// What a message is to a port.
fn input_of(message: &Rm) -> PortInput
    ensures { result ≡ messages.input_of message.now }
{
    match message {
        Rm::Request(request) => PortInput::Request(*request),
        Rm::Answer(answer) => PortInput::Answer(*answer),
    }
}

/// A port with its journal, and what was seen of the history when it had its last step, if the run keeps that.
#[derive(Drop)]
pub struct StationOf<K: Keeping> {
    pub(crate) state: PortState,
    pub(crate) tally: K::Tally,
    pub(crate) front: K::Front,
}

/// A port of a run that keeps its history.
pub type Station<N, J> = StationOf<Kept<N, J>>;

impl<K: Keeping> Model for StationOf<K> {
    ghost use Rattle.std.specs.Prelude.{◌≡◌};
    ghost use Rattle.std.specs.Coded.{codes};
    ghost use Rattle.abt_node.specs.Table.{table_code};
    ghost use Rattle.abt_history.specs.Modes.{When};
    ghost use Rattle.abt_history.specs.Stations.{StationView, IsStation};

    ghost Value = { StationView };

    ghost coded = { Prim.hlevel (codes, table_code) };

    ghost view = { λ s. record { port = s.state.opening.id; state = s.state; front = K.log s.front } };

    ghost invariant = { λ s. When K.kept ((K.key s.tally ≡ s.state.opening.id) × IsStation K.net (record {
      port = s.state.opening.id;
      state = s.state;
      front = K.log s.front;
    })) };
}

impl StationOf<NotKept> {
    /// A port of a run that keeps no history.
    pub fn not_kept(state: PortState) -> StationOf<NotKept>
        ensures { result ≡ record { port = state.opening.id; state = state; front = [] } }
    {
        StationOf::new(state, NotKept, NotKept)
    }

    /// Has the port step with any input, also one that no event makes. The result is the place of the step, and the reply.
    ///
    /// # Errors
    /// As [`Seat::step`], which leaves all as it was.
    pub fn take(
        &mut self,
        seat: &mut Seat,
        input: PortInput,
    ) -> Result<(u64, PortReply), ServeFault>
        ensures served { IfOk result (λ r. HasServed self.old self.new seat.old seat.new input r.0 r.1) }
        ensures place { IfOk result (λ r. seen_at self.old.port seat.old.receipts ≤ r.0) }
        ensures seen { IfOk result (λ r. seen_at self.old.port seat.new.receipts ≡ r.0 + 1) }
        ensures wound { (seen found : ℕ) → IsErrOf result (ServeFault.Wound seen found)
            ↔ ((seen ≡ seen_at self.old.port seat.old.receipts) × (found ≡ length self.old.state.entries) ×
            (found < seen)) }
        ensures same { OnErr result ((self.new ≡ self.old) × (seat.new ≡ seat.old)) }
    {
        let port = self.state.id();
        seat.step(port, &mut self.state, input)
    }

    /// The port with its journal. No history has to know that it ends.
    pub fn into_port(self) -> PortState
        ensures { result ≡ self.state }
    {
        self.state
    }
}

impl<K: Keeping> StationOf<K> {
    // A port that has done nothing.
    pub(crate) fn new(state: PortState, tally: K::Tally, front: K::Front) -> StationOf<K>
        requires rules { When K.kept (IsWithinRules K.net) }
        requires low { When K.kept (K.key tally < length K.net.capacities) }
        requires opening { When K.kept (state ≡ record {
          opening = port_table K.net [] (K.key tally);
          table = port_table K.net [] (K.key tally);
          entries = [];
        }) }
        requires begun { When K.kept (K.log front ≡ []) }
        ensures { result ≡ record { port = state.opening.id; state = state; front = K.log front } }
    {
        StationOf {
            state,
            tally,
            front,
        }
    }

    /// The number of the port.
    pub fn port(&self) -> u16
        ensures { result ≡ self.now.port }
    {
        self.state.id()
    }

    /// What was seen when the port had its last step.
    pub fn front(&self) -> K::Front
        ensures { K.log result ≡ self.now.front }
    {
        K::again(&self.front)
    }

    /// Serves a message that was sent to the port, and notes that. The result is the place of the step, and the reply.
    ///
    /// # Errors
    /// As [`Seat::step`], which leaves all as it was.
    pub fn serve<R: Wait>(
        &mut self,
        rt: &R,
        seat: &mut Seat,
        letter: &LetterOf<K>,
    ) -> Result<(u64, PortReply), ServeFault>
        requires port { letter.now.port ≡ self.old.port }
        ensures served { IfOk result (λ r.
            HasServed self.old self.new seat.old seat.new (messages.input_of letter.now.message) r.0 r.1) }
        ensures seen { IfOk result (λ r. When K.kept
            (IsPrefix self.old.front self.new.front × IsPrefix letter.now.front self.new.front)) }
        ensures follows { IfOk result (λ r. When K.kept
            (FollowsOn K.net (past_of K.net (happened self.new.front)) self.old.port letter.now.message
            r.1)) }
        ensures wound { (seen found : ℕ) → IsErrOf result (ServeFault.Wound seen found)
            ↔ ((seen ≡ seen_at self.old.port seat.old.receipts) × (found ≡ length self.old.state.entries) ×
            (found < seen)) }
        ensures same { OnErr result ((self.new ≡ self.old) × (seat.new ≡ seat.old)) }
    {
        let input = input_of(letter.message());
        self.step(rt, seat, letter.front(), input)
    }

    /// Has the port take a capacity of an operator, in units, or refuse it, and notes that.
    ///
    /// # Errors
    /// As [`Seat::step`], which leaves all as it was.
    pub fn set_capacity<R: Wait>(
        &mut self,
        rt: &R,
        seat: &mut Seat,
        capacity: u64,
    ) -> Result<(u64, PortReply), ServeFault>
        ensures served { IfOk result (λ r.
            HasServed self.old self.new seat.old seat.new (Capacity capacity) r.0 r.1) }
        ensures seen { IfOk result (λ r. When K.kept (IsPrefix self.old.front self.new.front)) }
        ensures wound { (seen found : ℕ) → IsErrOf result (ServeFault.Wound seen found)
            ↔ ((seen ≡ seen_at self.old.port seat.old.receipts) × (found ≡ length self.old.state.entries) ×
            (found < seen)) }
        ensures same { OnErr result ((self.new ≡ self.old) × (seat.new ≡ seat.old)) }
    {
        let seen = K::again(&self.front);
        self.step(rt, seat, &seen, PortInput::Capacity(capacity))
    }

    // Has the port step with what may come to it at any time, and notes it behind what another has seen.
    fn step<R: Wait>(
        &mut self,
        rt: &R,
        seat: &mut Seat,
        seen: &K::Front,
        input: PortInput,
    ) -> Result<(u64, PortReply), ServeFault>
        requires comes { When K.kept (IsWithinRules K.net → self.old.port < length K.net.capacities →
            (log : List Deed) → IsPrefix (K.log seen.now) log → IsLegal K.net log →
            ComesNow K.net (happened log) self.old.port input) }
        ensures rules { When K.kept (IsWithinRules K.net) }
        ensures served { IfOk result (λ r. HasServed self.old self.new seat.old seat.new input r.0 r.1) }
        ensures came { IfOk result (λ r. When K.kept (CameTo K.net self.new.front self.old.port input r.1)) }
        ensures own { IfOk result (λ r. When K.kept (IsPrefix self.old.front self.new.front)) }
        ensures seen { IfOk result (λ r. When K.kept (IsPrefix (K.log seen.now) self.new.front)) }
        ensures wound { (seen found : ℕ) → IsErrOf result (ServeFault.Wound seen found)
            ↔ ((seen ≡ seen_at self.old.port seat.old.receipts) × (found ≡ length self.old.state.entries) ×
            (found < seen)) }
        ensures same { OnErr result ((self.new ≡ self.old) × (seat.new ≡ seat.old)) }
    {
        let port = self.state.id();
        let deeds = self.state.entries().len() as u64;
        let given = &input;
        let (place, reply) = seat.step(port, &mut self.state, *given)?;
        let deed = Deed::Comes {
            port,
            input: *given,
        };
        self.front = K::note(rt, &self.tally, &self.front, seen, deeds, &deed);
        Ok((place, reply))
    }

    /// Ends the port, and gives its state. Its journal is all that the history has of it, and will have.
    pub fn into_state<R: Wait>(self, rt: &R) -> (PortState, K::Front)
        ensures state { result.0 ≡ self.state }
        ensures port { result.0.opening.id ≡ self.port }
        ensures ended { When K.kept (HasPortEnded K.net self.port result.0.entries (K.log result.1)) }
    {
        let StationOf {
            state,
            tally,
            front,
        } = self;
        let port = state.id();
        let deeds = state.entries().len() as u64;
        let last = K::note(rt, &tally, &front, &front, deeds, &Deed::EndsPort { port });
        (state, last)
    }

    /// Ends the port, and gives its journal.
    pub fn end<R: Wait>(self, rt: &R) -> (Vec<Entry>, K::Front)
        ensures entries { result.0.items ≡ self.state.entries }
        ensures ended { When K.kept (HasPortEnded K.net self.port result.0.items (K.log result.1)) }
    {
        let (state, last) = self.into_state(rt);
        (state.into_entries(), last)
    }
}
