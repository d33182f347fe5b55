//! A source at its access line, with what was seen of the history.
ghost use Rattle.std.specs.Prelude.{◌≡◌, ◌<◌, ◌+◌, [], length, Some};
ghost use Rattle.abt_net.specs.declared.conn.Conn.{Conn};
ghost use Rattle.abt_net.specs.Topology.{IsWithinRules, conn_at};
ghost use Rattle.abt_actor.specs.Actor.{actor_of, is_asking_in};
ghost use Rattle.abt_history.specs.Ended.{HasSourceEnded};
ghost use Rattle.abt_history.specs.Modes.{When};

use crate::deed::Deed;
use crate::keeping::{Keeping, Kept, NotKept};
use abt_actor::SourceActor;
use abt_cell::Vc;
use abt_model::{Sequence, SourceEntry, SourceJournal};
use std::alloc::Global;
use std::marker::Model;
use std::sync::Wait;

/// A source with its journal, and what was seen of the history when it did its last, if the run keeps that.
#[derive(Drop)]
pub struct SiteOf<K: Keeping> {
    pub(crate) conn: u16,
    pub(crate) vc: Vc,
    pub(crate) actor: SourceActor,
    pub(crate) entries: Vec<SourceEntry>,
    // The moment of the last arrival at the first port.
    pub(crate) arrived: u64,
    pub(crate) tally: K::Tally,
    pub(crate) front: K::Front,
}

/// A source of a run that keeps its history.
pub type Site<N, J> = SiteOf<Kept<N, J>>;

impl<K: Keeping> Model for SiteOf<K> {
    ghost use Rattle.std.specs.Prelude.{◌≡◌, ◌+◌, length};
    ghost use Rattle.abt_history.specs.Modes.{When};
    ghost use Rattle.abt_history.specs.Sites.{SiteView, IsSite};

    ghost Value = { SiteView };

    ghost view = { λ s. record {
      conn = s.conn;
      vc = s.vc;
      actor = s.actor;
      entries = s.entries.items;
      arrived = s.arrived;
      front = K.log s.front;
    } };

    ghost invariant = { λ s. When K.kept ((K.key s.tally ≡ length K.net.capacities + s.conn) ×
        IsSite K.net (record {
          conn = s.conn;
          vc = s.vc;
          actor = s.actor;
          entries = s.entries.items;
          arrived = s.arrived;
          front = K.log s.front;
        })) };
}

impl SiteOf<NotKept> {
    /// The source of the connection of this number and channel in a run that keeps no history. It has done nothing.
    pub fn not_kept(alloc: Global, conn: u16, vc: Vc) -> SiteOf<NotKept>
        ensures { result ≡ record {
          conn = conn;
          vc = vc;
          actor = actor_of vc [];
          entries = [];
          arrived = 0;
          front = [];
        } }
    {
        SiteOf::new(alloc, conn, vc, NotKept, NotKept)
    }
}

impl<K: Keeping> SiteOf<K> {
    // The source of the connection of this number and channel, which has done nothing.
    pub(crate) fn new(
        alloc: Global,
        conn: u16,
        vc: Vc,
        tally: K::Tally,
        front: K::Front,
    ) -> SiteOf<K>
        requires rules { When K.kept (IsWithinRules K.net) }
        requires low { When K.kept (conn < length K.net.conns) }
        requires key { When K.kept (K.key tally ≡ length K.net.capacities + conn) }
        requires channel { When K.kept ((line : Conn) → conn_at K.net conn ≡ Some line → vc ≡ line.vc) }
        requires begun { When K.kept (K.log front ≡ []) }
        ensures { result ≡ record {
          conn = conn;
          vc = vc;
          actor = actor_of vc [];
          entries = [];
          arrived = 0;
          front = K.log front;
        } }
    {
        SiteOf {
            conn,
            vc,
            actor: SourceActor::new(vc),
            entries: Vec::new(alloc),
            arrived: 0,
            tally,
            front,
        }
    }

    /// The number of the connection.
    pub fn conn(&self) -> u16
        ensures { result ≡ self.now.conn }
    {
        self.conn
    }

    /// Whether the source waits for an answer.
    pub fn is_asking(&self) -> bool
        ensures { result ≡ is_asking_in self.now.actor.state }
    {
        self.actor.is_asking()
    }

    /// The moment of the last arrival of a cell at the first port, in picoseconds; 0 before the first.
    pub fn arrived(&self) -> u64
        ensures { result ≡ self.now.arrived }
    {
        self.arrived
    }

    /// What was seen when the source did its last.
    pub fn front(&self) -> K::Front
        ensures { K.log result ≡ self.now.front }
    {
        K::again(&self.front)
    }

    /// Ends the source: its journal is all that the history has of it, and will have.
    pub fn end<R: Wait>(self, rt: &R) -> (SourceJournal, K::Front)
        ensures entries { result.0.entries ≡ self.entries }
        ensures ended { When K.kept (HasSourceEnded K.net self.conn result.0.entries (K.log result.1)) }
    {
        let SiteOf {
            conn,
            vc: _,
            actor: _,
            entries,
            arrived: _,
            tally,
            front,
        } = self;
        let turns = entries.as_slice().len() as u64;
        let last = K::note(
            rt,
            &tally,
            &front,
            &front,
            turns,
            &Deed::EndsSource { conn },
        );
        let entries = Sequence::from(entries);
        (SourceJournal { entries }, last)
    }
}
