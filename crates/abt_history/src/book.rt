//! The book of a run.
ghost use Rattle.std.specs.Prelude.{◌≡◌, ◌<◌, ◌+◌, [], length, Some};
ghost use Rattle.abt_net.specs.declared.conn.Conn.{Conn};
ghost use Rattle.abt_net.specs.Topology.{IsWithinRules, conn_at};
ghost use Rattle.abt_model.specs.PortTable.{port_table};
ghost use Rattle.abt_actor.specs.Actor.{actor_of};
ghost use Rattle.abt_history.specs.Histories.{words_of};

use crate::deed::Deed;
use crate::front::{Front, Tally};
use crate::keeping::Kept;
use crate::place::{Naming, Place};
use crate::rule::{Begun, Law};
use crate::site::{Site, SiteOf};
use crate::station::{Station, StationOf};
use abt_cell::Vc;
use abt_journal::PortState;
use abt_net::Net;
use logbook::{Pens, Seen, Start, Word};
use std::alloc::Global;
use std::marker::{Model, PhantomData};

/// A book with an empty history, which has no name yet. Contracts see which book it is.
#[derive(Drop)]
pub struct Opened<N: Place> {
    seen: Seen<Deed, u64, Law<N>>,
    pens: Pens,
}

impl<N: Place> Model for Opened<N> {
    ghost use Rattle.std.specs.Prelude.{◌≡◌, []};
    ghost use Rattle.logbook.specs.Pages.{Book, book_coded};
    ghost use Rattle.abt_history.specs.Histories.{words_of};

    ghost Value = { Book };

    ghost view = { λ o. o.seen.book };

    ghost coded = { book_coded };

    ghost invariant = { λ o. (o.seen.log ≡ []) × (o.pens.book ≡ o.seen.book) × (o.pens.next ≡ 0) ×
        (o.pens.left ≡ words_of N.net) };
}

impl<N: Place> Opened<N> {
    /// The book of a run over this net.
    pub fn new(net: &Net) -> Opened<N>
        requires { N.net ≡ net.now }
    {
        let words = net.capacities().len() + net.conns().len();
        let (seen, pens) = Seen::open_row::<u64, Begun>(&0, Start::alone(), words);
        Opened { seen, pens }
    }

    /// The same under its name.
    pub fn named<J: Naming>(self, net: &Net) -> Book<N, J>
        requires net { N.net ≡ net.now }
        requires book { self ≡ J.book }
        ensures { result ≡ 0 }
    {
        let _ = net.capacities();
        let Opened { seen, pens } = self;
        Book {
            pens,
            next: 0,
            front: Front {
                seen,
                of: PhantomData,
            },
        }
    }
}

/// A book from which the ports of a net are taken one after the other, and then its sources. Contracts see how many were taken.
#[derive(Drop)]
pub struct Book<N: Place, J: Naming> {
    pens: Pens,
    next: usize,
    front: Front<N, J>,
}

impl<N: Place, J: Naming> Model for Book<N, J> {
    ghost use Rattle.std.specs.Prelude.{◌≡◌, ◌+◌, ℕ, []};
    ghost use Rattle.abt_history.specs.Histories.{words_of};

    ghost Value = { ℕ };

    ghost view = { λ b. b.next };

    ghost invariant = { λ b. (b.pens.book ≡ J.book) × (b.pens.next ≡ b.next) × (b.next + b.pens.left ≡
        words_of N.net) × (b.front ≡ []) };
}

impl<N: Place, J: Naming> Book<N, J> {
    /// The front that has seen nothing.
    pub fn front(&self) -> Front<N, J>
        ensures value { result ≡ [] }
        ensures rules { IsWithinRules N.net }
    {
        self.front.again()
    }

    // The tally of the next port or source.
    fn tally(&mut self) -> Tally<N, J>
        requires rules { IsWithinRules N.net }
        requires low { self.old < words_of N.net }
        ensures key { result.key ≡ self.old }
        ensures next { self.new ≡ self.old + 1 }
    {
        let key = self.next;
        let mut pen = self.pens.take();
        let word = Word::tracked(0, &mut pen);
        self.next = key + 1;
        Tally {
            key,
            word,
            of: PhantomData,
        }
    }

    /// The next port, whose journal is empty.
    pub fn station(&mut self, state: PortState) -> Station<N, J>
        requires low { self.old < length N.net.capacities }
        requires opening { state ≡ record {
          opening = port_table N.net [] self.old;
          table = port_table N.net [] self.old;
          entries = [];
        } }
        ensures station { result ≡ record { port = self.old; state = state; front = [] } }
        ensures next { self.new ≡ self.old + 1 }
    {
        let front = self.front();
        let tally = self.tally();
        StationOf::<Kept<N, J>>::new(state, tally, front)
    }

    /// The next source, that of the connection of this number and channel, which has done nothing.
    pub fn site(&mut self, alloc: Global, conn: u16, vc: Vc) -> Site<N, J>
        requires low { conn < length N.net.conns }
        requires next { self.old ≡ length N.net.capacities + conn }
        requires channel { (line : Conn) → conn_at N.net conn ≡ Some line → vc ≡ line.vc }
        ensures site { result ≡ record {
          conn = conn;
          vc = vc;
          actor = actor_of vc [];
          entries = [];
          arrived = 0;
          front = [];
        } }
        ensures next { self.new ≡ self.old + 1 }
    {
        let front = self.front();
        let tally = self.tally();
        SiteOf::<Kept<N, J>>::new(alloc, conn, vc, tally, front)
    }
}
