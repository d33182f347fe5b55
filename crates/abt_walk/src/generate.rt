//! Events that are drawn by looking at what has happened, so that most of them are enabled.
use crate::cells;
use crate::choices::{Sight, arrival, arrive, ask, capacity, emit, start};
use crate::draws::Draws;
use crate::walk::{Walk, number};
use crate::words::{self, State};
use abt_facts::Fact;
use abt_rate::Rate;
use abt_world::Event;
use std::alloc::{AllocError, Global};

/// Draws the events of a list. Most events in a row are of the same connection, now and then so many are asks that a
/// stride of numbers ends, and now and then a port is given another capacity.
#[derive(Debug, Drop)]
pub struct Generator {
    draws: Draws,
    conn: u16,
    // How many asks are still to be drawn in a row.
    asks: u64,
}

impl Generator {
    pub(crate) fn new(seed: u64) -> Generator {
        Generator {
            draws: Draws::new(seed),
            conn: 0,
            asks: 0,
        }
    }

    /// The next event after those that a walk has seen.
    pub fn event(&mut self, alloc: Global, walk: &Walk<'_>) -> Result<Event, AllocError> {
        let conns = walk.net().conns();
        if self.asks == 0 && self.draws.one_in(40) {
            return capacity(alloc, &mut self.draws, walk);
        }
        if self.asks == 0 && self.draws.one_in(9) {
            self.conn = self.draws.small(number(conns.len()));
        }
        let facts = walk.facts_of(alloc, self.conn)?;
        let mut sight = Sight {
            conn: self.conn,
            hops: 1,
            delay: 0,
            tau: 0,
            facts: &facts,
        };
        if let Some(conn) = conns.get(usize::from(self.conn)) {
            sight.hops = number(conn.path.len());
            sight.delay = conn.delay;
            sight.tau = conn.tau;
        }
        if self.draws.one_in(50) {
            sight.conn = number(conns.len()).saturating_add(self.draws.small(3));
        }
        Ok(self.next(sight))
    }

    // The next ask of a row, or an event that is drawn, which may begin such a row.
    fn next(&mut self, sight: Sight<'_>) -> Event {
        if self.asks > 0 {
            self.asks = self.asks.saturating_sub(1);
            return ask(&mut self.draws, sight);
        }
        // Behind a cell a stride keeps a short spacing, as the gap is no second any more.
        let is_short = words::gap(sight.facts) < 1_000_000_000_000;
        if self.draws.one_in(if is_short { 50 } else { 500 }) {
            self.asks = self.draws.below(100);
        }
        drawn(&mut self.draws, sight)
    }
}

fn drawn(draws: &mut Draws, sight: Sight<'_>) -> Event {
    let up = words::state_after(sight.facts) != State::Down;
    let waits = up && words::rate(sight.facts) == Rate::ZERO;
    let all_came = cells::fence(sight.facts) >= words::emitted(sight.facts);
    match draws.below(100) {
        0..=39 => follow_newest(draws, sight),
        40..=54 => follow_any(draws, sight),
        55..=77 if !waits || draws.one_in(6) => of_source(draws, sight),
        78..=92 if !all_came || draws.one_in(6) => arrive(draws, sight),
        93..=97 => any_message(draws, sight),
        _ if draws.one_in(15) => ask(draws, sight),
        _ => follow_any(draws, sight),
    }
}

fn follow_newest(draws: &mut Draws, sight: Sight<'_>) -> Event {
    match sight.facts.last() {
        Some(fact) => follow(draws, sight, *fact),
        None => start(draws, sight),
    }
}

// Of the last twenty facts, or of all.
fn follow_any(draws: &mut Draws, sight: Sight<'_>) -> Event {
    let facts = u64::try_from(sight.facts.len()).unwrap_or(0);
    let limit = match draws.one_in(3) {
        true => facts,
        false => facts.min(20),
    };
    let place = facts.saturating_sub(draws.below(limit)).saturating_sub(1);
    match sight.facts.get(usize::try_from(place).unwrap_or(0)) {
        Some(fact) => follow(draws, sight, *fact),
        None => start(draws, sight),
    }
}

// What can come of a fact: a message on its way, or what a source would do then.
fn follow(draws: &mut Draws, sight: Sight<'_>, fact: Fact) -> Event {
    let conn = sight.conn;
    match fact {
        Fact::Crashed => start(draws, sight),
        Fact::Started { .. } | Fact::Stored { .. } => ask(draws, sight),
        Fact::Asked { seq, .. } => Event::Request { conn, hop: 1, seq },
        Fact::Delivered { .. } => of_source(draws, sight),
        Fact::Passed { seq, hop } if hop == sight.hops => Event::Turn { conn, seq },
        Fact::Passed { seq, hop } => {
            let hop = hop.saturating_add(1);
            Event::Request { conn, hop, seq }
        }
        Fact::Turned { seq } => answer_at(conn, sight.hops, seq, true),
        Fact::Back { seq, hop } => answer_at(conn, hop.saturating_sub(1), seq, true),
        Fact::Shut { seq, hop } => answer_at(conn, hop.saturating_sub(1), seq, false),
        Fact::Heard { granted: false, .. } => ask(draws, sight),
        Fact::Heard { .. } if words::rate(sight.facts) == Rate::ZERO => ask(draws, sight),
        Fact::Heard { .. } | Fact::Arrived { .. } => emit(draws, sight),
        Fact::Emitted { cell, .. } => {
            let at = arrival(draws, sight, cell);
            Event::Arrive { conn, cell, at }
        }
    }
}

// An answer on its way; hop 0 is the source.
fn answer_at(conn: u16, hop: u16, seq: u32, granted: bool) -> Event {
    match hop {
        0 => Event::Told { conn, seq, granted },
        _ => Event::Answer {
            conn,
            hop,
            seq,
            granted,
        },
    }
}

fn of_source(draws: &mut Draws, sight: Sight<'_>) -> Event {
    let conn = sight.conn;
    let choice = draws.below(16);
    match words::state_after(sight.facts) {
        State::Down => match choice {
            0 => ask(draws, sight),
            1 => emit(draws, sight),
            2 => Event::Again { conn },
            3 => Event::Crash { conn },
            _ => start(draws, sight),
        },
        _ => match choice {
            0 => Event::Crash { conn },
            1 => start(draws, sight),
            2 | 3 => Event::Again { conn },
            4 | 5 => ask(draws, sight),
            _ => emit(draws, sight),
        },
    }
}

// A message that may never have been sent, to a hop that may not be there.
fn any_message(draws: &mut Draws, sight: Sight<'_>) -> Event {
    let conn = sight.conn;
    let hop = draws.small(sight.hops.saturating_add(2));
    let seq = draws.seq(words::last(sight.facts).saturating_add(2));
    let granted = draws.one_in(2);
    match draws.below(4) {
        0 => Event::Request { conn, hop, seq },
        1 => Event::Turn { conn, seq },
        2 => Event::Answer {
            conn,
            hop,
            seq,
            granted,
        },
        _ => Event::Told { conn, seq, granted },
    }
}
