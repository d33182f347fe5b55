//! The facts of a connection, found by number.
ghost use Rattle.std.specs.Prelude.{◌≡◌, ◌+◌, ◌≤◌, List, if◌then◌else◌, min, nat_lt, OnOk};
ghost use Rattle.std.specs.List.{list_all};
ghost use Rattle.abt_index.specs.Index.{empty, noted, is_of_message, CanFollow};
ghost use Rattle.abt_index.specs.Kept.{asked_in, conforms_if_arrived};
ghost use Rattle.abt_index.specs.FactIndex.{IsLogOf};
ghost use Rattle.abt_facts.specs.declared.fact.Fact.{Fact as FactSpec};
ghost use Rattle.abt_facts.specs.Sent as sent;
ghost use Rattle.abt_facts.specs.Cells.{moment_of, after_last_of, last_arrival_of, delivered_mark_of, fence_of};

use crate::emissions::Emissions;
use crate::lookups::Lookups;
use crate::messages::Messages;
use abt_facts::Fact;
use abt_gcra::Verdict;
use abt_rate::Rate;
use std::alloc::{AllocError, Global};
use std::marker::Model;

/// A cell that arrived, and when.
#[derive(Clone, Copy, Debug, PartialEq, Eq)]
struct Arrival {
    cell: u64,
    at: u64,
}

/// The facts of one connection, found by number. Each question costs the same, however many facts there are.
#[derive(Debug, Drop)]
pub struct FactIndex {
    messages: Messages,
    emissions: Emissions,
    // The greatest mark of a request that came to the first hop.
    delivered_mark: u64,
    last_arrival: Option<Arrival>,
    // Whether each cell that arrived was found conforming.
    conform: bool,
}

impl Model for FactIndex {
    ghost use Rattle.std.specs.Prelude.{min};
    ghost use Rattle.std.specs.Option.{option_map};
    ghost use Rattle.abt_index.specs.FactIndex.{LogView};

    ghost Value = { LogView };

    ghost view = { λ l. record {
      index = record {
        messages = l.messages.entries;
        emissions = l.emissions.moments;
        mark = l.delivered_mark;
        last = option_map (λ a. (a.cell, a.at)) l.last_arrival;
        conform = l.conform;
      };
      room = min l.messages.room l.emissions.room;
    } };
}

impl FactIndex {
    /// An index without facts.
    pub fn new(alloc: Global) -> FactIndex
        ensures { result.index ≡ empty }
    {
        FactIndex {
            messages: Messages::new(alloc),
            emissions: Emissions::new(alloc),
            delivered_mark: 0,
            last_arrival: None,
            conform: true,
        }
    }

    /// Makes room for two more facts.
    ///
    /// # Errors
    /// If memory is refused the log is the same.
    pub fn reserve(&mut self) -> Result<(), AllocError>
        ensures ok { OnOk result (2 ≤ self.new.room) }
        ensures same { self.new.index ≡ self.old.index }
    {
        self.messages.reserve()?;
        self.emissions.reserve()
    }

    /// Notes one more fact, for which there is room, and which is one that can follow those before: a hop is one that a path can
    /// have, and a cell has the number of those before it.
    pub fn note(&mut self, fact: Fact, looks: &mut Lookups)
        requires { 1 ≤ self.old.room }
        ensures index { CanFollow self.old.index fact → self.new.index ≡ noted fact self.old.index }
        ensures room { self.old.room ≤ self.new.room + 1 }
        ensures looks { looks.new ≤ looks.old + 1 }
        ensures counted { looks.new ≡
            (if is_of_message fact then min (looks.old + 1) u64.MAX else looks.old) }
    {
        match fact {
            Fact::Asked { seq, .. }
            | Fact::Passed { seq, .. }
            | Fact::Shut { seq, .. }
            | Fact::Turned { seq }
            | Fact::Back { seq, .. } => {
                self.messages.note(seq, &fact, looks);
            }
            Fact::Delivered { seq } => {
                let mark = self.messages.note(seq, &fact, looks);
                self.delivered_mark = self.delivered_mark.max(mark);
            }
            Fact::Emitted { at, .. } => self.emissions.note(at),
            Fact::Arrived {
                cell,
                at,
                verdict,
                ..
            } => {
                self.last_arrival = Some(Arrival { cell, at });
                self.conform = self.conform && verdict == Verdict::Conforming;
            }
            Fact::Started { .. } | Fact::Crashed | Fact::Stored { .. } | Fact::Heard { .. } => {}
        }
    }

    /// The floor and the asked rate of a number, if it was asked.
    pub fn asked(&self, seq: u32, looks: &mut Lookups) -> Option<(Rate, Rate)>
        ensures value { (facts : List FactSpec) → IsLogOf facts self.now → result ≡ asked_in facts seq }
        ensures looks { looks.new ≤ looks.old + 1 }
        ensures counted { looks.new ≡ min (looks.old + 1) u64.MAX }
    {
        let message = self.messages.of(seq, looks);
        if message.asked {
            Some((message.floor, message.ask))
        } else {
            None
        }
    }

    /// Whether a hop passed a request on.
    pub fn was_passed(&self, seq: u32, hop: u16, looks: &mut Lookups) -> bool
        ensures value { (facts : List FactSpec) → IsLogOf facts self.now →
            result ≡ sent.was_passed facts seq hop }
        ensures looks { looks.new ≤ looks.old + 1 }
        ensures counted { looks.new ≡ min (looks.old + 1) u64.MAX }
    {
        self.messages.of(seq, looks).passed.has(hop)
    }

    /// Whether a hop shut a number.
    pub fn was_shut(&self, seq: u32, hop: u16, looks: &mut Lookups) -> bool
        ensures value { (facts : List FactSpec) → IsLogOf facts self.now →
            result ≡ sent.was_shut facts seq hop }
        ensures looks { looks.new ≤ looks.old + 1 }
        ensures counted { looks.new ≡ min (looks.old + 1) u64.MAX }
    {
        self.messages.of(seq, looks).shut.has(hop)
    }

    /// Whether what the last hop passed was turned into a yes.
    pub fn was_turned(&self, seq: u32, looks: &mut Lookups) -> bool
        ensures value { (facts : List FactSpec) → IsLogOf facts self.now →
            result ≡ sent.was_turned facts seq }
        ensures looks { looks.new ≤ looks.old + 1 }
        ensures counted { looks.new ≡ min (looks.old + 1) u64.MAX }
    {
        self.messages.of(seq, looks).turned
    }

    /// Whether a hop passed a yes back.
    pub fn was_back(&self, seq: u32, hop: u16, looks: &mut Lookups) -> bool
        ensures value { (facts : List FactSpec) → IsLogOf facts self.now →
            result ≡ sent.was_back facts seq hop }
        ensures looks { looks.new ≤ looks.old + 1 }
        ensures counted { looks.new ≡ min (looks.old + 1) u64.MAX }
    {
        self.messages.of(seq, looks).back.has(hop)
    }

    /// The moment at which a cell was emitted, in picoseconds.
    #[tactic(auto, using(crate::proofs::Indexed::moment_is))]
    pub fn emission(&self, cell: u64, looks: &mut Lookups) -> u64
        ensures value { (facts : List FactSpec) → IsLogOf facts self.now → result ≡ moment_of facts cell }
        ensures looks { looks.new ≤ looks.old + 1 }
        ensures counted { looks.new ≡ min (looks.old + 1) u64.MAX }
    {
        self.emissions.of(cell, looks)
    }

    /// The greatest mark of a request that came to the first hop.
    #[tactic(auto, using(crate::proofs::Indexed::mark_is))]
    pub fn delivered_mark(&self) -> u64
        ensures { (facts : List FactSpec) → IsLogOf facts self.now → result ≡ delivered_mark_of facts }
    {
        self.delivered_mark
    }

    /// The moment of the last arrival, in picoseconds.
    pub fn last_arrival(&self) -> u64
        ensures { (facts : List FactSpec) → IsLogOf facts self.now → result ≡ last_arrival_of facts }
    {
        match self.last_arrival {
            Some(arrival) => arrival.at,
            None => 0,
        }
    }

    /// Whether a cell is the last that arrived, or one before it.
    pub fn is_behind_last(&self, cell: u64) -> bool
        ensures { (facts : List FactSpec) → IsLogOf facts self.now →
            result ≡ nat_lt cell (after_last_of facts) }
    {
        match self.last_arrival {
            Some(arrival) => cell <= arrival.cell,
            None => false,
        }
    }

    // The number behind the last cell that arrived, 0 if none did.
    fn after_last(&self) -> u64
        ensures { (facts : List FactSpec) → IsLogOf facts self.now → after_last_of facts ≤ u64.MAX →
            result ≡ after_last_of facts }
    {
        match self.last_arrival {
            Some(arrival) => arrival.cell.saturating_add(1),
            None => 0,
        }
    }

    /// The number below which no cell can arrive any more (docs/RULES.md, "Cells").
    pub fn fence(&self) -> u64
        ensures { (facts : List FactSpec) → IsLogOf facts self.now → after_last_of facts ≤ u64.MAX →
            result ≡ fence_of facts }
    {
        self.after_last().max(self.delivered_mark())
    }

    /// Whether each cell that arrived was found conforming.
    #[tactic(auto, using(crate::proofs::Indexed::conform_is))]
    pub fn all_conform(&self) -> bool
        ensures value { (facts : List FactSpec) → IsLogOf facts self.now →
            result ≡ list_all conforms_if_arrived facts }
        ensures index { result ≡ self.now.index.conform }
    {
        self.conform
    }
}
