//! What is known of each request of a connection, by its number.
ghost use Rattle.std.specs.Prelude.{◌≡◌, ◌+◌, ◌≤◌, [], OnOk, min};
ghost use Rattle.abt_index.specs.Index.{message_in, changed, with_change, HasFewHops};

use crate::lookups::Lookups;
use crate::message::Message;
use abt_facts::Fact;
use indexmap::IndexMap;
use std::alloc::{AllocError, Global};
use std::marker::Model;

/// What happened to the requests of one connection.
#[derive(Debug, Drop)]
pub(crate) struct Messages {
    entries: IndexMap<u32, Message>,
}

impl Model for Messages {
    ghost use Rattle.indexmap.specs.IndexMap.{spare};
    ghost use Rattle.abt_index.specs.FactIndex.{MessagesView};

    ghost Value = { MessagesView };

    ghost view = { λ m. record { entries = m.entries.entries; room = spare m.entries } };
}

impl Messages {
    // Nothing happened to any.
    pub(crate) fn new(alloc: Global) -> Messages
        ensures { result.entries ≡ [] }
    {
        Messages {
            entries: IndexMap::new(alloc),
        }
    }

    // Makes room for two more.
    pub(crate) fn reserve(&mut self) -> Result<(), AllocError>
        ensures ok { OnOk result (2 ≤ self.new.room) }
        ensures same { self.new.entries ≡ self.old.entries }
        ensures room { self.old.room ≤ self.new.room }
    {
        self.entries.reserve(2)
    }

    // What is known of a number.
    pub(crate) fn of(&self, seq: u32, looks: &mut Lookups) -> Message
        ensures value { result ≡ message_in self.now.entries seq }
        ensures looks { looks.new ≤ looks.old + 1 }
        ensures counted { looks.new ≡ min (looks.old + 1) u64.MAX }
    {
        let seq = looks.counting(seq);
        // Most often it is the number that came last.
        let last = self.entries.len().saturating_sub(1);
        match self.entries.get_index(last) {
            Some((number, message)) if *number == seq => *message,
            _ => match self.entries.get(&seq) {
                Some(message) => *message,
                None => Message::blank(),
            },
        }
    }

    // Notes one more fact of a number, for which there is room, and gives the mark of its ask, 0 if there was none.
    pub(crate) fn note(&mut self, seq: u32, fact: &Fact, looks: &mut Lookups) -> u64
        requires { 1 ≤ self.old.room }
        ensures mark { result ≡ (message_in self.old.entries seq).mark }
        ensures entries { HasFewHops fact.now →
            self.new.entries ≡ with_change (changed fact.now) seq self.old.entries }
        ensures room { self.old.room ≤ self.new.room + 1 }
        ensures looks { looks.new ≤ looks.old + 1 }
        ensures counted { looks.new ≡ min (looks.old + 1) u64.MAX }
    {
        let key = looks.counting(seq);
        // Most often it is the number that came last.
        let last = self.entries.len().saturating_sub(1);
        if let Some((number, message)) = self.entries.get_index(last) {
            if *number == key {
                let mark = message.mark;
                if let Some(newest) = self.entries.get_index_mut(last) {
                    newest.note(fact);
                    return mark;
                }
            }
        }
        match self.entries.entry(key) {
            Ok(entry) => {
                let known = entry.or_insert(Message::blank());
                let mark = known.mark;
                known.note(fact);
                mark
            }
            Err(_) => unreachable!(),
        }
    }
}
