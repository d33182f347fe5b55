//! Places of messages in a run.
ghost use Rattle.std.specs.Prelude.{◌≡◌, ◌≢◌, Some, None, OnOk};
ghost use Rattle.abt_chart.specs.Places.{place_in};
ghost use Rattle.abt_chart.specs.declared.message.Message.{Message as MessageSpec};

use crate::message::Message;
use indexmap::IndexMap;
use std::alloc::{AllocError, Global};
use std::marker::Model;

// For each message the place that was taken down last, if one was.
#[derive(Debug, Drop)]
pub(crate) struct Places {
    places: IndexMap<Message, usize>,
}

impl Model for Places {
    ghost use Rattle.abt_chart.specs.Places.{PlacesView};

    ghost Value = { PlacesView };

    ghost view = { λ p. record { entries = p.places.entries } };
}

impl Places {
    // None, of no message.
    pub(crate) fn new(alloc: Global) -> Places
        ensures { (message : MessageSpec) → place_in result message ≡ None }
    {
        Places {
            places: IndexMap::new(alloc),
        }
    }

    // Takes down the place of a message, if there is one.
    pub(crate) fn note(&mut self, message: Option<Message>, place: usize) -> Result<(), AllocError>
        ensures own { OnOk result ((m : MessageSpec) → message ≡ Some m → place_in self.new m ≡ Some place) }
        ensures others { OnOk result ((m : MessageSpec) → message ≢ Some m →
            place_in self.new m ≡ place_in self.old m) }
    {
        if let Some(message) = message {
            self.places.insert(message, place)?;
        }
        Ok(())
    }

    // The place of a message that was taken down last.
    pub(crate) fn of(&self, message: &Message) -> Option<usize>
        ensures { result ≡ place_in self.now message.now }
    {
        self.places.get(message).copied()
    }
}
