//! The newest requests of sources.
ghost use Rattle.std.specs.Prelude.{◌≡◌, ◌↔◌, ◌⊎◌, false, OnOk, IsTrue};
ghost use Rattle.abt_chart.specs.Before.{has_newer, SendsNewer};
ghost use Rattle.abt_chart.specs.declared.message.Message.{Message as MessageSpec};

use crate::message::{Kind, Message, Stop};
use indexmap::IndexMap;
use std::alloc::{AllocError, Global};
use std::marker::Model;

// For each connection the greatest number of its source's own requests, if it sent one.
#[derive(Debug, Drop)]
pub(crate) struct Requests {
    newest: IndexMap<u16, u32>,
}

impl Model for Requests {
    ghost use Rattle.abt_chart.specs.Before.{RequestsView};

    ghost Value = { RequestsView };

    ghost view = { λ r. record { entries = r.newest.entries } };
}

impl Requests {
    // None, of no source.
    pub(crate) fn new(alloc: Global) -> Requests
        ensures { (message : MessageSpec) → has_newer result message ≡ false }
    {
        Requests {
            newest: IndexMap::new(alloc),
        }
    }

    // Takes down a message that was sent, if it is a source's own request.
    pub(crate) fn note(&mut self, sent: Option<Message>) -> Result<(), AllocError>
        ensures { OnOk result ((m : MessageSpec) →
            IsTrue (has_newer self.new m) ↔ (IsTrue (has_newer self.old m) ⊎ SendsNewer sent m)) }
    {
        if let Some(message) = sent {
            if message.kind == Kind::Request && message.stop == Stop::Hop(1) {
                let newest = self.newest.get(&message.conn).copied().unwrap_or(0);
                self.newest.insert(message.conn, newest.max(message.seq))?;
            }
        }
        Ok(())
    }

    // Whether the source of its connection sent a newer request than a message.
    pub(crate) fn has_newer(&self, message: &Message) -> bool
        ensures { result ≡ has_newer self.now message.now }
    {
        match self.newest.get(&message.conn) {
            Some(newest) => message.seq < *newest,
            None => false,
        }
    }
}
