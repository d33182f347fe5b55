//! The messages of the events before one.
ghost use Rattle.std.specs.Prelude.{◌≡◌, ◌+◌, ◌<◌, None, List, OnOk, IfSome, IfNone, IfOk, ◌≤◌, length};
ghost use Rattle.abt_chart.specs.Arrows.{brought_at, IsArrival};
ghost use Rattle.abt_chart.specs.Before.{IsBefore};
ghost use Rattle.abt_chart.specs.declared.told.Told.{Told as ToldSpec};

use crate::arrow::Arrival;
use crate::places::Places;
use crate::requests::Requests;
use crate::told::Told;
use std::alloc::{AllocError, Global};
use std::marker::Model;

// What is known of the messages of the events before one.
#[derive(Debug, Drop)]
pub(crate) struct Before {
    // The newest event that sent each.
    sent: Places,
    // The newest event that brought each.
    came: Places,
    // The newest request of each source.
    requests: Requests,
}

impl Model for Before {
    ghost use Rattle.abt_chart.specs.Before.{BeforeView};

    ghost Value = { BeforeView };

    ghost view = { λ b. record { sent = b.sent; came = b.came; requests = b.requests } };
}

impl Before {
    // No event came before.
    fn new(alloc: Global) -> Before
        ensures { (told : List ToldSpec) → IsBefore told 0 result }
    {
        Before {
            sent: Places::new(alloc),
            came: Places::new(alloc),
            requests: Requests::new(alloc),
        }
    }

    // What is known before an event of a run.
    pub(crate) fn of(alloc: Global, told: &[Told], place: usize) -> Result<Before, AllocError>
        requires { place ≤ length told.now }
        ensures { IfOk result (IsBefore told.now place) }
    {
        let mut before = Before::new(alloc);
        for earlier in 0..place {
            before.note(told, earlier)?;
        }
        Ok(before)
    }

    // Takes down the messages of an event, before which it stands.
    pub(crate) fn note(&mut self, told: &[Told], place: usize) -> Result<(), AllocError>
        requires within { place < length told.now }
        requires before { IsBefore told.now place self.old }
        ensures { OnOk result (IsBefore told.now (place + 1) self.new) }
    {
        self.sent.note(told[place].sent, place)?;
        self.came.note(told[place].brought, place)?;
        self.requests.note(told[place].sent)
    }

    // What an event brings to where it happens, if it brings a message.
    pub(crate) fn arrival_at(&self, told: &[Told], place: usize) -> Option<Arrival>
        requires within { place < length told.now }
        requires before { IsBefore told.now place self.now }
        ensures some { IfSome result (IsArrival told.now place) }
        ensures none { IfNone result (brought_at told.now place ≡ None) }
    {
        let message = told[place].brought?;
        Some(Arrival {
            message,
            sent: self.sent.of(&message),
            again: self.came.of(&message).is_some(),
            late: self.requests.has_newer(&message),
        })
    }
}
