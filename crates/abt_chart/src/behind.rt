//! The messages of the events behind one.
ghost use Rattle.std.specs.Prelude.{◌≡◌, ◌↔◌, ◌+◌, ◌<◌, ◌≤◌, None, Some, OnOk, IfOk, IfSome, IfNone, IsTrue, length};
ghost use Rattle.abt_chart.specs.Arrows.{sent_at, IsDeparture, IsFirstComing, NeverComes};
ghost use Rattle.abt_chart.specs.Behind.{AreNext, AreSendings, IsSending};

use crate::arrow::Departure;
use crate::message::Message;
use crate::places::Places;
use crate::told::Told;
use abt_model::Sequence;
use std::alloc::{AllocError, Global};

// What so many events before one of a run send, the last first.
pub(crate) fn departures_of(
    alloc: Global,
    told: &[Told],
    end: usize,
    count: usize,
) -> Result<Sequence<Option<Departure>>, AllocError>
    requires within { end ≤ length told.now }
    requires count { count ≤ end }
    ensures { IfOk result (AreSendings told.now end count) }
{
    let mut places = places_from(alloc, told, end)?;
    let mut departures = Sequence::new(alloc);
    for back in 0..count {
        let place = end - 1 - back;
        departures.push(departure_at(told, &places, place))?;
        note(&mut places, told, place)?;
    }
    Ok(departures)
}

// Where each message is sent or brought first, from an event of a run on.
fn places_from(alloc: Global, told: &[Told], first: usize) -> Result<Places, AllocError>
    requires { first ≤ length told.now }
    ensures { IfOk result (AreNext told.now first) }
{
    let mut places = Places::new(alloc);
    for back in 0..told.len() - first {
        note(&mut places, told, told.len() - 1 - back)?;
    }
    Ok(places)
}

// Takes down the messages of an event, behind which it stands.
fn note(places: &mut Places, told: &[Told], place: usize) -> Result<(), AllocError>
    requires within { place < length told.now }
    requires next { AreNext told.now (place + 1) places.old }
    ensures { OnOk result (AreNext told.now place places.new) }
{
    places.note(told[place].sent, place)?;
    places.note(told[place].brought, place)
}

// What an event sends, if it sends a message.
fn departure_at(told: &[Told], places: &Places, place: usize) -> Option<Departure>
    requires within { place < length told.now }
    requires next { AreNext told.now (place + 1) places.now }
    ensures { IsSending told.now place result }
{
    let message = told[place].sent?;
    Some(Departure {
        message,
        came: first_coming(told, places, &message, place),
    })
}

// The first event that brings what an event sends.
fn first_coming(told: &[Told], places: &Places, message: &Message, place: usize) -> Option<usize>
    requires sends { sent_at told.now place ≡ Some message.now }
    requires within { place < length told.now }
    requires next { AreNext told.now (place + 1) places.now }
    ensures some { IfSome result (IsFirstComing told.now message.now place) }
    ensures none { IfNone result (NeverComes told.now message.now place) }
{
    let next = places.of(message)?;
    if brings(&told[next], message) {
        Some(next)
    } else {
        None
    }
}

// Whether an event brought a message.
fn brings(told: &Told, message: &Message) -> bool
    ensures { IsTrue result ↔ (told.now.brought ≡ Some message.now) }
{
    match told.brought {
        Some(brought) => brought == *message,
        None => false,
    }
}
