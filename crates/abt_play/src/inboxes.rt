//! Answers that wait at sources.
ghost use Rattle.std.specs.Prelude.{◌≡◌, ◌≢◌, ◌↔◌, ◌<◌, ◌++◌, [], ◌∷◌, ℕ, length, IsTrue, IfSome, IfNone, OnOk, vec_len};
ghost use Rattle.abt_play.specs.Waiting.{box_of, boxes_of};

use abt_model::Event;
use std::alloc::{AllocError, Global};
use std::collections::VecDeque;
use std::marker::Model;

/// The answers that came to the source of each connection, and at which it hasn't looked, the oldest first.
#[derive(Drop)]
pub(crate) struct Inboxes {
    alloc: Global,
    boxes: Vec<VecDeque<Event>>,
}

impl Model for Inboxes {
    ghost use Rattle.std.specs.Prelude.{List};
    ghost use Rattle.abt_play.specs.Waiting.{boxes_of};
    ghost use Rattle.abt_model.specs.declared.event.Event.{Event};

    ghost Value = { List (List Event) };

    ghost view = { λ b. boxes_of b.boxes.items };
}

impl Inboxes {
    // No answers.
    pub(crate) fn new(alloc: Global) -> Inboxes
        ensures { (c : ℕ) → box_of result c ≡ [] }
    {
        Inboxes {
            alloc,
            boxes: Vec::new(alloc),
        }
    }

    // An answer waits at the source of a connection, behind those that came before it.
    pub(crate) fn put(&mut self, conn: u16, told: &Event) -> Result<(), AllocError>
        ensures put { OnOk result (box_of self.new conn ≡ box_of self.old conn ++ told.now ∷ []) }
        ensures others { (c : ℕ) → c ≢ conn → box_of self.new c ≡ box_of self.old c }
    {
        grow(&mut self.boxes, self.alloc, conn)?;
        put_in(&mut self.boxes, conn, told)
    }

    // The oldest answer to the source of a connection, which waits no longer.
    pub(crate) fn take(&mut self, conn: u16) -> Option<Event>
        ensures some { IfSome result (λ told. box_of self.old conn ≡ told ∷ box_of self.new conn) }
        ensures none { IfNone result ((box_of self.old conn ≡ []) × (box_of self.new conn ≡ [])) }
        ensures others { (c : ℕ) → c ≢ conn → box_of self.new c ≡ box_of self.old c }
    {
        if usize::from(conn) < self.boxes.len() {
            take_of(&mut self.boxes, conn)
        } else {
            None
        }
    }

    // Whether an answer waits at the source of a connection.
    pub(crate) fn has(&self, conn: u16) -> bool
        ensures { IsTrue result ↔ (0 < length (box_of self.now conn)) }
    {
        let place = usize::from(conn);
        place < self.boxes.len() && !self.boxes[place].is_empty()
    }
}

// Has a box of a connection, which is empty if there was none.
fn grow(boxes: &mut Vec<VecDeque<Event>>, alloc: Global, conn: u16) -> Result<(), AllocError>
    ensures room { OnOk result (conn < vec_len boxes.new) }
    ensures same { (c : ℕ) → box_of (boxes_of boxes.new.items) c ≡ box_of (boxes_of boxes.old.items) c }
{
    let place = usize::from(conn);
    while boxes.len() <= place {
        boxes.push(VecDeque::new(alloc))?;
    }
    Ok(())
}

// Adds an answer to the box of a connection.
fn put_in(boxes: &mut Vec<VecDeque<Event>>, conn: u16, told: &Event) -> Result<(), AllocError>
    requires { conn < vec_len boxes.old }
    ensures put { OnOk result (box_of (boxes_of boxes.new.items) conn
        ≡ box_of (boxes_of boxes.old.items) conn ++ told.now ∷ []) }
    ensures others { (c : ℕ) → c ≢ conn → box_of (boxes_of boxes.new.items) c ≡ box_of (boxes_of boxes.old.items) c }
{
    let place = usize::from(conn);
    boxes[place].push_back(*told)?;
    Ok(())
}

// Takes the oldest answer of the box of a connection.
fn take_of(boxes: &mut Vec<VecDeque<Event>>, conn: u16) -> Option<Event>
    requires { conn < vec_len boxes.old }
    ensures some { IfSome result (λ told. box_of (boxes_of boxes.old.items) conn
        ≡ told ∷ box_of (boxes_of boxes.new.items) conn) }
    ensures none { IfNone result ((box_of (boxes_of boxes.old.items) conn ≡ [])
        × (box_of (boxes_of boxes.new.items) conn ≡ [])) }
    ensures others { (c : ℕ) → c ≢ conn → box_of (boxes_of boxes.new.items) c ≡ box_of (boxes_of boxes.old.items) c }
{
    let place = usize::from(conn);
    boxes[place].pop_front()
}
