//! A grant in either state, and what requests and answers make of it.
ghost use Rattle.std.specs.Prelude.{◌≡◌, ◌+◌, ◌-◌, ◌<◌, ◌≤◌, false, nat_le};
ghost use Rattle.abt_node.specs.Reservation.{first_reservation, held_by, decided_as, pass_or_refuse, decision_of, answer_of};
ghost use Rattle.abt_node.specs.Rows.{reservation_of};

use crate::grant::{self, Decided, Grant};
use crate::reply::{Back, DropCause, Onward};
use abt_cell::{Answer, Request};
use abt_ledger::Ledger;
use abt_rate::Rate;
use std::mem;

/// A grant in either state.
#[must_use]
#[derive(Debug)]
pub enum AnyGrant {
    Open(Grant<grant::Open>),
    Shut(Grant<grant::Shut>),
}

impl AnyGrant {
    /// The grant of a connection that asked for nothing yet.
    pub fn first(ledger: &mut Ledger) -> AnyGrant
        ensures value { reservation_of result ≡ first_reservation }
        ensures same { ledger.new ≡ ledger.old }
    {
        AnyGrant::Shut(Grant::first(ledger.open()))
    }

    /// The number of the newest request that was decided, 0 before the first.
    pub fn newest(&self) -> u32
        ensures { result ≡ (reservation_of self.now).newest }
    {
        match self {
            AnyGrant::Open(grant) => grant.seq(),
            AnyGrant::Shut(grant) => grant.seq(),
        }
    }

    /// The floor of that request.
    pub fn floor(&self) -> Rate
        ensures { result ≡ (reservation_of self.now).floor }
    {
        match self {
            AnyGrant::Open(grant) => grant.floor(),
            AnyGrant::Shut(grant) => grant.floor(),
        }
    }

    /// The rate that it asked for.
    pub fn ask(&self) -> Rate
        ensures { result ≡ (reservation_of self.now).ask }
    {
        match self {
            AnyGrant::Open(grant) => grant.ask(),
            AnyGrant::Shut(grant) => grant.ask(),
        }
    }

    /// The rate that is held.
    pub fn held(&self) -> Rate
        ensures { result ≡ held_by (reservation_of self.now) }
    {
        match self {
            AnyGrant::Open(grant) => grant.held(),
            AnyGrant::Shut(grant) => grant.held(),
        }
    }

    /// Whether what was asked for is reserved; otherwise only the floor is.
    pub fn is_open(&self) -> bool
        ensures { result ≡ (reservation_of self.now).is_open }
    {
        matches!(self, AnyGrant::Open(_))
    }

    /// Gives the hold back.
    pub fn close(self, ledger: &mut Ledger)
        requires { held_by (reservation_of self) ≤ ledger.old.total }
        ensures total { ledger.new.total ≡ ledger.old.total - held_by (reservation_of self) }
        ensures capacity { ledger.new.capacity ≡ ledger.old.capacity }
    {
        match self {
            AnyGrant::Open(grant) => grant.close(ledger),
            AnyGrant::Shut(grant) => grant.close(ledger),
        }
    }

    /// Decides a request: the line of the node's table for requests.
    pub fn apply_request(&mut self, ledger: &mut Ledger, request: &Request) -> Onward
        requires { held_by (reservation_of self.old) ≤ ledger.old.total }
        ensures line { (result, reservation_of self.new) ≡ decision_of ledger.old.capacity
            (ledger.old.total - held_by (reservation_of self.old)) (reservation_of self.old) request.now }
        ensures total { ledger.new.total ≡ ledger.old.total - held_by (reservation_of self.old)
            + held_by (reservation_of self.new) }
        ensures capacity { ledger.new.capacity ≡ ledger.old.capacity }
    {
        let newest = self.newest();
        if request.seq() < newest {
            return Onward::Drop(DropCause::Stale);
        }
        if request.seq() == newest {
            if request.floor() != self.floor() || request.ask() != self.ask() {
                return Onward::Drop(DropCause::Conflict);
            }
            return pass_or_refuse(self.is_open(), request);
        }
        if request.floor() > self.held() {
            return Onward::Drop(DropCause::FloorAbove);
        }
        // A decision uses a grant up, so one of nothing stands in its place meanwhile.
        let blank = AnyGrant::first(ledger);
        let decided = mem::replace(self, blank).decide(ledger, request);
        let is_open = decided.is_open();
        mem::replace(self, decided).close(ledger);
        pass_or_refuse(is_open, request)
    }

    /// Takes an answer: the line of the node's table for answers.
    pub fn apply_answer(&mut self, ledger: &mut Ledger, answer: &Answer) -> Back
        requires { held_by (reservation_of self.old) ≤ ledger.old.total }
        ensures line { (result, reservation_of self.new) ≡ answer_of (reservation_of self.old) answer.now }
        ensures total { ledger.new.total ≡ ledger.old.total - held_by (reservation_of self.old)
            + held_by (reservation_of self.new) }
        ensures capacity { ledger.new.capacity ≡ ledger.old.capacity }
    {
        let newest = self.newest();
        if answer.seq() < newest {
            return Back::Drop(DropCause::Stale);
        }
        let is_of = answer.seq() == newest
            && answer.floor() == self.floor()
            && answer.ask() == self.ask();
        if !is_of || (answer.granted() && !self.is_open()) {
            return Back::Drop(DropCause::Conflict);
        }
        if !answer.granted() {
            // Shutting uses a grant up, so one of nothing stands in its place meanwhile.
            let blank = AnyGrant::first(ledger);
            let shut = mem::replace(self, blank).shut(ledger);
            mem::replace(self, shut).close(ledger);
        }
        Back::Pass
    }

    // A newer request: open if it fits, and else shut.
    fn decide(self, ledger: &mut Ledger, request: &Request) -> AnyGrant
        requires newer { (reservation_of self).newest < request.now.seq }
        requires covered { request.now.floor ≤ held_by (reservation_of self) }
        requires counted { held_by (reservation_of self) ≤ ledger.old.total }
        ensures value { reservation_of result ≡ decided_as
            (nat_le (ledger.old.total - held_by (reservation_of self) + request.now.ask) ledger.old.capacity)
            request.now }
        ensures total { ledger.new.total
            ≡ ledger.old.total - held_by (reservation_of self) + held_by (reservation_of result) }
        ensures capacity { ledger.new.capacity ≡ ledger.old.capacity }
    {
        let decided = match self {
            AnyGrant::Open(grant) => grant.decide(ledger, request),
            AnyGrant::Shut(grant) => grant.decide(ledger, request),
        };
        match decided {
            Decided::Opened(grant) => AnyGrant::Open(grant),
            Decided::Refused(grant) => AnyGrant::Shut(grant),
        }
    }

    // A no to the newest request: what is open is shut, and what is shut stays.
    fn shut(self, ledger: &mut Ledger) -> AnyGrant
        requires { held_by (reservation_of self) ≤ ledger.old.total }
        ensures value { reservation_of result ≡ record (reservation_of self) { is_open = false } }
        ensures total { ledger.new.total
            ≡ ledger.old.total - held_by (reservation_of self) + held_by (reservation_of result) }
        ensures capacity { ledger.new.capacity ≡ ledger.old.capacity }
    {
        match self {
            AnyGrant::Open(grant) => AnyGrant::Shut(grant.shut(ledger)),
            AnyGrant::Shut(grant) => AnyGrant::Shut(grant),
        }
    }
}

// Open passes, shut refuses.
fn pass_or_refuse(is_open: bool, request: &Request) -> Onward
    ensures { result ≡ pass_or_refuse is_open request.now }
{
    if is_open {
        Onward::Pass
    } else {
        Onward::Refuse(Answer::of(request, false))
    }
}
