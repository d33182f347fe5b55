//! The states of a port and of a connection at it that a C program keeps. Rates of a port are units, those of a connection codes.
ghost use Rattle.std.specs.Prelude.{◌≡◌, ◌≢◌, ◌+◌, ◌-◌, ◌<◌, ◌≤◌, ◌^◌, ◌↔◌, IsTrue};
ghost use Rattle.abt_rate.specs.Rate.{units_of};
ghost use Rattle.abt_cell.specs.Message.{Reply};
ghost use Rattle.abt_node.specs.Reservation.{first_reservation, answer_of, decided_as, no_to, pass_or_refuse};
ghost use Rattle.abt_c.specs.Ports.{IsPort, IsConnection, IsCounted, port_kind, connection_kind, channel_in, reservation_in, held_in, port_after, decision_at};

use abt_cell::{Answer, Request, Vc};
use abt_node::{Back, DropCause, Onward};
use abt_rate::{CAPACITY_MAX, Rate};

/// The kinds, eight letters each (docs/C.md, "States").
pub const PORT_KIND: u64 = 0x6162_7420_706f_7274;

pub const CONNECTION_KIND: u64 = 0x6162_7420_636f_6e6e;

/// The state of a port.
#[repr(C)]
#[derive(Clone, Copy)]
pub struct AbtPort {
    pub kind: u64,
    pub capacity: u64,
    pub total: u64,
}

/// The state of a connection at a port.
#[repr(C)]
#[derive(Clone, Copy)]
pub struct AbtConnection {
    pub kind: u64,
    pub newest: u32,
    pub is_open: u32,
    pub vpi: u16,
    pub vci: u16,
    pub floor: u16,
    pub ask: u16,
}

impl AbtPort {
    /// Whether the state is one of a port.
    pub fn is_port(&self) -> bool
        ensures { IsTrue result ↔ IsPort self.now }
    {
        self.kind == PORT_KIND && self.total <= self.capacity && self.capacity <= CAPACITY_MAX
    }

    /// Whether the states are those of a port and of a connection that it can count.
    pub fn is_counted(&self, connection: &AbtConnection) -> bool
        ensures { IsTrue result ↔ IsCounted self.now connection.now }
    {
        self.is_port() && connection.is_connection() && connection.held().units() <= self.total
    }

    /// Counts another rate for a connection.
    fn count(&mut self, before: Rate, after: Rate)
        requires counted { before ≤ self.old.total }
        requires fits { self.old.total - before + after < 2 ^ 62 }
        ensures { self.new ≡ port_after self.old before after }
    {
        self.total = self.total - before.units() + after.units();
    }
}

impl AbtConnection {
    /// The state of a connection that asked for nothing yet.
    pub fn first(vc: Vc) -> AbtConnection
        ensures state { IsConnection result }
        ensures value { reservation_in result ≡ first_reservation }
        ensures vc { channel_in result ≡ vc }
    {
        AbtConnection {
            kind: CONNECTION_KIND,
            newest: 0,
            is_open: 0,
            vpi: vc.vpi(),
            vci: vc.vci(),
            floor: 0,
            ask: 0,
        }
    }

    /// Whether the state is one of a connection.
    pub fn is_connection(&self) -> bool
        ensures { IsTrue result ↔ IsConnection self.now }
    {
        self.kind == CONNECTION_KIND && self.vpi < 4096 && self.floor() <= self.ask()
    }

    fn floor(&self) -> Rate
        ensures { result ≡ units_of self.now.floor }
    {
        Rate::from_code(self.floor)
    }

    fn ask(&self) -> Rate
        ensures { result ≡ units_of self.now.ask }
    {
        Rate::from_code(self.ask)
    }

    /// The rate that is held: the asked rate while the newest request is open, and else its floor.
    pub fn held(&self) -> Rate
        ensures { result ≡ held_in self.now }
    {
        if self.is_open == 0 {
            self.floor()
        } else {
            self.ask()
        }
    }

    /// A code of that rate.
    pub fn held_code(&self) -> u16
        ensures { units_of result ≡ held_in self.now }
    {
        match self.is_open {
            0 => self.floor,
            _ => self.ask,
        }
    }

    /// Whether the state is that of the connection.
    pub fn is_of(&self, vc: Vc) -> bool
        ensures { IsTrue result ↔ (channel_in self.now ≡ vc) }
    {
        self.vpi == vc.vpi() && self.vci == vc.vci()
    }

    /// Decides a request: the line of the node's table for requests.
    pub fn apply_request(&mut self, port: &mut AbtPort, request: &Request) -> Onward
        requires { IsCounted port.old self.old }
        ensures line { (result, reservation_in self.new) ≡ decision_at port.old self.old request.now }
        ensures port { port.new ≡ port_after port.old (held_in self.old) (held_in self.new) }
        ensures state { IsCounted port.new self.new }
        ensures vc { channel_in self.new ≡ channel_in self.old }
        ensures known { result ≢ Onward.Drop DropCause.UnknownVc }
        ensures no { (reply : Reply) → result ≡ Onward.Refuse reply → reply ≡ no_to request.now }
    {
        if request.seq() < self.newest {
            return Onward::Drop(DropCause::Stale);
        }
        if request.seq() == self.newest {
            if request.floor() != self.floor() || request.ask() != self.ask() {
                return Onward::Drop(DropCause::Conflict);
            }
            return pass_or_refuse(self.is_open != 0, request);
        }
        let held = self.held();
        if request.floor() > held {
            return Onward::Drop(DropCause::FloorAbove);
        }
        let others = port.total - held.units();
        let fits = request.ask().units() <= port.capacity - others;
        let now_held = if fits { request.ask() } else { request.floor() };
        self.decide(fits, request);
        port.count(held, now_held);
        pass_or_refuse(fits, request)
    }

    // Takes a newer request over.
    fn decide(&mut self, fits: bool, request: &Request)
        requires { IsConnection self.old }
        ensures value { reservation_in self.new ≡ decided_as fits request.now }
        ensures state { IsConnection self.new }
        ensures vc { channel_in self.new ≡ channel_in self.old }
    {
        self.newest = request.seq();
        self.is_open = if fits { 1 } else { 0 };
        self.floor = request.floor().code();
        self.ask = request.ask().code();
    }

    /// Takes an answer: the line of the node's table for answers.
    pub fn apply_answer(&mut self, port: &mut AbtPort, answer: &Answer) -> Back
        requires { IsCounted port.old self.old }
        ensures line { (result, reservation_in self.new) ≡ answer_of (reservation_in self.old) answer.now }
        ensures known { result ≢ Back.Drop DropCause.UnknownVc }
        ensures port { port.new ≡ port_after port.old (held_in self.old) (held_in self.new) }
        ensures state { IsCounted port.new self.new }
        ensures vc { channel_in self.new ≡ channel_in self.old }
    {
        if answer.seq() < self.newest {
            return Back::Drop(DropCause::Stale);
        }
        let is_of = answer.seq() == self.newest
            && answer.floor() == self.floor()
            && answer.ask() == self.ask();
        if !is_of || (answer.granted() && self.is_open == 0) {
            return Back::Drop(DropCause::Conflict);
        }
        if !answer.granted() {
            let held = self.held();
            self.is_open = 0;
            port.count(held, self.floor());
        }
        Back::Pass
    }
}

// Open passes, shut refuses.
fn pass_or_refuse(is_open: bool, request: &Request) -> Onward
    ensures { result ≡ pass_or_refuse is_open request.now }
{
    if is_open {
        Onward::Pass
    } else {
        Onward::Refuse(Answer::of(request, false))
    }
}
