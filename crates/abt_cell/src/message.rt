//! Requests for a rate, and the answers to them.

ghost use Rattle.std.specs.Prelude.{◌≡◌, ◌<◌, ◌≤◌, ◌↔◌, IsSome, IfSome};

use crate::layout::{ACKNOWLEDGEMENT, CONGESTION, DIRECTION, RIGID};
use crate::vc::Vc;
use abt_rate::Rate;
use std::marker::Model;

/// The flags of a request, of a yes and of a no, as they are written.
const REQUEST_FLAGS: u8 = 1 << RIGID;

const YES_FLAGS: u8 = 1 << DIRECTION | 1 << ACKNOWLEDGEMENT | 1 << RIGID;

const NO_FLAGS: u8 = YES_FLAGS | 1 << CONGESTION;

/// A request of a source for a rate on its channel (I.371, block transfer with delayed transmission; docs/RULES.md,
/// "Source"). It has a number, from 1, the floor, which is the rate that the source keeps until it hears an answer, and the
/// rate that it asks for, which is at least the floor.
#[derive(Clone, Copy, Debug, PartialEq, Eq, Hash)]
pub struct Request {
    vc: Vc,
    seq: u32,
    floor: Rate,
    ask: Rate,
}

impl Model for Request {
    ghost use Rattle.std.specs.Prelude.{◌<◌, ◌≤◌};
    ghost use Rattle.abt_cell.specs.Message.{Terms};

    ghost Value = { Terms };

    ghost view = { λ r. record { vc = r.vc; seq = r.seq; floor = r.floor; ask = r.ask } };

    ghost invariant = { λ r. (0 < r.seq) × (r.floor ≤ r.ask) };

    ghost inverse = { λ t. record { vc = t.vc; seq = t.seq; floor = t.floor; ask = t.ask } };
}

impl Request {
    /// The request with this number, floor and asked rate, or `None` if the number is 0 or the asked rate is below the
    /// floor.
    pub fn new(vc: Vc, seq: u32, floor: Rate, ask: Rate) -> Option<Request>
        ensures some { IsSome result ↔ ((0 < seq) × (floor ≤ ask)) }
        ensures value { IfSome result (λ r. r ≡ record { vc = vc; seq = seq; floor = floor; ask = ask }) }
    {
        if seq == 0 || ask < floor {
            return None;
        }
        Some(Request {
            vc,
            seq,
            floor,
            ask,
        })
    }

    /// The channel that the request is about.
    pub fn vc(&self) -> Vc
        ensures { result ≡ self.now.vc }
    {
        self.vc
    }

    /// The sequence number, from 1.
    pub fn seq(&self) -> u32
        ensures value { result ≡ self.now.seq }
        ensures positive { 0 < result }
    {
        self.seq
    }

    /// The rate that the source keeps until it hears an answer.
    pub fn floor(&self) -> Rate
        ensures value { result ≡ self.now.floor }
        ensures order { self.now.floor ≤ self.now.ask }
    {
        self.floor
    }

    /// The rate that is asked for.
    pub fn ask(&self) -> Rate
        ensures value { result ≡ self.now.ask }
        ensures order { self.now.floor ≤ self.now.ask }
    {
        self.ask
    }
}

/// An answer to a request, which repeats all of it: a yes if the asked rate was granted along the whole path, a no if
/// some port refused it (I.371; docs/RULES.md, "Path").
#[derive(Clone, Copy, Debug, PartialEq, Eq, Hash)]
pub struct Answer {
    request: Request,
    granted: bool,
}

impl Model for Answer {
    ghost use Rattle.abt_cell.specs.Message.{Reply};

    ghost Value = { Reply };

    ghost view = { λ a. record { terms = a.request; granted = a.granted } };

    ghost inverse = { λ r. record { request = r.terms; granted = r.granted } };
}

impl Answer {
    /// The answer to a request: a yes if it was granted, else a no.
    pub fn of(request: &Request, granted: bool) -> Answer
        ensures { result ≡ record { terms = request.now; granted = granted } }
    {
        Answer {
            request: *request,
            granted,
        }
    }

    /// The channel of the request that is answered.
    pub fn vc(&self) -> Vc
        ensures { result ≡ self.now.terms.vc }
    {
        self.request.vc()
    }

    /// The sequence number of the request that is answered.
    pub fn seq(&self) -> u32
        ensures value { result ≡ self.now.terms.seq }
        ensures positive { 0 < result }
    {
        self.request.seq()
    }

    /// The floor of the request that is answered.
    pub fn floor(&self) -> Rate
        ensures value { result ≡ self.now.terms.floor }
        ensures order { self.now.terms.floor ≤ self.now.terms.ask }
    {
        self.request.floor()
    }

    /// The asked rate of the request that is answered.
    pub fn ask(&self) -> Rate
        ensures value { result ≡ self.now.terms.ask }
        ensures order { self.now.terms.floor ≤ self.now.terms.ask }
    {
        self.request.ask()
    }

    // The request that is answered.
    pub(crate) fn request(&self) -> Request
        ensures { result ≡ self.now.terms }
    {
        self.request
    }

    /// Whether it is a yes.
    pub fn granted(&self) -> bool
        ensures { result ≡ self.now.granted }
    {
        self.granted
    }
}

/// What an RM cell carries: a request on its way forward, or an answer on its way back.
#[derive(Clone, Copy, Debug, PartialEq, Eq, Hash)]
pub enum Rm {
    /// A request, forward.
    Request(Request),
    /// An answer, backward.
    Answer(Answer),
}

impl Rm {
    ghost use Rattle.abt_cell.specs.Codec.{request_of, flags_of};

    /// The request that is made or answered.
    pub fn request(&self) -> Request
        ensures { result ≡ request_of self.now }
    {
        match self {
            Rm::Request(request) => *request,
            Rm::Answer(answer) => answer.request(),
        }
    }

    // The flags as they are written.
    pub(crate) fn flags(&self) -> u8
        ensures { result ≡ flags_of self.now }
    {
        match self {
            Rm::Request(_) => REQUEST_FLAGS,
            Rm::Answer(answer) if answer.granted() => YES_FLAGS,
            Rm::Answer(_) => NO_FLAGS,
        }
    }
}
