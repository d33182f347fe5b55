//! What a connection was granted, in a state that is a type.
ghost use Rattle.std.specs.Prelude.{◌≡◌, ◌+◌, ◌-◌, ◌<◌, ◌≤◌, nat_le};
ghost use Rattle.abt_node.specs.GrantView.{first_grant};
ghost use Rattle.abt_node.specs.Decided.{decided_by, held_in};

use abt_cell::Request;
use abt_ledger::{Hold, Ledger};
use abt_rate::Rate;
use std::marker::{Model, PhantomData};

mod sealed {
    pub trait Sealed {}
}

/// A state of a [`Grant`]: [`Open`] or [`Shut`].
pub trait State: sealed::Sealed {
    ghost use Rattle.std.specs.Prelude.{ℕ};
    ghost use Rattle.abt_node.specs.GrantView.{GrantView};

    /// The rate that a grant holds in this state.
    ghost held: { GrantView → ℕ };
}

/// The state in which the asked rate is held.
#[derive(Clone, Copy, Debug)]
pub struct Open;

/// The state in which the floor is held.
#[derive(Clone, Copy, Debug)]
pub struct Shut;

impl sealed::Sealed for Open {}

impl sealed::Sealed for Shut {}

impl State for Open {
    ghost held = { λ g. g.ask };
}

impl State for Shut {
    ghost held = { λ g. g.floor };
}

/// What the newest request of a connection was granted on one link, with the hold that bears it
/// (docs/RULES.md, "Node"). It can't be dropped: its hold goes back to its ledger.
///
/// ```text
///               decide, and it fits
///          +-------------------------------+
///          |                               v
///  first -> Shut (holds the floor)      Open (holds the asked rate)
///          ^                               |
///          +-------------------------------+
///           shut, or decide and it does not fit
///
///  A decide that comes to the same state leaves it with the newer request.
/// ```
#[must_use]
#[derive(Debug)]
pub struct Grant<S: State> {
    seq: u32,
    floor: Rate,
    ask: Rate,
    hold: Hold,
    state: PhantomData<S>,
}

impl<S: State> Model for Grant<S> {
    ghost use Rattle.std.specs.Prelude.{◌≡◌, ◌≤◌};
    ghost use Rattle.abt_node.specs.GrantView.{GrantView};

    ghost Value = { GrantView };

    ghost view = { λ g. record { seq = g.seq; floor = g.floor; ask = g.ask } };

    ghost invariant = { λ g. (g.floor ≤ g.ask)
        × (g.hold ≡ S.held (record { seq = g.seq; floor = g.floor; ask = g.ask })) };
}

/// A grant after a newer request was decided.
#[must_use]
#[derive(Debug)]
pub enum Decided {
    /// The asked rate fits, and is held.
    Opened(Grant<Open>),
    /// It doesn't fit, and the floor is held.
    Refused(Grant<Shut>),
}

impl<S: State> Grant<S> {
    /// The number of the request, or 0 before the first.
    pub fn seq(&self) -> u32
        ensures { result ≡ self.now.seq }
    {
        self.seq
    }

    /// The floor of the request.
    pub fn floor(&self) -> Rate
        ensures { result ≡ self.now.floor }
    {
        self.floor
    }

    /// The rate that the request asked for.
    pub fn ask(&self) -> Rate
        ensures { result ≡ self.now.ask }
    {
        self.ask
    }

    /// The rate that is held.
    pub fn held(&self) -> Rate
        ensures { result ≡ S.held self.now }
    {
        self.hold.rate()
    }

    /// Decides a newer request: open if the asked rate fits, and else shut at its floor.
    pub fn decide(self, ledger: &mut Ledger, request: &Request) -> Decided
        requires newer { self.seq < request.now.seq }
        requires covered { request.now.floor ≤ S.held self }
        requires counted { S.held self ≤ ledger.old.total }
        ensures value { result ≡ decided_by
            (nat_le (ledger.old.total - S.held self + request.now.ask) ledger.old.capacity)
            request.now }
        ensures total { ledger.new.total ≡ ledger.old.total - S.held self + held_in result }
        ensures capacity { ledger.new.capacity ≡ ledger.old.capacity }
    {
        let hold = self.into_hold();
        let (seq, floor, ask) = (request.seq(), request.floor(), request.ask());
        match ledger.change(hold, ask) {
            Ok(hold) => Decided::Opened(Grant {
                seq,
                floor,
                ask,
                hold,
                state: PhantomData,
            }),
            Err(hold) => {
                // The floor is at most what was held, so it fits.
                let (Ok(hold) | Err(hold)) = ledger.change(hold, floor);
                Decided::Refused(Grant {
                    seq,
                    floor,
                    ask,
                    hold,
                    state: PhantomData,
                })
            }
        }
    }

    /// Ends the grant: the hold goes back to its ledger.
    pub fn close(self, ledger: &mut Ledger)
        requires { S.held self ≤ ledger.old.total }
        ensures total { ledger.new.total ≡ ledger.old.total - S.held self }
        ensures capacity { ledger.new.capacity ≡ ledger.old.capacity }
    {
        ledger.close(self.into_hold());
    }

    fn into_hold(self) -> Hold
        ensures { result ≡ S.held self }
    {
        let Grant {
            seq: _,
            floor: _,
            ask: _,
            hold,
            state: _,
        } = self;
        hold
    }
}

impl Grant<Shut> {
    /// The grant of a connection that asked for nothing yet, shut with floor 0.
    pub fn first(hold: Hold) -> Grant<Shut>
        requires { hold ≡ 0 }
        ensures { result ≡ first_grant }
    {
        Grant {
            seq: 0,
            floor: Rate::ZERO,
            ask: Rate::ZERO,
            hold,
            state: PhantomData,
        }
    }
}

impl Grant<Open> {
    /// Gives back what is held above the floor.
    pub fn shut(self, ledger: &mut Ledger) -> Grant<Shut>
        requires { self.ask ≤ ledger.old.total }
        ensures value { result ≡ self }
        ensures total { ledger.new.total ≡ ledger.old.total - self.ask + self.floor }
        ensures capacity { ledger.new.capacity ≡ ledger.old.capacity }
    {
        let Grant {
            seq,
            floor,
            ask,
            hold,
            state: _,
        } = self;
        // The floor is at most the asked rate, so it fits.
        let (Ok(hold) | Err(hold)) = ledger.change(hold, floor);
        Grant {
            seq,
            floor,
            ask,
            hold,
            state: PhantomData,
        }
    }
}
