//! The states of a source.
use abt_cell::Request;
use abt_rate::Rate;

mod sealed {
    pub trait Sealed {}
}

/// A state of a source. There are three, and no other crate can add one.
pub trait State: sealed::Sealed + Drop {
    ghost use Rattle.std.specs.Prelude.{ℕ, Option, ◌≡◌};
    ghost use Rattle.abt_cell.specs.Message.{Terms};
    ghost use Rattle.abt_facts.specs.Source.{SourceState};
    ghost use Rattle.abt_source.specs.Calls.{asked_in};

    /// The request that waits for its answer.
    ghost newest: { Self → Option Terms };

    /// The state by the facts of the connection, at a source with this last number.
    ghost state_at: { (last : ℕ) → SourceState };

    /// The rate that the open request asks for, which is zero if none waits for its answer.
    fn open_ask(&self) -> Rate
        ensures { result ≡ asked_in (newest self.now) };
}

/// A state of a source that was started: [`Idle`] or [`Asking`].
pub trait Up: State {
    ghost use Rattle.std.specs.Prelude.{ℕ, ◌≢◌};
    ghost use Rattle.abt_facts.specs.Source.SourceState.{Down};

    /// The state isn't [`Down`].
    ghost is_up: { (last : ℕ) → Self.state_at last ≢ Down };
}

/// The source isn't started. It may have crashed.
#[derive(Clone, Copy, Debug)]
pub struct Down;

/// The source was started, and waits for no answer.
#[derive(Clone, Copy, Debug)]
pub struct Idle;

/// The source waits for the answer to its newest request, and shapes at that request's floor meanwhile.
#[derive(Clone, Copy, Debug)]
pub struct Asking {
    pub(crate) request: Request,
}

impl sealed::Sealed for Down {}

impl sealed::Sealed for Idle {}

impl sealed::Sealed for Asking {}

impl State for Down {
    ghost use Rattle.std.specs.Prelude.{None};
    ghost use Rattle.abt_facts.specs.Source as state;

    ghost newest = { λ _. None };

    ghost state_at = { λ _. state.Down };

    fn open_ask(&self) -> Rate {
        Rate::ZERO
    }
}

impl State for Idle {
    ghost use Rattle.std.specs.Prelude.{None};
    ghost use Rattle.abt_facts.specs.Source as state;

    ghost newest = { λ _. None };

    ghost state_at = { λ _. state.Idle };

    fn open_ask(&self) -> Rate {
        Rate::ZERO
    }
}

impl State for Asking {
    ghost use Rattle.std.specs.Prelude.{Some};
    ghost use Rattle.abt_facts.specs.Source as state;

    ghost newest = { λ asking. Some asking.request };

    ghost state_at = { λ last. state.Asking last };

    fn open_ask(&self) -> Rate {
        self.request.ask()
    }
}

impl Up for Idle {
    ghost is_up = { λ last same. Prim.cc };
}

impl Up for Asking {
    ghost is_up = { λ last same. Prim.cc };
}
