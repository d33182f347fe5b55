//! Whether a run keeps its history.
use crate::deed::Deed;
use crate::front::{Front, Tally};
use crate::note;
use crate::place::{Naming, Place};
use std::marker::PhantomData;
use std::sync::Wait;

/// Whether a run keeps its history, and what its ports, sources and messages carry for that.
pub trait Keeping {
    ghost use Rattle.std.specs.Prelude.{◌≡◌, ◌+◌, ◌<◌, ◌^◌, Bool, List, ℕ};
    ghost use mathlib.Core.List.{IsPrefix};
    ghost use Rattle.abt_net.specs.Topology.{Topology, IsWithinRules};
    ghost use Rattle.abt_history.specs.declared.deed.Deed.{Deed};
    ghost use Rattle.abt_history.specs.Legal.{IsLegal, IsNoted, MayNote};
    ghost use Rattle.abt_history.specs.Modes.{When};

    /// What was seen of the history.
    type Front: Drop;

    /// How many deeds the history has of a port or a source.
    type Tally: Drop;

    ghost kept: { Bool };

    ghost net: { Topology };

    ghost log: { Self.Front → List Deed };

    ghost key: { Self.Tally → ℕ };

    /// A copy.
    fn again(front: &Self::Front) -> Self::Front
        ensures value { log result ≡ log front.now }
        ensures legal { When kept (IsWithinRules net × IsLegal net (log result)) };

    /// What both saw.
    fn with(front: &Self::Front, other: &Self::Front) -> Self::Front
        ensures { When kept (IsPrefix (log front.now) (log result) × IsPrefix (log other.now) (log result)) };

    /// The history once this deed of a port or a source is in it, behind all that the port or source and another have seen.
    fn note<R: Wait>(
        rt: &R,
        tally: &Self::Tally,
        front: &Self::Front,
        seen: &Self::Front,
        deeds: u64,
        deed: &Deed,
    ) -> Self::Front
        requires room { deeds + 1 < 2 ^ 64 }
        requires may { When kept (MayNote net (log front.now) (log seen.now) (key tally.now) deeds deed.now) }
        ensures { When kept
            (IsNoted net (log front.now) (log seen.now) (log result) (key tally.now) deeds deed.now) };
}

/// All is kept, in a book of this name, of a run over this net.
pub struct Kept<N: Place, J: Naming> {
    of: PhantomData<(N, J)>,
}

impl<N: Place, J: Naming> Keeping for Kept<N, J> {
    ghost use Rattle.std.specs.Prelude.{true};

    type Front = Front<N, J>;

    type Tally = Tally<N, J>;

    ghost kept = { true };

    ghost net = { N.net };

    ghost log = { λ front. front };

    ghost key = { λ tally. tally.key };

    fn again(front: &Front<N, J>) -> Front<N, J> {
        front.again()
    }

    fn with(front: &Front<N, J>, other: &Front<N, J>) -> Front<N, J> {
        front.with(other)
    }

    fn note<R: Wait>(
        rt: &R,
        tally: &Tally<N, J>,
        front: &Front<N, J>,
        seen: &Front<N, J>,
        deeds: u64,
        deed: &Deed,
    ) -> Front<N, J> {
        note::note(rt, tally, front, seen, deeds, deed)
    }
}

/// Nothing is kept. As a front or a tally it has no bytes.
#[derive(Drop)]
pub struct NotKept;

impl Keeping for NotKept {
    ghost use Rattle.std.specs.Prelude.{false, []};

    type Front = NotKept;

    type Tally = NotKept;

    ghost kept = { false };

    ghost net = { record { capacities = []; conns = [] } };

    ghost log = { λ front. [] };

    ghost key = { λ tally. 0 };

    fn again(_front: &NotKept) -> NotKept {
        NotKept
    }

    fn with(_front: &NotKept, _other: &NotKept) -> NotKept {
        NotKept
    }

    fn note<R: Wait>(
        _rt: &R,
        _tally: &NotKept,
        _front: &NotKept,
        _seen: &NotKept,
        _deeds: u64,
        _deed: &Deed,
    ) -> NotKept {
        NotKept
    }
}
