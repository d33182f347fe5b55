//! What was seen of the history, and how far a port or a source has come.
ghost use Rattle.std.specs.Prelude.{◌≡◌, ◌<◌, ◌+◌, ◌^◌, List, IsTrue};
ghost use mathlib.Core.List.{IsPrefix};
ghost use Rattle.abt_net.specs.Topology.{IsWithinRules};
ghost use Rattle.abt_history.specs.declared.deed.Deed.{Deed};
ghost use Rattle.abt_history.specs.Histories.{words_of};
ghost use Rattle.abt_history.specs.Legal.{IsLegal, MayAt, IsAdded};
ghost use Rattle.abt_history.specs.Rules.{word_of};

use crate::deed::Deed;
use crate::place::{Naming, Place};
use crate::rule::{Add, Law, Nothing};
use logbook::{Offer, Seen, Word};
use std::marker::{Model, PhantomData};

/// How many deeds the history has of a port or a source.
#[derive(Drop)]
pub struct Tally<N: Place, J: Naming> {
    pub(crate) key: usize,
    pub(crate) word: Word<Deed, u64, Law<N>>,
    pub(crate) of: PhantomData<J>,
    pub(crate) ghost low: { key < words_of N.net },
    pub(crate) ghost word_is: { word ≡ word_of key J.book },
}

/// A beginning of the history that was seen. It has no bytes, may be copied and dropped, and only grows.
#[derive(Drop)]
pub struct Front<N: Place, J: Naming> {
    pub(crate) seen: Seen<Deed, u64, Law<N>>,
    pub(crate) of: PhantomData<J>,
}

impl<N: Place, J: Naming> Model for Front<N, J> {
    ghost use Rattle.std.specs.Prelude.{◌≡◌, List};
    ghost use Rattle.abt_net.specs.Topology.{IsWithinRules};
    ghost use Rattle.abt_history.specs.declared.deed.Deed.{Deed};
    ghost use Rattle.abt_history.specs.Legal.{IsLegal};

    ghost Value = { List Deed };

    ghost view = { λ f. f.seen.log };

    ghost invariant = { λ f. (f.seen.book ≡ J.book) × IsWithinRules N.net × IsLegal N.net f.seen.log };
}

impl<N: Place, J: Naming> Front<N, J> {
    /// A copy.
    pub fn again(&self) -> Front<N, J>
        ensures value { result ≡ self.now }
        ensures rules { IsWithinRules N.net }
        ensures legal { IsLegal N.net result }
    {
        Front {
            seen: self.seen.again(),
            of: PhantomData,
        }
    }

    /// What both saw.
    pub fn with(&self, other: &Front<N, J>) -> Front<N, J>
        ensures this { IsPrefix self.now result }
        ensures that { IsPrefix other.now result }
        ensures legal { IsLegal N.net result }
    {
        let mut both = self.seen.again();
        both.learn(&other.seen);
        Front {
            seen: both,
            of: PhantomData,
        }
    }

    // Adds a deed, maybe behind Turns, to the history as it is, if its port or source has so many by then, and says whether it did.
    pub(crate) fn add(&mut self, tally: &Tally<N, J>, deeds: u64, deed: &Deed) -> bool
        requires room { deeds + 1 < 2 ^ 64 }
        requires may { MayAt N.net self.old tally.now.key deeds deed.now }
        ensures legal { IsLegal N.net self.new }
        ensures seen { IsPrefix self.old self.new }
        ensures added { IsTrue result → IsAdded N.net self.old self.new tally.now.key deeds deed.now }
    {
        let mut offer: Offer<Deed, u64, Law<N>, Nothing> = self
            .seen
            .plain::<Nothing, Deed, Add<N>>(deed);
        let mut pen = self.seen.no_pen();
        let found = tally
            .word
            .compare_exchange::<Add<N>, Nothing>(
                deeds,
                deeds + 1,
                &mut self.seen,
                &mut offer,
                &mut pen,
            );
        found == deeds
    }
}
